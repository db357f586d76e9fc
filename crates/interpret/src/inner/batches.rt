// Batches: a count, and then as many pairs for one live span.
// The place goes beside the buffer: in a struct of both, every contract would have to say that the buffer stays.
// `only` is a clause: it relates the tables before and after, which no type can hold.
ghost use Rattle.std.specs.Prelude.{◌≡◌, ℕ};
ghost use Rattle.layout.specs.Reads.{held};
ghost use Rattle.book.specs.Actions.{times};
ghost use Rattle.book.specs.Flush.{set_attribute};
ghost use Rattle.recorder.specs.Strings.{with_strings};
ghost use Rattle.operations.specs.Parts.{HasRow, PairOnly, with_pairs};
ghost use Rattle.interpret.specs.Attributes.{pair_attribute};
ghost use Rattle.interpret.specs.Played.{OnLive, set_counted};

use crate::inner::spans::set_pair;
use index::entry::Entry;
use layout::buffer::ChangeBuffer;
use operations::inner::flush_tables::FlushTables;
use operations::values::PairKind;
use refusals::Result;
use texts::Text;

pub fn batch_set_pairs<T: Text>(
    buffer: &ChangeBuffer,
    index: &mut usize,
    tables: &mut FlushTables<'_, T>,
    found: Entry,
    kind: PairKind,
) -> Result<()>
    requires row { HasRow kind tables.old found.number }
    ensures played { OnLive T.bytes found.id found.number (set_counted (pair_attribute kind) found.id) (held buffer.now) (λ m. with_strings tables.old.strings.now (with_pairs kind tables.old m)) (λ m. with_strings tables.new.strings.now (with_pairs kind tables.new m)) index.old index.new result }
    ensures only { PairOnly kind tables.old tables.new }
    ensures row { HasRow kind tables.new found.number }
{
    let count: u32 = buffer.read(index)?;
    set_pairs(buffer, index, tables, found, kind, count)
}

fn set_pairs<T: Text>(
    buffer: &ChangeBuffer,
    index: &mut usize,
    tables: &mut FlushTables<'_, T>,
    found: Entry,
    kind: PairKind,
    count: u32,
) -> Result<()>
    requires row { HasRow kind tables.old found.number }
    ensures played { OnLive T.bytes found.id found.number (times count (set_attribute (pair_attribute kind) found.id)) (held buffer.now) (λ m. with_strings tables.old.strings.now (with_pairs kind tables.old m)) (λ m. with_strings tables.new.strings.now (with_pairs kind tables.new m)) index.old index.new result }
    ensures only { PairOnly kind tables.old tables.new }
    ensures row { HasRow kind tables.new found.number }
{
    for _ in 0..count {
        set_pair(buffer, index, tables, found, kind)?;
    }
    Ok(())
}
