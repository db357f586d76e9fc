// Operations on a live span, whose record has been found.
// The place goes beside the buffer: in a struct of both, every contract would have to say that the buffer stays.
// `only` is a clause: it relates the tables before and after, which no type can hold.
ghost use Rattle.std.specs.Prelude.{◌≡◌, ℕ, ◌<◌, length};
ghost use Rattle.layout.specs.Reads.{held};
ghost use Rattle.book.specs.Flush.{set_attribute};
ghost use Rattle.recorder.specs.Strings.{with_strings};
ghost use Rattle.operations.specs.Parts.{FieldsOnly, HasRow, PairOnly, with_pairs, with_spans};
ghost use Rattle.interpret.specs.Attributes.{attribute_of, pair_attribute};
ghost use Rattle.interpret.specs.Played.{OnLive};

use crate::attributes::FieldName;
use crate::operands::{read_field, read_pair};
use index::entry::Entry;
use layout::buffer::ChangeBuffer;
use operations::inner::fields::set_field;
use operations::inner::flush_tables::FlushTables;
use operations::inner::pairs::add_pair;
use operations::values::PairKind;
use refusals::Result;
use texts::Text;

// Inlined, for the sake of batches.
#[inline(always)]
pub fn set_pair<T: Text>(
    buffer: &ChangeBuffer,
    index: &mut usize,
    tables: &mut FlushTables<'_, T>,
    found: Entry,
    kind: PairKind,
) -> Result<()>
    requires row { HasRow kind tables.old found.number }
    ensures played { OnLive T.bytes found.id found.number (set_attribute (pair_attribute kind) found.id) (held buffer.now) (λ m. with_strings tables.old.strings.now (with_pairs kind tables.old m)) (λ m. with_strings tables.new.strings.now (with_pairs kind tables.new m)) index.old index.new result }
    ensures only { PairOnly kind tables.old tables.new }
    ensures row { HasRow kind tables.new found.number }
{
    let pair = read_pair(buffer, index, tables.strings, kind)?;
    add_pair(tables, found, pair)
}

pub fn set_span_field<T: Text>(
    buffer: &ChangeBuffer,
    index: &mut usize,
    tables: &mut FlushTables<'_, T>,
    found: Entry,
    name: FieldName,
) -> Result<()>
    requires within { found.number < length tables.old.spans.now }
    ensures played { OnLive T.bytes found.id found.number (set_attribute (attribute_of name) found.id) (held buffer.now) (λ m. with_strings tables.old.strings.now (with_spans tables.old.spans.now m)) (λ m. with_strings tables.new.strings.now (with_spans tables.new.spans.now m)) index.old index.new result }
    ensures only { FieldsOnly tables.old tables.new }
{
    let field = read_field(buffer, index, tables.strings, name)?;
    set_field(tables.spans, found, field);
    Ok(())
}
