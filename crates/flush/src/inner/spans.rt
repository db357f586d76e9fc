// Operations on a live span, by their kind.
// The place goes beside the buffer: in a struct of both, every contract would have to say that the buffer stays.
// `only` is a clause: it relates the tables before and after, which no type can hold.
ghost use Rattle.std.specs.Prelude.{ℕ};
ghost use Rattle.layout.specs.Reads.{held};
ghost use Rattle.recorder.specs.Strings.{with_strings};
ghost use Rattle.operations.specs.declared.values.PairKind.{PairKind};
ghost use Rattle.operations.specs.Parts.{HasRow, SpansOnly, with_span_rows};
ghost use Rattle.interpret.specs.Played.{OnLive};
ghost use Rattle.flush.specs.Operation.{span_act};

use crate::operation::OnSpan;
use index::entry::Entry;
use interpret::inner::batches::batch_set_pairs;
use interpret::inner::spans::{set_pair, set_span_field};
use layout::buffer::ChangeBuffer;
use operations::inner::flush_tables::FlushTables;
use refusals::Result;
use texts::Text;

pub fn on_span<T: Text>(
    buffer: &ChangeBuffer,
    index: &mut usize,
    tables: &mut FlushTables<'_, T>,
    found: Entry,
    operation: OnSpan,
) -> Result<()>
    requires rows { (kind : PairKind) → HasRow kind tables.old found.number }
    ensures played { OnLive T.bytes found.id found.number (span_act operation found.id) (held buffer.now) (λ m. with_strings tables.old.strings.now (with_span_rows tables.old m)) (λ m. with_strings tables.new.strings.now (with_span_rows tables.new m)) index.old index.new result }
    ensures only { SpansOnly tables.old tables.new }
{
    match operation {
        OnSpan::Pair(kind) => set_pair(buffer, index, tables, found, kind),
        OnSpan::Field(name) => set_span_field(buffer, index, tables, found, name),
        OnSpan::Batch(kind) => batch_set_pairs(buffer, index, tables, found, kind),
    }
}
