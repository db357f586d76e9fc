// One operation after another, on tables in order.
// The place goes beside the buffer: in a struct of both, every contract would have to say that the buffer stays.
// `order` is a clause: it ties tables, segments, settings and both indexes, which no struct may hold together.
// `shared` is a clause: it relates the tables before and after, which no type can hold.
// `cached` is a clause: it ties the record found last to the index, which is a parameter of its own.
ghost use Rattle.std.specs.Prelude.{◌≡◌, ℕ, ◌+◌, ◌≤◌, length, OnOk};
ghost use Rattle.layout.specs.Reads.{held};
ghost use Rattle.book.specs.Actions.{times};
ghost use Rattle.book.specs.Flush.{perform as performs, operation as one-operation, operations as all-operations};
ghost use Rattle.tables.specs.InOrder.{InOrder};
ghost use Rattle.operations.specs.Parts.{SharedKept, lent};
ghost use Rattle.interpret.specs.Played.{Played};
ghost use Rattle.book.specs.Flush.{buffer_after};
ghost use Rattle.recorder.specs.Answers.{answer};
ghost use Rattle.flush.specs.Found.{Cached};
ghost use Rattle.flush.specs.Flushes.{Flushes};
ghost use Rattle.flush.specs.Operation.{meaning, made_by, Created};

use crate::inner::creates::create_span;
use crate::inner::found::{find_span, segment_of};
use crate::inner::segments::on_segment;
use crate::inner::spans::on_span;
use crate::operation::{Operation, operation_of};
use index::Index;
use index::entry::Entry;
use layout::buffer::{ChangeBuffer, clear_count};
use layout::operation::BufferedOperation;
use operations::inner::flush_tables::FlushTables;
use refusals::Result;
use tables::segment::Segment;
use tables::settings::Settings;
use texts::Text;

// A create looks at the tables after its last operand; every other operation finds its live span before the first. (The
// indexes are lent each as a parameter of its own, and so is what was found in one of them.)
// A match and no table of closures, since one contract would have to do for all closures of the table.
fn perform<T: Text, S: Index, G: Index>(
    buffer: &ChangeBuffer,
    index: &mut usize,
    last: &mut Option<Entry>,
    tables: &mut FlushTables<'_, T>,
    segments: &mut [Segment<T>],
    settings: &mut Settings<T>,
    by_id: &mut S,
    by_segment: &mut G,
    id: u64,
    operation: Operation,
) -> Result<()>
    requires order { InOrder (lent tables.old segments.old settings.old (S.content by_id.old) (G.content by_segment.old)) }
    requires cached { Cached (S.content by_id.old).held last.old }
    ensures played { Played T.bytes (performs (meaning operation) id) (made_by operation id) (held buffer.now) (lent tables.old segments.old settings.old (S.content by_id.old) (G.content by_segment.old)) (lent tables.new segments.new settings.new (S.content by_id.new) (G.content by_segment.new)) index.old index.new result }
    ensures shared { SharedKept tables.old tables.new }
    ensures cached { Cached (S.content by_id.new).held last.new }
{
    match operation {
        Operation::Creates(extra) => create_span(
            buffer, index, tables, segments, settings, by_id, by_segment, id, extra,
        ),
        Operation::Spans(on) => {
            let found = find_span(by_id, last, id)?;
            on_span(buffer, index, tables, found, on)
        }
        Operation::Segments(on) => {
            let found = find_span(by_id, last, id)?;
            let segment = segment_of(tables.spans(), found);
            on_segment(buffer, index, tables, segments, by_segment, segment, on)
        }
    }
}

fn operate<T: Text, S: Index, G: Index>(
    buffer: &ChangeBuffer,
    index: &mut usize,
    last: &mut Option<Entry>,
    tables: &mut FlushTables<'_, T>,
    segments: &mut [Segment<T>],
    settings: &mut Settings<T>,
    by_id: &mut S,
    by_segment: &mut G,
) -> Result<()>
    requires order { InOrder (lent tables.old segments.old settings.old (S.content by_id.old) (G.content by_segment.old)) }
    requires cached { Cached (S.content by_id.old).held last.old }
    ensures played { Played T.bytes one-operation (Created (held buffer.now)) (held buffer.now) (lent tables.old segments.old settings.old (S.content by_id.old) (G.content by_segment.old)) (lent tables.new segments.new settings.new (S.content by_id.new) (G.content by_segment.new)) index.old index.new result }
    ensures shared { SharedKept tables.old tables.new }
    ensures cached { Cached (S.content by_id.new).held last.new }
{
    let head = BufferedOperation::from_buf(buffer, index)?;
    let operation = operation_of(head.opcode);
    perform(
        buffer,
        index,
        last,
        tables,
        segments,
        settings,
        by_id,
        by_segment,
        head.span_id,
        operation,
    )
}

fn operate_times<T: Text, S: Index, G: Index>(
    buffer: &ChangeBuffer,
    index: &mut usize,
    tables: &mut FlushTables<'_, T>,
    segments: &mut [Segment<T>],
    settings: &mut Settings<T>,
    by_id: &mut S,
    by_segment: &mut G,
    count: u32,
) -> Result<()>
    requires order { InOrder (lent tables.old segments.old settings.old (S.content by_id.old) (G.content by_segment.old)) }
    ensures played { Played T.bytes (times count one-operation) (Created (held buffer.now)) (held buffer.now) (lent tables.old segments.old settings.old (S.content by_id.old) (G.content by_segment.old)) (lent tables.new segments.new settings.new (S.content by_id.new) (G.content by_segment.new)) index.old index.new result }
    ensures shared { SharedKept tables.old tables.new }
{
    let mut last = None;
    for _ in 0..count {
        operate(
            buffer, index, &mut last, tables, segments, settings, by_id, by_segment,
        )?;
    }
    Ok(())
}

// Eight bytes of count, of which the low 32 bits are used, and then as many operations.
pub fn flush<T: Text, S: Index, G: Index>(
    buffer: &ChangeBuffer,
    index: &mut usize,
    tables: &mut FlushTables<'_, T>,
    segments: &mut [Segment<T>],
    settings: &mut Settings<T>,
    by_id: &mut S,
    by_segment: &mut G,
) -> Result<()>
    requires order { InOrder (lent tables.old segments.old settings.old (S.content by_id.old) (G.content by_segment.old)) }
    ensures played { Played T.bytes all-operations (Created (held buffer.now)) (held buffer.now) (lent tables.old segments.old settings.old (S.content by_id.old) (G.content by_segment.old)) (lent tables.new segments.new settings.new (S.content by_id.new) (G.content by_segment.new)) index.old index.new result }
    ensures shared { SharedKept tables.old tables.new }
    ensures bound { OnOk result (index.old + 8 ≤ length (held buffer.now)) }
{
    let count: u64 = buffer.read(index)?;
    // A mask, since a cast is proved to lose nothing.
    operate_times(
        buffer,
        index,
        tables,
        segments,
        settings,
        by_id,
        by_segment,
        (count & 0xffff_ffff) as u32,
    )
}

// The flush of a buffer's bytes, whose count is zero afterwards if all of it was accepted.
pub fn flush_bytes<T: Text, S: Index, G: Index>(
    bytes: &mut [u8],
    tables: &mut FlushTables<'_, T>,
    segments: &mut [Segment<T>],
    settings: &mut Settings<T>,
    by_id: &mut S,
    by_segment: &mut G,
) -> Result<()>
    requires order { InOrder (lent tables.old segments.old settings.old (S.content by_id.old) (G.content by_segment.old)) }
    ensures flushes { Flushes T.bytes bytes.old (lent tables.old segments.old settings.old (S.content by_id.old) (G.content by_segment.old)) (lent tables.new segments.new settings.new (S.content by_id.new) (G.content by_segment.new)) (answer result) }
    ensures after { bytes.new ≡ buffer_after (answer result) bytes.old }
    ensures shared { SharedKept tables.old tables.new }
{
    let buffer = ChangeBuffer::new(bytes);
    let mut index = 0;
    flush(
        &buffer, &mut index, tables, segments, settings, by_id, by_segment,
    )?;
    clear_count(bytes);
    Ok(())
}
