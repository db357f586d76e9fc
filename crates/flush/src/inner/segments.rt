// Operations on the segment of a live span, by their kind.
// The place goes beside the buffer: in a struct of both, every contract would have to say that the buffer stays.
// `only` is a clause: it relates the tables before and after, which no type can hold.
ghost use Rattle.std.specs.Prelude.{ℕ};
ghost use Rattle.layout.specs.Reads.{held};
ghost use Rattle.recorder.specs.Strings.{with_strings};
ghost use Rattle.operations.specs.declared.values.PairKind.{PairKind};
ghost use Rattle.operations.specs.Done.{SegmentRows};
ghost use Rattle.operations.specs.Parts.{RowsOnly, with_seats, with_segment_rows};
ghost use Rattle.interpret.specs.Played.{note_attribute, OnAny};
ghost use Rattle.flush.specs.Operation.{segment_attribute};

use crate::operation::OnSegment;
use index::Index;
use interpret::inner::segments::{set_trace_origin, set_trace_pair};
use layout::buffer::ChangeBuffer;
use operations::inner::flush_tables::FlushTables;
use refusals::Result;
use tables::segment::Segment;
use texts::Text;

pub fn on_segment<T: Text, G: Index>(
    buffer: &ChangeBuffer,
    index: &mut usize,
    tables: &mut FlushTables<'_, T>,
    segments: &mut [Segment<T>],
    by_segment: &G,
    segment: u64,
    operation: OnSegment,
) -> Result<()>
    requires rows { (kind : PairKind) → SegmentRows kind tables.old segments.old (G.content by_segment.now).held }
    ensures played { OnAny T.bytes (note_attribute (segment_attribute operation) segment) (held buffer.now) (λ m. with_strings tables.old.strings.now (with_seats (G.content by_segment.now).held (with_segment_rows tables.old segments.old m))) (λ m. with_strings tables.new.strings.now (with_seats (G.content by_segment.now).held (with_segment_rows tables.new segments.new m))) index.old index.new result }
    ensures only { RowsOnly tables.old tables.new }
{
    match operation {
        OnSegment::Pair(kind) => set_trace_pair(
            buffer, index, tables, segments, by_segment, segment, kind,
        ),
        OnSegment::Origin => set_trace_origin(
            buffer,
            index,
            tables.strings,
            segments,
            by_segment,
            segment,
        ),
    }
}
