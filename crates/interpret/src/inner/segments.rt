// Operations on the segment of a live span, which are read and dropped where it is gone.
// The place goes beside the buffer: in a struct of both, every contract would have to say that the buffer stays.
// `only` is a clause: it relates the tables before and after, which no type can hold.
ghost use Rattle.std.specs.Prelude.{◌≡◌, ℕ, length};
ghost use Rattle.layout.specs.Reads.{held};
ghost use Rattle.recorder.specs.Strings.{with_strings};
ghost use Rattle.operations.specs.Done.{HeldWithin, SegmentRows};
ghost use Rattle.operations.specs.Parts.{SegmentPairOnly, with_segments, with_segment_pairs, with_seats};
ghost use Rattle.interpret.specs.Attributes.{origin_attribute, pair_attribute};
ghost use Rattle.interpret.specs.Played.{note_attribute, OnAny};

use crate::operands::read_pair;
use index::Index;
use layout::buffer::ChangeBuffer;
use operations::inner::flush_tables::FlushTables;
use operations::inner::segments::{add_segment_pair, set_origin};
use operations::values::PairKind;
use refusals::Result;
use tables::segment::Segment;
use texts::Text;

pub fn set_trace_pair<T: Text, G: Index>(
    buffer: &ChangeBuffer,
    index: &mut usize,
    tables: &mut FlushTables<'_, T>,
    segments: &mut [Segment<T>],
    by_segment: &G,
    segment: u64,
    kind: PairKind,
) -> Result<()>
    requires rows { SegmentRows kind tables.old segments.old (G.content by_segment.now).held }
    ensures played { OnAny T.bytes (note_attribute (pair_attribute kind) segment) (held buffer.now) (λ m. with_strings tables.old.strings.now (with_seats (G.content by_segment.now).held (with_segment_pairs kind tables.old segments.old m))) (λ m. with_strings tables.new.strings.now (with_seats (G.content by_segment.now).held (with_segment_pairs kind tables.new segments.new m))) index.old index.new result }
    ensures only { SegmentPairOnly kind tables.old tables.new }
{
    let pair = read_pair(buffer, index, tables.strings, kind)?;
    add_segment_pair(tables, segments, by_segment, segment, pair)
}

pub fn set_trace_origin<T: Text, G: Index>(
    buffer: &ChangeBuffer,
    index: &mut usize,
    strings: &[Option<T>],
    segments: &mut [Segment<T>],
    by_segment: &G,
    segment: u64,
) -> Result<()>
    requires within { HeldWithin (G.content by_segment.now).held (length segments.old) }
    ensures played { OnAny T.bytes (note_attribute origin_attribute segment) (held buffer.now) (λ m. with_strings strings.now (with_seats (G.content by_segment.now).held (with_segments segments.old m))) (λ m. with_strings strings.now (with_seats (G.content by_segment.now).held (with_segments segments.new m))) index.old index.new result }
{
    let value = buffer.read_string(strings, index)?;
    set_origin(segments, by_segment, segment, value);
    Ok(())
}
