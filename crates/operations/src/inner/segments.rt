// Writings to the segment of a live span, which are dropped where it is gone.
// `only` is a clause: it relates the tables before and after, which no type can hold.
ghost use Rattle.std.specs.Prelude.{◌≡◌, ℕ, ◌<◌, length, Ok};
ghost use Rattle.book.specs.Book.{origin, text, ◌≔◌};
ghost use Rattle.operations.specs.Done.{OnSeat, OnSegmentIfStanding, HeldWithin, SegmentRows};
ghost use Rattle.operations.specs.Fields.{kind_of, pair_written};
ghost use Rattle.operations.specs.Parts.{HasSegmentRow, SegmentPairOnly, with_segments, with_segment_pairs, with_seats};

use crate::inner::flush_tables::FlushTables;
use crate::inner::rows::insert_below;
use crate::values::Pair;
use index::Index;
use index::entry::Entry;
use refusals::{ChangeBufferError, Result};
use tables::segment::{NUMBER_ROW, Segment, TEXT_ROW};
use texts::Text;

// A pair on the segment with this id. Refused (13) where its row has no place for one more.
pub fn add_segment_pair<T: Text, G: Index>(
    tables: &mut FlushTables<'_, T>,
    segments: &mut [Segment<T>],
    by_segment: &G,
    id: u64,
    pair: Pair<T>,
) -> Result<()>
    requires rows { SegmentRows (kind_of pair) tables.old segments.old (G.content by_segment.now).held }
    ensures done { OnSegmentIfStanding T.bytes id (pair_written T.bytes pair) (λ m. with_seats (G.content by_segment.now).held (with_segment_pairs (kind_of pair) tables.old segments.old m)) (λ m. with_seats (G.content by_segment.now).held (with_segment_pairs (kind_of pair) tables.new segments.new m)) result }
    ensures only { SegmentPairOnly (kind_of pair) tables.old tables.new }
{
    match by_segment.find(id) {
        Some(number) => pair_at(tables, segments, Entry { id, number }, pair),
        None => Ok(()),
    }
}

// (Two arms, as on spans.)
fn pair_at<T: Text>(
    tables: &mut FlushTables<'_, T>,
    segments: &mut [Segment<T>],
    found: Entry,
    pair: Pair<T>,
) -> Result<()>
    requires row { HasSegmentRow (kind_of pair) tables.old segments.old found.number }
    ensures done { OnSeat T.bytes found.id found.number (pair_written T.bytes pair) (with_segment_pairs (kind_of pair) tables.old segments.old) (with_segment_pairs (kind_of pair) tables.new segments.new) result }
    ensures only { SegmentPairOnly (kind_of pair) tables.old tables.new }
{
    let number = found.number;
    match pair {
        Pair::Meta(key, value) => {
            let head = &mut segments[number].meta;
            insert_below(
                tables.segment_meta,
                TEXT_ROW,
                number,
                TEXT_ROW,
                head,
                key,
                value,
            )
        }
        Pair::Metric(key, bits) => {
            let head = &mut segments[number].metrics;
            insert_below(
                tables.segment_metrics,
                NUMBER_ROW,
                number,
                NUMBER_ROW,
                head,
                key,
                bits,
            )
        }
    }
    .ok_or(ChangeBufferError::RowFull(found.id))
}

// The origin of the segment with this id.
pub fn set_origin<T: Text, G: Index>(segments: &mut [Segment<T>], by_segment: &G, id: u64, value: T)
    requires within { HeldWithin (G.content by_segment.now).held (length segments.old) }
    ensures done { OnSegmentIfStanding T.bytes id (origin ≔ text (T.bytes value)) (λ m. with_seats (G.content by_segment.now).held (with_segments segments.old m)) (λ m. with_seats (G.content by_segment.now).held (with_segments segments.new m)) (Ok tt) }
{
    if let Some(number) = by_segment.find(id) {
        origin_at(segments, Entry { id, number }, value);
    }
}

fn origin_at<T: Text>(segments: &mut [Segment<T>], found: Entry, value: T)
    requires within { found.number < length segments.old }
    ensures done { OnSeat T.bytes found.id found.number (origin ≔ text (T.bytes value)) (with_segments segments.old) (with_segments segments.new) (Ok tt) }
{
    segments[found.number].origin = Some(value);
}
