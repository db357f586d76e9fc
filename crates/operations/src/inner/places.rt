// Records for an id: its own, or one that is in no use.
ghost use Rattle.std.specs.Prelude.{◌≡◌, ℕ, ◌<◌, Bool, length, MatchOption, ◌↔◌, IsTrue};
ghost use Rattle.std.specs.List.{position};
ghost use Rattle.tables.specs.Store.{free};
ghost use Rattle.operations.specs.Done.{Unused, gone, HeldWithin};
ghost use Rattle.operations.specs.Made.{NoneUnused, RecordFor, NoRecordFor, CanGrow, SpanPlace, SeatPlace};

use index::Index;
use index::entry::Entry;
use refusals::{ChangeBufferError, Result};
use tables::segment::Segment;
use tables::span::{Mark, Span};
use texts::Text;

// A record that may be in no use.
pub trait Place {
    ghost unused: { Self → Bool };

    fn is_unused(&self) -> bool
        ensures { result ≡ unused self.now };
}

impl<T: Text> Place for Span<T> {
    ghost unused = { free };

    fn is_unused(&self) -> bool {
        self.mark == Mark::Free
    }
}

impl<T: Text> Place for Segment<T> {
    ghost unused = { gone };

    fn is_unused(&self) -> bool {
        self.count == 0
    }
}

fn unused_at<R: Place>(records: &[R], number: usize) -> bool
    ensures { IsTrue result ↔ (Unused R.unused records.now number) }
{
    records.get(number).is_some_and(|record| record.is_unused())
}

fn first_unused<R: Place>(records: &[R]) -> Option<usize>
    ensures { result ≡ position R.unused records.now }
{
    records.iter().position(|record| record.is_unused())
}

// A record in no use: the hinted one, if it is, else the first.
fn unused<R: Place>(records: &[R], hint: usize) -> Option<usize>
    ensures { MatchOption result (NoneUnused R.unused records.now) (Unused R.unused records.now) }
{
    if unused_at(records, hint) {
        Some(hint)
    } else {
        first_unused(records)
    }
}

// The record that is held for an id, else one in no use.
pub fn record_for<R: Place, I: Index>(
    records: &[R],
    index: &I,
    id: u64,
    hint: usize,
) -> Option<usize>
    ensures { MatchOption result (NoRecordFor R.unused (I.content index.now).held records.now id) (RecordFor R.unused (I.content index.now).held records.now id) }
{
    index.find(id).or_else(|| unused(records, hint))
}

// The place of a span: its own, else a free one. Refused (11) where it has none and no record is free.
pub fn span_for<T: Text, S: Index>(
    spans: &[Span<T>],
    by_id: &S,
    id: u64,
    hint: usize,
) -> Result<Entry>
    ensures { SpanPlace (S.content by_id.now).held spans.now id result }
{
    let number = record_for(spans, by_id, id, hint).ok_or(ChangeBufferError::NoRecord(id))?;
    Ok(Entry { id, number })
}

fn can_grow<T: Text>(segments: &[Segment<T>], seat: usize) -> bool
    requires { seat < length segments.now }
    ensures { IsTrue result ↔ (CanGrow segments.now seat) }
{
    segments[seat].count < u32::MAX
}

// The place of a segment whose count can grow, else one where none stands. As long as no segment has gone, the next one
// stands at their count. Refused (12) where its count cannot grow, or it has none and every record is in use.
pub fn seat_for<T: Text, G: Index>(
    segments: &[Segment<T>],
    by_segment: &G,
    id: u64,
) -> Result<Entry>
    requires { HeldWithin (G.content by_segment.now).held (length segments.now) }
    ensures { SeatPlace (G.content by_segment.now).held segments.now id result }
{
    match record_for(segments, by_segment, id, by_segment.count()) {
        Some(number) if can_grow(segments, number) => Ok(Entry { id, number }),
        _ => Err(ChangeBufferError::NoSegmentRecord(id)),
    }
}
