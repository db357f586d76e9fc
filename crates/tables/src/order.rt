// The question that every call asks first: are the tables in order?
ghost use Rattle.std.specs.Prelude.{length, ◌↔◌, IsTrue};
ghost use Rattle.tables.specs.InOrder.{InOrder, Lengths, ChecksOrder, OthersInOrder, Sized};
ghost use Rattle.tables.specs.Lent.{passed};
ghost use Rattle.tables.specs.Shows.{ShowsABook};

use crate::record::{TableSize, kept_in};
use crate::segment::Segment;
use crate::settings::Settings;
use crate::tables::{MOST_DEFAULTS, MOST_STRINGS, Tables};
use index::Index;
use refusals::ChangeBufferError;
use texts::Text;

// Whether a table has at least one record and no more than it may, two rows for each, and an index with room for all.
fn lengths_allowed<R: TableSize, T, I: Index>(
    records: &[R],
    texts: &[(T, T)],
    numbers: &[(T, u64)],
    index: &I,
) -> bool
    ensures { IsTrue result ↔ (Lengths R.MOST R.TEXT_ROW R.NUMBER_ROW
        (length records.now) (length texts.now) (length numbers.now) (I.content index.now).room) }
{
    let count = records.len();
    (1..=R::MOST).contains(&count)
        && count.checked_mul(R::TEXT_ROW) == Some(texts.len())
        && count.checked_mul(R::NUMBER_ROW) == Some(numbers.len())
        && count <= index.capacity()
}

// Whether there is at least one string and no more than there may be, and the table of default pairs, of which `count` count.
fn others_allowed<T>(strings: &[Option<T>], defaults: &[(T, T)], count: usize) -> bool
    ensures { IsTrue result ↔ (OthersInOrder (length strings.now) (length defaults.now) count) }
{
    (1..=MOST_STRINGS).contains(&strings.len())
        && defaults.len() == MOST_DEFAULTS
        && count <= MOST_DEFAULTS
}

// What set-up asks: lengths and capacities alone.
pub fn tables_sized<T: Text, S: Index, G: Index>(
    tables: &Tables<'_, T>,
    segments: &[Segment<T>],
    settings: &Settings<T>,
    by_id: &S,
    by_segment: &G,
) -> bool
    ensures { IsTrue result ↔ (Sized
        (passed tables.now segments.now settings.now (S.content by_id.now) (G.content by_segment.now))) }
{
    lengths_allowed(tables.spans, tables.span_meta, tables.span_metrics, by_id)
        && lengths_allowed(
            segments,
            tables.segment_meta,
            tables.segment_metrics,
            by_segment,
        )
        && others_allowed(tables.strings, tables.defaults, 0)
}

// The whole question. Its cost grows with the tables: one look at each record, and one at the index for each record in use.
pub fn tables_in_order<T: Text, S: Index, G: Index>(
    tables: &Tables<'_, T>,
    segments: &[Segment<T>],
    settings: &Settings<T>,
    by_id: &S,
    by_segment: &G,
) -> bool
    ensures { IsTrue result ↔ (InOrder
        (passed tables.now segments.now settings.now (S.content by_id.now) (G.content by_segment.now))) }
{
    tables_sized(tables, segments, settings, by_id, by_segment)
        && settings.defaults <= MOST_DEFAULTS
        && kept_in(tables.spans, by_id)
        && kept_in(segments, by_segment)
}

// The first step of a call that reads or changes the tables: refused (1) where they are not in order.
pub fn check_order<T: Text, S: Index, G: Index>(
    tables: &Tables<'_, T>,
    segments: &[Segment<T>],
    settings: &Settings<T>,
    by_id: &S,
    by_segment: &G,
) -> refusals::Result<()>
    ensures { ChecksOrder
        (passed tables.now segments.now settings.now (S.content by_id.now) (G.content by_segment.now))
        result }
{
    if tables_in_order(tables, segments, settings, by_id, by_segment) {
        Ok(())
    } else {
        Err(ChangeBufferError::OutOfOrder)
    }
}

// The same question under its other meaning, a law for readers: memory in order, and no other, shows a book.
pub fn shows_a_book<T: Text, S: Index, G: Index>(
    tables: &Tables<'_, T>,
    segments: &[Segment<T>],
    settings: &Settings<T>,
    by_id: &S,
    by_segment: &G,
) -> bool
    ensures { IsTrue result ↔ (ShowsABook T.bytes
        (passed tables.now segments.now settings.now (S.content by_id.now) (G.content by_segment.now))) }
{
    tables_in_order(tables, segments, settings, by_id, by_segment)
}
