// Records with an index over them: the question whether each keeps its limits and the index holds just those in use.
ghost use Rattle.std.specs.Prelude.{◌≡◌, ℕ, Option as Maybe, ◌↔◌, IsTrue};
ghost use Rattle.book.specs.Limits.{most_spans, most_segments, segment_text_limit, segment_number_limit, span_text_row, span_number_row};
ghost use Rattle.tables.specs.InOrder.{KeptIn, SpanLimits, SegmentLimits};
ghost use Rattle.tables.specs.Store.{live_key, standing_key};

use crate::segment::Segment;
use crate::span::{Mark, NUMBER_LIMIT, Span, TEXT_LIMIT};
use crate::{segment, span};
use index::Index;
use texts::Text;

// How large a table of such records may be, and its rows.
pub trait TableSize {
    ghost MOST: { ℕ };

    ghost TEXT_ROW: { ℕ };

    ghost NUMBER_ROW: { ℕ };

    // How many records a table may have.
    const MOST: usize;

    // How many text pairs the row of one record takes, and how many number pairs.
    const TEXT_ROW: usize;

    const NUMBER_ROW: usize;
}

// A record of a table that an index goes over.
pub trait Record {
    // The id under which the index has to hold it, none where it is not in use.
    ghost key_of: { Self → Maybe ℕ };

    // What its counts are held to.
    ghost limits: { Self → Type 0 };

    fn key(&self) -> Option<u64>
        ensures { result ≡ key_of self.now };

    fn keeps_limits(&self) -> bool
        ensures { IsTrue result ↔ (limits self.now) };
}

impl<T: Text> TableSize for Span<T> {
    ghost MOST = { most_spans };

    ghost TEXT_ROW = { span_text_row };

    ghost NUMBER_ROW = { span_number_row };

    const MOST: usize = 4096;

    const TEXT_ROW: usize = span::TEXT_ROW;

    const NUMBER_ROW: usize = span::NUMBER_ROW;
}

impl<T: Text> Record for Span<T> {
    ghost key_of = { live_key };

    ghost limits = { SpanLimits };

    fn key(&self) -> Option<u64> {
        (self.mark == Mark::Live).then_some(self.id)
    }

    fn keeps_limits(&self) -> bool {
        match self.mark {
            Mark::Free => true,
            Mark::Live => self.meta.count <= TEXT_LIMIT && self.metrics.count <= NUMBER_LIMIT,
            Mark::HandedOut => {
                self.meta.count <= Self::TEXT_ROW && self.metrics.count <= Self::NUMBER_ROW
            }
        }
    }
}

impl<T: Text> TableSize for Segment<T> {
    ghost MOST = { most_segments };

    ghost TEXT_ROW = { segment_text_limit };

    ghost NUMBER_ROW = { segment_number_limit };

    const MOST: usize = 256;

    const TEXT_ROW: usize = segment::TEXT_ROW;

    const NUMBER_ROW: usize = segment::NUMBER_ROW;
}

impl<T: Text> Record for Segment<T> {
    ghost key_of = { standing_key };

    ghost limits = { SegmentLimits };

    fn key(&self) -> Option<u64> {
        (self.count > 0).then_some(self.id)
    }

    fn keeps_limits(&self) -> bool {
        self.count == 0
            || (self.meta.count <= Self::TEXT_ROW && self.metrics.count <= Self::NUMBER_ROW)
    }
}

// Whether each record keeps its limits, and the index holds the keys of those in use and nothing else. It goes once over
// the records, and asks the index once for each that is in use.
// `holds` of the indexes asks ids alone: with limits, a second pass or a closure that tells both would be no plainer.
pub fn kept_in<R: Record, I: Index>(records: &[R], index: &I) -> bool
    ensures { IsTrue result ↔ (KeptIn R.key_of R.limits records.now (I.content index.now).held) }
{
    let mut used: usize = 0;
    for (i, record) in records.iter().enumerate() {
        if !record.keeps_limits() {
            return false;
        }
        if let Some(id) = record.key() {
            if index.find(id) != Some(i) {
                return false;
            }
            used += 1;
        }
    }
    index.count() == used
}
