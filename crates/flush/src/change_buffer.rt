// The call that flushes a change buffer.
ghost use Rattle.std.specs.Prelude.{◌≡◌};
ghost use Rattle.book.specs.Flush.{buffer_after};
ghost use Rattle.tables.specs.Lent.{passed};
ghost use Rattle.tables.specs.Store.{store};
ghost use Rattle.tables.specs.InOrder.{InOrder};
ghost use Rattle.recorder.specs.Answers.{answer};
ghost use Rattle.operations.specs.Parts.{SharedStay};
ghost use Rattle.flush.specs.Flushes.{Flushes, FlushesAll};

use crate::inner::flushing::flush_bytes;
use index::Index;
use operations::inner::flush_tables::FlushTables;
use refusals::Result;
use tables::order::check_order;
use tables::segment::Segment;
use tables::settings::Settings;
use tables::span::Span;
use tables::tables::Tables;
use texts::Text;

// Plays the operations of a buffer one after another, up to the first that is refused. An accepted flush zeroes the
// buffer's count; a refused one leaves the buffer as it is, and what came before the refusal stays written.
pub fn flush_change_buffer<T: Text, S: Index, G: Index>(
    tables: &mut Tables<'_, T>,
    segments: &mut [Segment<T>],
    settings: &mut Settings<T>,
    by_id: &mut S,
    by_segment: &mut G,
    buffer: &mut [u8],
) -> Result<()>
    ensures call { FlushesAll T.bytes buffer.old
        (passed tables.old segments.old settings.old (S.content by_id.old) (G.content by_segment.old))
        (passed tables.new segments.new settings.new (S.content by_id.new) (G.content by_segment.new))
        (answer result) }
    ensures after { buffer.new ≡ buffer_after (answer result) buffer.old }
    ensures shared { SharedStay tables.old tables.new }
{
    check_order(tables, segments, settings, by_id, by_segment)?;
    flush_lent(
        tables.spans,
        tables.span_meta,
        tables.span_metrics,
        tables.segment_meta,
        tables.segment_metrics,
        tables.strings,
        tables.defaults,
        segments,
        settings,
        by_id,
        by_segment,
        buffer,
    )
}

// The flush of a buffer, on tables in order: its operations are lent strings and default pairs to be read only. (The tables are
// lent one by one: strings and pairs in a field of a `&mut Tables` can't be lent by `&` yet, and of a slice that goes into the
// struct from a variable nothing is known afterwards.)
fn flush_lent<T: Text, S: Index, G: Index>(
    spans: &mut [Span<T>],
    span_meta: &mut [(T, T)],
    span_metrics: &mut [(T, u64)],
    segment_meta: &mut [(T, T)],
    segment_metrics: &mut [(T, u64)],
    strings: &mut [Option<T>],
    defaults: &mut [(T, T)],
    segments: &mut [Segment<T>],
    settings: &mut Settings<T>,
    by_id: &mut S,
    by_segment: &mut G,
    buffer: &mut [u8],
) -> Result<()>
    requires order { InOrder (store spans.old span_meta.old span_metrics.old segments.old segment_meta.old segment_metrics.old strings.old defaults.old settings.old (S.content by_id.old).held (S.content by_id.old).room (G.content by_segment.old).held (G.content by_segment.old).room) }
    ensures flushes { Flushes T.bytes buffer.old
        (store spans.old span_meta.old span_metrics.old segments.old segment_meta.old segment_metrics.old strings.old defaults.old settings.old (S.content by_id.old).held (S.content by_id.old).room (G.content by_segment.old).held (G.content by_segment.old).room)
        (store spans.new span_meta.new span_metrics.new segments.new segment_meta.new segment_metrics.new strings.new defaults.new settings.new (S.content by_id.new).held (S.content by_id.new).room (G.content by_segment.new).held (G.content by_segment.new).room)
        (answer result) }
    ensures after { buffer.new ≡ buffer_after (answer result) buffer.old }
    ensures strings { strings.new ≡ strings.old }
    ensures defaults { defaults.new ≡ defaults.old }
{
    let mut tables = FlushTables {
        spans,
        span_meta,
        span_metrics,
        segment_meta,
        segment_metrics,
        strings,
        defaults,
    };
    flush_bytes(buffer, &mut tables, segments, settings, by_id, by_segment)
}
