// A create: a span is made, and its segment counts one more.
// `order` is a clause: it ties tables, segments, settings and both indexes, which no struct may hold together.
// `only` is a clause: it relates the tables before and after, which no type can hold.
ghost use Rattle.std.specs.Prelude.{◌≡◌, ◌+◌, ◌*◌, ◌<◌, ◌≤◌, length, take};
ghost use Rattle.vec_map.specs.Tables.{row, OthersStay};
ghost use Rattle.book.specs.Limits.{most_defaults, span_text_row};
ghost use Rattle.tables.specs.Store.{Store};
ghost use Rattle.tables.specs.InOrder.{InOrder};
ghost use Rattle.operations.specs.Done.{gone};
ghost use Rattle.operations.specs.declared.values.PairKind.TheVariants.{Meta};
ghost use Rattle.operations.specs.Parts.{HasRow, TextsOnly, create_parts};
ghost use Rattle.operations.specs.Made.{SameSettings, made_span, new_segment, Roomy, Puts, RecordFor, CanGrow, Makes, Enters, Creates};

use crate::inner::flush_tables::FlushTables;
use crate::inner::places::{Place, seat_for, span_for};
use crate::values::Making;
use index::Index;
use index::entry::Entry;
use refusals::Result;
use tables::segment::Segment;
use tables::settings::Settings;
use tables::span::{Mark, Span, TEXT_ROW};
use texts::Text;
use vec_map::head::Head;

// Pairs into the front of a row.
fn fill_row<T: Text>(row: &mut [(T, T)], pairs: &[(T, T)])
    requires { length pairs.now ≤ length row.old }
    ensures { take (length pairs.now) row.new ≡ pairs.now }
{
    row[..pairs.len()].copy_from_slice(pairs);
}

// The default pairs into the text row of a span; every other row stays as it is. (The row is there, so its start is not
// tested, as `vec_map` does where it may not be.)
fn fill_defaults<T: Text>(
    span_meta: &mut [(T, T)],
    number: usize,
    defaults: &[(T, T)],
    count: usize,
)
    requires place { number * span_text_row + span_text_row ≤ length span_meta.old }
    requires within { count ≤ length defaults.now }
    requires bound { count ≤ most_defaults }
    ensures items { take count (row span_text_row number span_meta.new) ≡ take count defaults.now }
    ensures others { OthersStay span_text_row number span_meta.old span_meta.new }
    ensures long { length span_meta.new ≡ length span_meta.old }
{
    let from = number * TEXT_ROW;
    fill_row(&mut span_meta[from..from + TEXT_ROW], &defaults[..count]);
}

// Where the span takes a free record, the hint moves on. A free record may keep the number of the next free one in its
// `segment` field, so the hinted record gives that number, and any other record the one after its own. What stands in
// free records is open, so a hint is looked at before it is used.
fn move_hint<T: Text>(settings: &mut Settings<T>, span: &Span<T>, number: usize)
    ensures same { SameSettings settings.old settings.new }
{
    if span.is_unused() {
        settings.next_free = if settings.next_free == number {
            span.segment as usize
        } else {
            number.wrapping_add(1)
        };
    }
}

// The record of a new span, with so many default pairs.
fn new_span<T: Text>(id: u64, segment: u64, making: Making<T>, defaults: usize) -> Span<T>
    ensures { result ≡ made_span id segment making defaults }
{
    Span {
        mark: Mark::Live,
        id,
        segment,
        meta: Head {
            count: defaults,
            deduped: false,
        },
        metrics: Head::default(),
        trace: making.trace,
        parent: making.parent,
        start: making.start,
        duration: 0,
        error: 0,
        service: making.service,
        name: making.name,
        resource: making.resource,
        kind: making.kind,
    }
}

// A put that finds room.
fn put_place<I: Index>(index: &mut I, place: Entry)
    requires room { Roomy (I.content index.old).held (I.content index.old).room place.id }
    ensures sets { Puts (I.content index.old).held (I.content index.new).held place.id place.number }
    ensures capacity { (I.content index.new).room ≡ (I.content index.old).room }
{
    let _ = index.put(place.id, place.number);
}

// The span with its default pairs, in the record with this number.
fn make_span<T: Text, S: Index>(
    tables: &mut FlushTables<'_, T>,
    settings: &mut Settings<T>,
    by_id: &mut S,
    place: Entry,
    segment: u64,
    making: Making<T>,
)
    requires row { HasRow Meta tables.old place.number }
    requires pairs { settings.old.defaults ≤ length tables.old.defaults.now }
    requires bound { settings.old.defaults ≤ most_defaults }
    requires room { Roomy (S.content by_id.old).held (S.content by_id.old).room place.id }
    ensures makes { Makes tables.old.spans.now tables.new.spans.now tables.old.span_meta.now tables.new.span_meta.now tables.old.defaults.now settings.old settings.new (S.content by_id.old).held (S.content by_id.new).held place.id segment place.number making }
    ensures capacity { (S.content by_id.new).room ≡ (S.content by_id.old).room }
    ensures long { length tables.new.span_meta.now ≡ length tables.old.span_meta.now }
    ensures only { TextsOnly tables.old tables.new }
{
    let count = settings.defaults;
    fill_defaults(tables.span_meta, place.number, tables.defaults, count);
    let span = &mut tables.spans[place.number];
    move_hint(settings, span, place.number);
    *span = new_span(place.id, segment, making, count);
    put_place(by_id, place);
}

// A segment that one creation names, and nothing written to it. (Who makes a record, here and elsewhere, writes out its
// fields: each gives others, and a constructor for all would take them as parameters.)
fn new_segment<T: Text>(id: u64) -> Segment<T>
    ensures { result ≡ new_segment id }
{
    Segment {
        id,
        count: 1,
        meta: Head::default(),
        metrics: Head::default(),
        origin: None,
        rule: None,
        limit: None,
        agent: None,
    }
}

// One creation more names the segment in a record; it is made if none stands there.
fn enter_segment<T: Text, G: Index>(segments: &mut [Segment<T>], by_segment: &mut G, place: Entry)
    requires within { place.number < length segments.old }
    requires own { RecordFor gone (G.content by_segment.old).held segments.old place.id place.number }
    requires bound { CanGrow segments.old place.number }
    requires room { Roomy (G.content by_segment.old).held (G.content by_segment.old).room place.id }
    ensures enters { Enters segments.old segments.new (G.content by_segment.old).held (G.content by_segment.new).held place.id place.number }
    ensures capacity { (G.content by_segment.new).room ≡ (G.content by_segment.old).room }
{
    let segment = &mut segments[place.number];
    if segment.count > 0 {
        segment.count += 1;
    } else {
        *segment = new_segment(place.id);
        put_place(by_segment, place);
    }
}

// A span is made in its own record, or a free one, and its segment is made if it is absent. Refused (11, 12) where one
// of them finds no record, or the segment's count cannot grow. (The segment's id goes beside what is made: it is not the span's.)
pub fn create<T: Text, S: Index, G: Index>(
    tables: &mut FlushTables<'_, T>,
    segments: &mut [Segment<T>],
    settings: &mut Settings<T>,
    by_id: &mut S,
    by_segment: &mut G,
    id: u64,
    segment: u64,
    making: Making<T>,
) -> Result<()>
    requires order { (m : Store T) × InOrder (create_parts tables.old segments.old settings.old (S.content by_id.old) (G.content by_segment.old) m) }
    ensures done { Creates T.bytes id segment making (create_parts tables.old segments.old settings.old (S.content by_id.old) (G.content by_segment.old)) (create_parts tables.new segments.new settings.new (S.content by_id.new) (G.content by_segment.new)) result }
    ensures only { TextsOnly tables.old tables.new }
{
    let place = span_for(tables.spans(), by_id, id, settings.next_free)?;
    let seat = seat_for(segments, by_segment, segment)?;
    make_span(tables, settings, by_id, place, segment, making);
    enter_segment(segments, by_segment, seat);
    Ok(())
}
