// A recorder with tables and indexes of its own, and its answers to the calls of a script.
use crate::script::{BadScript, Call, Sizes};
use hashed_index::hashed::HashedIndex;
use layout::utils::TraceId;
use questions::{get_handed, get_numbers, get_segment, get_span};
use recorder::decisions::set_decisions;
use recorder::defaults::set_default_meta;
use recorder::setup::set_up;
use recorder::strings::{string_table_evict_one, string_table_insert_one};
use refusals::ChangeBufferError;
use small_index::segment::SmallSegmentMap;
use std::alloc::Global;
use std::fmt;
use tables::segment::Segment;
use tables::settings::Settings;
use tables::span::{Mark, Span};
use tables::tables::{MOST_DEFAULTS, Tables};
use tables::{segment, span};
use texts::Text;
use texts::short::ShortText;
use vec_map::head::Head;

// What an accepted call answers.
#[derive(Clone, Copy, PartialEq, Eq, Debug)]
pub enum Answer {
    Accepted,
    // The number of a record, or that there is none.
    Record(Option<usize>),
    HandedOut,
    Numbers(usize, usize, usize),
}

impl fmt::Display for Answer {
    fn fmt<W: fmt::Write>(&self, f: &mut fmt::Formatter<W>) -> fmt::Result {
        match self {
            Answer::Accepted => write!(f, "accepted"),
            Answer::Record(Some(number)) => write!(f, "record {number}"),
            Answer::Record(None) => write!(f, "none"),
            Answer::HandedOut => write!(f, "handed out"),
            Answer::Numbers(live, handed_out, free) => {
                write!(f, "{live} live, {handed_out} handed out, {free} free")
            }
        }
    }
}

fn blank_span() -> Span<ShortText> {
    let none = <ShortText as Text>::empty();
    Span {
        mark: Mark::Free,
        id: 0,
        segment: 0,
        meta: Head::default(),
        metrics: Head::default(),
        trace: TraceId::default(),
        parent: 0,
        start: 0,
        duration: 0,
        error: 0,
        service: none,
        name: none,
        resource: none,
        kind: none,
    }
}

fn blank_segment() -> Segment<ShortText> {
    Segment {
        id: 0,
        count: 0,
        meta: Head::default(),
        metrics: Head::default(),
        origin: None,
        rule: None,
        limit: None,
        agent: None,
    }
}

// The pairs of so many rows.
fn rows<V: Copy + Clone>(
    heap: Global,
    records: usize,
    width: usize,
    value: V,
) -> Result<Vec<(ShortText, V)>, BadScript> {
    let count = records.checked_mul(width).ok_or(BadScript::TooLarge)?;
    Ok(vec![in heap; (<ShortText as Text>::empty(), value); count]?)
}

#[derive(Drop)]
pub struct Recorder {
    spans: Vec<Span<ShortText>>,
    span_meta: Vec<(ShortText, ShortText)>,
    span_metrics: Vec<(ShortText, u64)>,
    segments: Vec<Segment<ShortText>>,
    segment_meta: Vec<(ShortText, ShortText)>,
    segment_metrics: Vec<(ShortText, u64)>,
    strings: Vec<Option<ShortText>>,
    defaults: Vec<(ShortText, ShortText)>,
    settings: Settings<ShortText>,
    by_id: HashedIndex,
    by_segment: SmallSegmentMap,
}

impl Recorder {
    // A recorder that is not set up yet, with a hashed index of twice as many places as there are span records, as far
    // as that goes.
    pub fn new(heap: Global, sizes: Sizes) -> Result<Recorder, BadScript> {
        let none = <ShortText as Text>::empty();
        let places = sizes.spans.saturating_mul(2).clamp(1, 65536);
        Ok(Recorder {
            spans: (0..sizes.spans).map(|_| blank_span()).collect(heap)?,
            span_meta: rows(heap, sizes.spans, span::TEXT_ROW, none)?,
            span_metrics: rows(heap, sizes.spans, span::NUMBER_ROW, 0)?,
            segments: (0..sizes.segments).map(|_| blank_segment()).collect(heap)?,
            segment_meta: rows(heap, sizes.segments, segment::TEXT_ROW, none)?,
            segment_metrics: rows(heap, sizes.segments, segment::NUMBER_ROW, 0)?,
            strings: vec![in heap; None; sizes.strings]?,
            defaults: rows(heap, 1, MOST_DEFAULTS, none)?,
            settings: Settings {
                service: none,
                language: none,
                pid: 0,
                defaults: 0,
                next_free: 0,
            },
            by_id: HashedIndex::new(heap, places).map_err(|_| BadScript::TooLarge)?,
            by_segment: SmallSegmentMap::new(),
        })
    }

    pub fn answer(&mut self, call: &Call) -> Result<Answer, ChangeBufferError> {
        let tables = &mut Tables {
            spans: self.spans.as_mut_slice(),
            span_meta: self.span_meta.as_mut_slice(),
            span_metrics: self.span_metrics.as_mut_slice(),
            segment_meta: self.segment_meta.as_mut_slice(),
            segment_metrics: self.segment_metrics.as_mut_slice(),
            strings: self.strings.as_mut_slice(),
            defaults: self.defaults.as_mut_slice(),
        };
        let segments = self.segments.as_mut_slice();
        let settings = &mut self.settings;
        let by_id = &mut self.by_id;
        let by_segment = &mut self.by_segment;
        match call {
            Call::SetUp {
                service,
                language,
                pid,
                ..
            } => set_up(
                tables, segments, settings, by_id, by_segment, *service, *language, *pid,
            )?,
            Call::StringInsert(key, text) => {
                string_table_insert_one(tables, segments, settings, by_id, by_segment, *key, *text)?
            }
            Call::StringEvict(key) => {
                string_table_evict_one(tables, segments, settings, by_id, by_segment, *key)?
            }
            Call::Defaults(pairs) => {
                let pairs = pairs.as_slice();
                set_default_meta(tables, segments, settings, by_id, by_segment, pairs)?
            }
            Call::Decisions(id, decisions) => {
                set_decisions(
                    tables, segments, settings, by_id, by_segment, *id, *decisions,
                )?
            }
            Call::Span(id) => {
                let number = get_span(tables, segments, settings, by_id, by_segment, *id)?;
                return Ok(Answer::Record(Some(number)));
            }
            Call::Segment(id) => {
                let number = get_segment(tables, segments, settings, by_id, by_segment, *id)?;
                return Ok(Answer::Record(number));
            }
            Call::Handed(number) => {
                get_handed(tables, segments, settings, by_id, by_segment, *number)?;
                return Ok(Answer::HandedOut);
            }
            Call::Numbers => {
                let (live, handed_out, free) = get_numbers(
                    tables, segments, settings, by_id, by_segment,
                )?;
                return Ok(Answer::Numbers(live, handed_out, free));
            }
        }
        Ok(Answer::Accepted)
    }
}
