// Cases of the recorder: a call on tables that are in order, and on tables that are out of order in one way each.
// Each case is a test with a name of its own; what they share stands in `unindexed` and `refused`.
use index::Index;
use layout::utils::TraceId;
use recorder::strings::string_table_insert_one;
use refusals::ChangeBufferError;
use small_index::segment::SmallSegmentMap;
use tables::segment::Segment;
use tables::settings::Settings;
use tables::span::{Mark, Span};
use tables::tables::Tables;
use texts::Text;
use texts::listed::ListedText;
use vec_map::head::Head;

fn span(mark: Mark, id: u64) -> Span<ListedText> {
    let none = <ListedText as Text>::empty();
    Span {
        mark,
        id,
        segment: 0,
        meta: Head::default(),
        metrics: Head::default(),
        trace: TraceId::default(),
        parent: 0,
        start: 0,
        duration: 0,
        error: 0,
        service: none,
        name: none,
        resource: none,
        kind: none,
    }
}

fn segment(id: u64, count: u32) -> Segment<ListedText> {
    Segment {
        id,
        count,
        meta: Head::default(),
        metrics: Head::default(),
        origin: None,
        rule: None,
        limit: None,
        agent: None,
    }
}

// The records of two spans and one segment, and their indexes.
#[derive(Drop)]
struct Records<S> {
    spans: [Span<ListedText>; 2],
    segments: [Segment<ListedText>; 1],
    by_id: S,
    by_segment: SmallSegmentMap,
}

// The records with empty indexes.
fn unindexed(
    spans: [Span<ListedText>; 2],
    segment: Segment<ListedText>,
) -> Records<SmallSegmentMap> {
    Records {
        spans,
        segments: [segment],
        by_id: SmallSegmentMap::new(),
        by_segment: SmallSegmentMap::new(),
    }
}

// The answer of a string insert over these records, and whether the string table is as it was.
fn tried<S: Index>(records: &mut Records<S>) -> (Result<(), ChangeBufferError>, bool) {
    let none = <ListedText as Text>::empty();
    let mut strings = [None; 4];
    let mut settings = Settings {
        service: none,
        language: none,
        pid: 1,
        defaults: 0,
        next_free: 0,
    };
    let mut tables = Tables {
        spans: &mut records.spans,
        span_meta: &mut [(none, none); 198],
        span_metrics: &mut [(none, 0u64); 108],
        segment_meta: &mut [(none, none); 32],
        segment_metrics: &mut [(none, 0u64); 16],
        strings: &mut strings,
        defaults: &mut [(none, none); 32],
    };
    let answer = string_table_insert_one(
        &mut tables,
        &mut records.segments,
        &mut settings,
        &mut records.by_id,
        &mut records.by_segment,
        3,
        <ListedText as Text>::from_static_str("kind"),
    );
    (answer, strings[3].is_none())
}

#[cfg(test)]
mod tests {
    use super::*;
    use hashed_index::hashed::HashedIndex;
    use std::process::Abort;
    use std::test::Fail;

    fn refused<S: Index + Drop>(rt: &impl Abort, mut records: Records<S>) -> Result<(), Fail> {
        match tried(&mut records) {
            (Ok(()), _) => Err(Fail::new("accepted")),
            (Err(refusal), same) => {
                assert_eq!(rt; refusal.number(), 1);
                assert!(rt; same);
                Ok(())
            },
        }
    }

    #[test]
    fn in_order(rt: HostRuntime) {
        let spans = [span(Mark::Live, 5), span(Mark::HandedOut, 5)];
        let mut records = unindexed(spans, segment(1, 1));
        let _ = records.by_id.put(5, 0);
        let _ = records.by_segment.put(1, 0);
        let (answer, same) = tried(&mut records);
        assert!(rt; answer.is_ok());
        assert!(rt; !same);
    }

    #[test]
    fn a_live_record_is_missing_in_the_index(rt: HostRuntime) -> Result<(), Fail> {
        let spans = [span(Mark::Live, 5), span(Mark::Free, 0)];
        refused(&rt, unindexed(spans, segment(1, 0)))
    }

    #[test]
    fn the_index_names_a_free_record(rt: HostRuntime) -> Result<(), Fail> {
        let spans = [span(Mark::Free, 5), span(Mark::Free, 0)];
        let mut records = unindexed(spans, segment(1, 0));
        let _ = records.by_id.put(5, 0);
        refused(&rt, records)
    }

    #[test]
    fn two_live_records_have_one_id(rt: HostRuntime) -> Result<(), Fail> {
        let spans = [span(Mark::Live, 5), span(Mark::Live, 5)];
        let mut records = unindexed(spans, segment(1, 0));
        let _ = records.by_id.put(5, 0);
        refused(&rt, records)
    }

    #[test]
    fn a_standing_segment_counts_0(rt: HostRuntime) -> Result<(), Fail> {
        let spans = [span(Mark::Free, 0), span(Mark::Free, 0)];
        let mut records = unindexed(spans, segment(1, 0));
        let _ = records.by_segment.put(1, 0);
        refused(&rt, records)
    }

    #[test]
    fn a_row_counts_past_its_limit(rt: HostRuntime) -> Result<(), Fail> {
        let mut long = span(Mark::Live, 5);
        long.meta.count = 65;
        let mut records = unindexed([long, span(Mark::Free, 0)], segment(1, 0));
        let _ = records.by_id.put(5, 0);
        refused(&rt, records)
    }

    #[test]
    fn an_index_has_too_little_room(rt: HostRuntime) -> Result<(), Fail> {
        match HashedIndex::new(rt.alloc(), 1) {
            Ok(by_id) => {
                let records = Records {
                    spans: [span(Mark::Free, 0), span(Mark::Free, 0)],
                    segments: [segment(1, 0)],
                    by_id,
                    by_segment: SmallSegmentMap::new(),
                };
                refused(&rt, records)
            },
            Err(_) => Err(Fail::new("no memory")),
        }
    }
}
