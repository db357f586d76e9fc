// The questions: they are lent all tables and both indexes, and change nothing.
#![tactic(auto)]

ghost use Rattle.std.specs.Prelude.{◌≡◌, ◌+◌, ◌<◌, length, IfOk, Ok, OnOk, count_by};
ghost use Rattle.index.specs.Held.{at};
ghost use Rattle.book.specs.Calls.{get_span, get_segment, get_handed, get_numbers};
ghost use Rattle.tables.specs.Lent.{passed};
ghost use Rattle.tables.specs.Store.{live, standing_key, tally};
ghost use Rattle.questions.specs.Questions.{Answers, LiveRecord, OneSegment, OneSpan, RecordOf, ThreeNumbers, handed_at, handed_number, live_number, marked, tallies};

use index::Index;
use refusals::ChangeBufferError;
use tables::order::check_order;
use tables::segment::Segment;
use tables::settings::Settings;
use tables::span::{Mark, Span};
use tables::tables::Tables;
use texts::Text;

// The number of the record of a live span, by which it is read; refused (7) where the id is not live.
pub fn get_span<T: Text, S: Index, G: Index>(
    tables: &Tables<'_, T>,
    segments: &[Segment<T>],
    settings: &Settings<T>,
    by_id: &S,
    by_segment: &G,
    id: u64,
) -> refusals::Result<usize>
    ensures answer { Answers T.bytes
        (get_span id) (live_number id (S.content by_id.now).held) (OneSpan T.bytes)
        (passed tables.now segments.now settings.now (S.content by_id.now) (G.content by_segment.now))
        result }
    ensures cases { LiveRecord tables.now.spans.now id result }
{
    check_order(tables, segments, settings, by_id, by_segment)?;
    by_id.find(id).ok_or(ChangeBufferError::SpanNotFound(id))
}

// The number of the record of a segment, none where it does not stand.
pub fn get_segment<T: Text, S: Index, G: Index>(
    tables: &Tables<'_, T>,
    segments: &[Segment<T>],
    settings: &Settings<T>,
    by_id: &S,
    by_segment: &G,
    id: u64,
) -> refusals::Result<Option<usize>>
    ensures answer { Answers T.bytes
        (get_segment id) (Ok (at (G.content by_segment.now).held id)) (OneSegment T.bytes)
        (passed tables.now segments.now settings.now (S.content by_id.now) (G.content by_segment.now))
        result }
    ensures cases { IfOk result (RecordOf standing_key segments.now id) }
{
    check_order(tables, segments, settings, by_id, by_segment)?;
    Ok(by_segment.find(id))
}

// Accepts the number of a handed-out record, by which its span is read; refused (5) where the number names none.
pub fn get_handed<T: Text, S: Index, G: Index>(
    tables: &Tables<'_, T>,
    segments: &[Segment<T>],
    settings: &Settings<T>,
    by_id: &S,
    by_segment: &G,
    number: usize,
) -> refusals::Result<()>
    ensures answer { Answers T.bytes
        (get_handed number) (handed_number number tables.now.spans.now) (λ m _. OneSpan T.bytes m number)
        (passed tables.now segments.now settings.now (S.content by_id.now) (G.content by_segment.now))
        result }
    ensures within { OnOk result (number < length tables.now.spans.now) }
{
    check_order(tables, segments, settings, by_id, by_segment)?;
    if is_handed_out(tables.spans, number) {
        Ok(())
    } else {
        Err(ChangeBufferError::NotHandedOut(number))
    }
}

fn is_handed_out<T: Text>(spans: &[Span<T>], number: usize) -> bool
    ensures { result ≡ handed_at spans.now number }
{
    spans
        .get(number)
        .is_some_and(|span| span.mark == Mark::HandedOut)
}

// How many spans are live and how many are handed out, and how many records are free.
pub fn get_numbers<T: Text, S: Index, G: Index>(
    tables: &Tables<'_, T>,
    segments: &[Segment<T>],
    settings: &Settings<T>,
    by_id: &S,
    by_segment: &G,
) -> refusals::Result<(usize, usize, usize)>
    ensures answer { Answers T.bytes
        get_numbers (Ok (tallies tables.now.spans.now)) ThreeNumbers
        (passed tables.now segments.now settings.now (S.content by_id.now) (G.content by_segment.now))
        result }
    ensures len { IfOk result (λ n. n.0 + n.1 + n.2 ≡ length tables.now.spans.now) }
{
    check_order(tables, segments, settings, by_id, by_segment)?;
    Ok(count_marks(tables.spans, by_id.count()))
}

// A tuple of three counts: the fixed form of this answer. The live records are as many as the index holds, and what is neither
// live nor handed out is free, so the records are gone over once.
fn count_marks<T: Text>(spans: &[Span<T>], held: usize) -> (usize, usize, usize)
    requires { held ≡ tally live spans.now }
    ensures { result ≡ tallies spans.now }
{
    let handed_out = count_of(spans, Mark::HandedOut);
    (held, handed_out, spans.len() - held - handed_out)
}

fn count_of<T: Text>(spans: &[Span<T>], mark: Mark) -> usize
    ensures { result ≡ count_by (λ x. marked mark x) spans.now }
{
    spans.iter().filter(|span| span.mark == mark).count()
}
