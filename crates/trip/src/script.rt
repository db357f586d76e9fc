// A script: one call a line, its name first and then its words. Comments go from '#' to the line's end.
use std::alloc::{AllocError, Global};
use std::str::{FromStr, Lines, SplitWhitespace};
use std::{fmt, io};
use tables::segment::Decisions;
use texts::short::ShortText;
use thiserror::Error;

#[derive(Drop)]
pub enum Call {
    SetUp {
        service: ShortText,
        language: ShortText,
        pid: u32,
        sizes: Sizes,
    },
    StringInsert(u32, ShortText),
    StringEvict(u32),
    Defaults(Vec<(ShortText, ShortText)>),
    Decisions(u64, Decisions),
    Span(u64),
    Segment(u64),
    Handed(usize),
    Numbers,
}

// How many span records, segment records and strings the tables have.
#[derive(Clone, Copy, PartialEq, Eq, Debug)]
pub struct Sizes {
    pub spans: usize,
    pub segments: usize,
    pub strings: usize,
}

// A call with the line that says it, which is printed with the answer.
#[derive(Drop)]
pub struct Line<'a> {
    pub number: usize,
    pub text: &'a str,
    pub call: Call,
}

// Calls of which the first, and no other, is a set-up; the sizes are those that it names. The text is kept and not its calls,
// which take more memory than their lines: a call is read again when it is made.
#[derive(Drop)]
pub struct Script<'a> {
    pub sizes: Sizes,
    text: &'a str,
}

// A word that a call takes.
#[derive(Clone, Copy, PartialEq, Eq, Debug)]
pub enum Part {
    Service,
    Language,
    ProcessId,
    SpanRecords,
    Segments,
    Strings,
    StringNumber,
    Text,
    Pair,
    Key,
    Value,
    SegmentId,
    Rule,
    Limit,
    Agent,
    SpanId,
    RecordNumber,
}

impl fmt::Display for Part {
    fn fmt<W: fmt::Write>(&self, f: &mut fmt::Formatter<W>) -> fmt::Result {
        f.write_str(match self {
            Part::Service => "the service",
            Part::Language => "the language",
            Part::ProcessId => "the process id",
            Part::SpanRecords => "the number of span records",
            Part::Segments => "the number of segments",
            Part::Strings => "the number of strings",
            Part::StringNumber => "the string's number",
            Part::Text => "the text",
            Part::Pair => "a pair",
            Part::Key => "a key",
            Part::Value => "a value",
            Part::SegmentId => "the segment's id",
            Part::Rule => "the rule decision",
            Part::Limit => "the limit decision",
            Part::Agent => "the agent decision",
            Part::SpanId => "the span's id",
            Part::RecordNumber => "the record's number",
        })
    }
}

// What is wrong with a line.
#[derive(Debug, Drop, Error)]
pub enum BadLine {
    #[error("no such call; 'trip help' lists them")]
    Unknown,
    #[error("{0} is missing")]
    Missing(Part),
    #[error("{0} is no such number")]
    NoNumber(Part),
    #[error("{0} has more than 64 bytes or no '='")]
    NoText(Part),
    #[error("no memory")]
    Memory(#[from(alloc)] AllocError),
}

// Why a script is not run.
#[derive(Debug, Drop, Error)]
pub enum BadScript {
    #[error("{0}")]
    File(#[from] io::Error),
    #[error("line {0}: {1}")]
    Line(usize, BadLine),
    #[error("the first call has to be a setup")]
    NoSetUp,
    #[error("line {0}: there can be one setup only")]
    SetUpAgain(usize),
    // The tables would have more places than can be counted, or there is no memory for the index.
    #[error("no memory for the tables")]
    TooLarge,
    #[error("no memory for the tables")]
    Memory(#[from(alloc)] AllocError),
}

impl<'a> Script<'a> {
    // All lines are read before any call is made, up to the first that is no call or stands where it must not.
    pub fn parse(heap: Global, text: &'a str) -> Result<Script<'a>, BadScript> {
        let mut sizes = None;
        for (i, line) in text.lines().enumerate() {
            if let Some(line) = Line::parse(heap, i, line)? {
                sizes = Some(sizes_with(sizes, &line)?);
            }
        }
        let sizes = sizes.ok_or(BadScript::NoSetUp)?;
        Ok(Script { sizes, text })
    }

    pub(crate) fn lines(&self) -> Lines<'a> {
        self.text.lines()
    }
}

impl<'a> Line<'a> {
    // The call of the line at a place, none where the line is empty but for a comment.
    pub(crate) fn parse(
        heap: Global,
        place: usize,
        line: &'a str,
    ) -> Result<Option<Line<'a>>, BadScript> {
        let number = place.saturating_add(1);
        let text = line
            .split_once('#')
            .map_or(line, |(before, _)| before)
            .trim();
        if text.is_empty() {
            return Ok(None);
        }
        let call = call_of(heap, text).map_err(|what| BadScript::Line(number, what))?;
        Ok(Some(Line { number, text, call }))
    }
}

// The sizes after one more call: its own where it is the first, which has to be the set-up, and else those found before.
fn sizes_with(found: Option<Sizes>, line: &Line<'_>) -> Result<Sizes, BadScript> {
    match (found, &line.call) {
        (None, Call::SetUp { sizes, .. }) => Ok(*sizes),
        (Some(_), Call::SetUp { .. }) => Err(BadScript::SetUpAgain(line.number)),
        (Some(sizes), _) => Ok(sizes),
        (None, _) => Err(BadScript::NoSetUp),
    }
}

// The call of a line that is not empty, without its comment.
fn call_of(heap: Global, line: &str) -> Result<Call, BadLine> {
    let mut words = line.split_whitespace();
    let name = words.next().ok_or(BadLine::Unknown)?;
    let words = &mut words;
    Ok(match name {
        "setup" => set_up(words)?,
        "string" => Call::StringInsert(
            number(words, Part::StringNumber)?,
            text(words, Part::Text)?,
        ),
        "evict" => Call::StringEvict(number(words, Part::StringNumber)?),
        "defaults" => defaults(heap, words)?,
        "decisions" => Call::Decisions(number(words, Part::SegmentId)?, three_decisions(words)?),
        "span" => Call::Span(number(words, Part::SpanId)?),
        "segment" => Call::Segment(number(words, Part::SegmentId)?),
        "handed" => Call::Handed(number(words, Part::RecordNumber)?),
        "numbers" => Call::Numbers,
        _ => return Err(BadLine::Unknown),
    })
}

fn set_up(words: &mut SplitWhitespace<'_>) -> Result<Call, BadLine> {
    Ok(Call::SetUp {
        service: text(words, Part::Service)?,
        language: text(words, Part::Language)?,
        pid: number(words, Part::ProcessId)?,
        sizes: Sizes {
            spans: number(words, Part::SpanRecords)?,
            segments: number(words, Part::Segments)?,
            strings: number(words, Part::Strings)?,
        },
    })
}

fn defaults(heap: Global, words: &mut SplitWhitespace<'_>) -> Result<Call, BadLine> {
    let mut pairs = Vec::new(heap);
    for word in words {
        let (key, value) = word.split_once('=').ok_or(BadLine::NoText(Part::Pair))?;
        pairs.push((made(key, Part::Key)?, made(value, Part::Value)?))?;
    }
    Ok(Call::Defaults(pairs))
}

fn three_decisions(words: &mut SplitWhitespace<'_>) -> Result<Decisions, BadLine> {
    Ok(Decisions {
        rule: decision(words, Part::Rule)?,
        limit: decision(words, Part::Limit)?,
        agent: decision(words, Part::Agent)?,
    })
}

// The next word, which is this part of the call.
fn word<'a>(words: &mut SplitWhitespace<'a>, part: Part) -> Result<&'a str, BadLine> {
    words.next().ok_or(BadLine::Missing(part))
}

fn number<N: FromStr>(words: &mut SplitWhitespace<'_>, part: Part) -> Result<N, BadLine>
where
    N::Err: Drop,
{
    numbered(word(words, part)?, part)
}

fn numbered<N: FromStr>(word: &str, part: Part) -> Result<N, BadLine>
where
    N::Err: Drop,
{
    word.parse::<N>().map_err(|_| BadLine::NoNumber(part))
}

// A decision, or '-' for none.
fn decision(words: &mut SplitWhitespace<'_>, part: Part) -> Result<Option<f64>, BadLine> {
    match word(words, part)? {
        "-" => Ok(None),
        word => Ok(Some(numbered(word, part)?)),
    }
}

fn text(words: &mut SplitWhitespace<'_>, part: Part) -> Result<ShortText, BadLine> {
    made(word(words, part)?, part)
}

fn made(word: &str, part: Part) -> Result<ShortText, BadLine> {
    ShortText::from_bytes(word.as_bytes()).map_err(|_| BadLine::NoText(part))
}
