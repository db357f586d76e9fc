// The record of a live span, kept for as long as operations go on about the same one.
ghost use Rattle.std.specs.Prelude.{◌≡◌, ℕ, ◌<◌, length};
ghost use Rattle.flush.specs.Found.{Cached, Finds, SegmentAt};

use index::Index;
use index::entry::Entry;
use refusals::{ChangeBufferError, Result};
use tables::span::Span;
use texts::Text;

// Looks into the index only where another span was found last.
pub fn find_span<S: Index>(by_id: &S, last: &mut Option<Entry>, id: u64) -> Result<Entry>
    requires cached { Cached (S.content by_id.now).held last.old }
    ensures cached { Cached (S.content by_id.now).held last.new }
    ensures finds { Finds (S.content by_id.now).held id result }
{
    match *last {
        Some(found) if found.id == id => Ok(found),
        _ => {
            let number = by_id.find(id).ok_or(ChangeBufferError::SpanNotFound(id))?;
            let found = Entry { id, number };
            *last = Some(found);
            Ok(found)
        }
    }
}

// The id of a span's segment.
pub fn segment_of<T: Text>(spans: &[Span<T>], found: Entry) -> u64
    requires { found.number < length spans.now }
    ensures { SegmentAt spans.now found.number result }
{
    spans[found.number].segment
}
