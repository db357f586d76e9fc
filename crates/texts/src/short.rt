// Short text: up to 64 bytes, which the text holds itself.
ghost use Rattle.std.specs.Prelude.{◌≡◌, ℕ, ◌<◌, ◌≤◌, List, length, take, MatchResult};
ghost use Rattle.texts.specs.Refused.{told};
ghost use Rattle.texts.specs.Few.{short-few};

use crate::Text;
use crate::bytes::{byte_of, same_bytes};
use crate::error::NoSuchText;

// An array with a count, since no text is on a heap; no `==` is derived, since the bytes past the count may differ.
#[derive(Clone, Copy)]
pub struct ShortText {
    held: [u8; 64],
    count: usize,
    ghost within: { count ≤ 64 },
}

impl ShortText {
    // The text of these bytes, refused where they are more than 64.
    pub fn from_bytes(bytes: &[u8]) -> Result<ShortText, NoSuchText>
        ensures { MatchResult result (λ t. take t.count t.held ≡ bytes.now) (λ e. (told e ≡ (15, List.[])) × (64 < length bytes.now)) }
    {
        if bytes.len() > 64 {
            return Err(NoSuchText);
        }
        Ok(ShortText::holding(bytes))
    }

    fn holding(bytes: &[u8]) -> ShortText
        requires { length bytes.now ≤ 64 }
        ensures { take result.count result.held ≡ bytes.now }
    {
        let mut held = [0; 64];
        held[..bytes.len()].copy_from_slice(bytes);
        ShortText {
            held,
            count: bytes.len(),
        }
    }

    fn as_bytes(&self) -> &[u8]
        ensures { result.now ≡ take self.now.count self.now.held }
    {
        &self.held[..self.count]
    }
}

impl Text for ShortText {
    ghost bytes = { λ t. take t.count t.held };

    ghost few = { λ t. short-few t.count t.held t.within };

    fn empty() -> ShortText {
        ShortText {
            held: [0; 64],
            count: 0,
        }
    }

    // The words stand here as literals, in each kind of text: a fixed form of this project.
    fn from_static_str(word: &'static str) -> ShortText {
        match word {
            "_dd.top_level"
            | "_dd.measured"
            | "_dd.base_service"
            | "language"
            | "process_id"
            | "_dd.origin"
            | "_dd.rule_psr"
            | "_dd.limit_psr"
            | "_dd.agent_psr"
            | "internal"
            | "kind" => { ShortText::holding(word.as_bytes()) }
            _ => Self::empty(),
        }
    }

    fn len(&self) -> usize {
        self.count
    }

    // Each kind has the five functions itself: a rule of this project.
    fn byte_at(&self, place: usize) -> Option<u8> {
        byte_of(self.as_bytes(), place)
    }

    fn same(&self, other: &ShortText) -> bool {
        same_bytes(self.as_bytes(), other.as_bytes())
    }
}
