// Listed text: a number into a list of words without repeats.
ghost use Rattle.std.specs.Prelude.{◌≡◌, ℕ, ◌<◌, List, MatchResult, slice_index_or};
ghost use Rattle.texts.specs.Refused.{told};
ghost use Rattle.texts.specs.Few.{listed-few};
ghost use Rattle.texts.specs.Words.{OnList, listed_words};

use crate::Text;
use crate::bytes::byte_of;
use crate::error::NoSuchText;

#[derive(Clone, Copy, PartialEq, Eq, Debug)]
pub struct ListedText {
    // A rule of this project: a number into the list.
    number: u8,
    ghost known: { number < 18 },
}

const WORDS: [&[u8]; 18] = [
    b"",
    b"_dd.top_level",
    b"_dd.measured",
    b"_dd.base_service",
    b"language",
    b"process_id",
    b"_dd.origin",
    b"_dd.rule_psr",
    b"_dd.limit_psr",
    b"_dd.agent_psr",
    b"internal",
    b"kind",
    b"sorter",
    b"belt",
    b"scan",
    b"divert",
    b"chute",
    b"arm",
];

impl ListedText {
    // The text of these bytes, refused where they are not on the list.
    pub fn from_bytes(bytes: &[u8]) -> Result<ListedText, NoSuchText>
        ensures { MatchResult result (λ t. slice_index_or listed_words t.number List.[] ≡ bytes.now) (λ e. (told e ≡ (15, List.[])) × (OnList bytes.now → ⊥)) }
    {
        let number = WORDS
            .iter()
            .position(|word| *word == bytes)
            .ok_or(NoSuchText)?;
        Ok(ListedText {
            number: number as u8,
        })
    }

    fn word(&self) -> &'static [u8]
        ensures { result.now ≡ slice_index_or listed_words self.now.number List.[] }
    {
        WORDS[self.number as usize]
    }
}

impl Text for ListedText {
    ghost bytes = { λ t. slice_index_or listed_words t.number List.[] };

    ghost few = { λ t. listed-few t.number };

    fn empty() -> ListedText {
        ListedText { number: 0 }
    }

    // The words stand here as literals, in each kind of text: a fixed form of this project.
    fn from_static_str(word: &'static str) -> ListedText {
        let number = match word {
            "_dd.top_level" => 1,
            "_dd.measured" => 2,
            "_dd.base_service" => 3,
            "language" => 4,
            "process_id" => 5,
            "_dd.origin" => 6,
            "_dd.rule_psr" => 7,
            "_dd.limit_psr" => 8,
            "_dd.agent_psr" => 9,
            "internal" => 10,
            "kind" => 11,
            _ => 0,
        };
        ListedText { number }
    }

    fn len(&self) -> usize {
        self.word().len()
    }

    // Each kind has the five functions itself: a rule of this project.
    fn byte_at(&self, place: usize) -> Option<u8> {
        byte_of(self.word(), place)
    }

    fn same(&self, other: &ListedText) -> bool {
        self == other
    }
}
