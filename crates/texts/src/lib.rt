// Texts: what every kind of text can do, by its bytes, and two kinds of it.
#![tactic(auto)]

ghost use Rattle.std.specs.Prelude.{◌≡◌, ℕ, ◌≤◌, List, length, ◌↔◌, IsTrue};
ghost use Rattle.texts.specs.Words.{At, fixed};

pub mod bytes;
pub mod error;
pub mod listed;
pub mod short;

// A text, by its bytes. Asking changes nothing, and a copy means the same bytes.
pub trait Text: Copy {
    ghost bytes: { Self → List ℕ };

    // The text of no bytes.
    fn empty() -> Self
        ensures { bytes result ≡ List.[] };

    // The fixed word that is named, and the empty text for any other word.
    fn from_static_str(word: &'static str) -> Self
        ensures { bytes result ≡ fixed word.now };

    fn len(&self) -> usize
        ensures { result ≡ length (bytes self.now) };

    // The byte at a place, none past the end.
    fn byte_at(&self, place: usize) -> Option<u8>
        ensures { At (bytes self.now) place result };

    // Whether both have the same bytes.
    fn same(&self, other: &Self) -> bool
        ensures { IsTrue result ↔ (bytes self.now ≡ bytes other.now) };

    // A text has at most 255 bytes.
    ghost few: { (t : Self) → length (bytes t) ≤ 255 };
}
