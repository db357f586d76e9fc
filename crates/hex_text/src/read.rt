// Reading hexadecimal text: blanks are free between bytes, `#` starts a comment to the line's end,
// and a byte is two digits of either case that stand together.
ghost use Rattle.std.specs.Prelude.{◌≡◌, ℕ, List, ◌∷◌};
ghost use Rattle.hex_text.specs.Grammar.{Bytes, Gives, Says, written};
ghost use Rattle.hex_text.specs.Steps.{Small, Sound, goes};
ghost use Rattle.hex_text.specs.Texts.{Reads, mark, reading};

use crate::error::HexError;
use crate::position::Position;
use std::alloc::Global;

// What a byte of the text is, looked at alone.
#[derive(Clone, Copy, PartialEq, Eq, Debug)]
enum Mark {
    Blank,
    Newline,
    Hash,
    Digit(u8),
    Other,
}

// Where the reader stands between two bytes. A closure for each state would be no plainer than a value and `step`.
#[derive(Clone, Copy, PartialEq, Eq, Debug)]
enum Mode {
    Outside,
    Comment,
    // After the first digit of a byte.
    First(u8),
}

// What the reader does at a byte of the text. No `Result`: both faults take their places from the whole text.
#[derive(Clone, Copy, PartialEq, Eq, Debug)]
enum Step {
    To(Mode),
    Byte(u8),
    Odd,
    Unknown,
}

// The bytes that a text says, or the first thing that is wrong with it.
pub fn read_hex(heap: Global, text: &[u8]) -> Result<Vec<u8>, HexError>
    ensures cases { Reads text.now result }
    ensures succeeds { (bs : List ℕ) → Says text.now bs → Gives bs result }
    ensures back { (bs : List ℕ) → Bytes bs → text.now ≡ written bs → Gives bs result }
{
    let mut bytes = Vec::new(heap);
    let mut mode = Mode::Outside;
    for (offset, byte) in text.iter().enumerate() {
        match mode.step(*byte) {
            Step::To(next) => mode = next,
            Step::Byte(value) => {
                bytes.push(value)?;
                mode = Mode::Outside;
            }
            Step::Odd => return Err(HexError::Odd(Position::of(text, offset - 1))),
            Step::Unknown => return Err(HexError::Unknown(*byte, Position::of(text, offset))),
        }
    }
    match mode {
        Mode::First(_) => Err(HexError::Odd(Position::of(text, text.len() - 1))),
        Mode::Outside | Mode::Comment => Ok(bytes),
    }
}

impl Mode {
    fn step(self, byte: u8) -> Step
        requires { Small self }
        ensures bound { Sound self result }
        ensures value { (rest : List ℕ) → reading self (byte ∷ rest) ≡ goes result byte rest }
    {
        match (self, Mark::of(byte)) {
            (Mode::Comment, Mark::Newline) => Step::To(Mode::Outside),
            (Mode::Comment, _) => Step::To(Mode::Comment),
            (Mode::Outside, Mark::Blank | Mark::Newline) => Step::To(Mode::Outside),
            (Mode::Outside, Mark::Hash) => Step::To(Mode::Comment),
            (Mode::Outside, Mark::Digit(high)) => Step::To(Mode::First(high)),
            (Mode::Outside, Mark::Other) => Step::Unknown,
            (Mode::First(high), Mark::Digit(low)) => Step::Byte(16 * high + low),
            (Mode::First(_), _) => Step::Odd,
        }
    }
}

impl Mark {
    fn of(byte: u8) -> Mark
        ensures value { result ≡ mark byte }
    {
        match byte {
            b'\n' => Mark::Newline,
            b' ' | b'\t' | b'\r' => Mark::Blank,
            b'#' => Mark::Hash,
            _ => match char::from(byte).to_digit(16) {
                Some(digit) => Mark::Digit(digit as u8),
                None => Mark::Other,
            },
        }
    }
}
