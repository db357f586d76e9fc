// Places in a text as a person counts them: lines and columns, both from 1.
ghost use Rattle.std.specs.Prelude.{◌≡◌, Some};
ghost use Rattle.hex_text.specs.Places.{place, place_words};

use std::fmt;

#[derive(Clone, Copy, PartialEq, Eq, Debug)]
pub struct Position {
    pub line: usize,
    pub column: usize,
}

impl Position {
    // The position of the byte at `offset`, or of the text's end where there is none.
    pub fn of(text: &[u8], offset: usize) -> Position
        ensures value { result ≡ place text.now offset }
    {
        let before = &text[..offset.min(text.len())];
        let newlines = before.iter().filter(|byte| **byte == b'\n').count();
        let since = before
            .iter()
            .rev()
            .take_while(|byte| **byte != b'\n')
            .count();
        Position {
            line: 1 + newlines,
            column: 1 + since,
        }
    }
}

impl fmt::Display for Position {
    ghost output = { λ p. Some (place_words p) };

    fn fmt<W: fmt::Write>(&self, f: &mut fmt::Formatter<W>) -> fmt::Result {
        let Position { line, column } = self;
        write!(f, "line {line}, column {column}")
    }
}
