// What can be wrong with a hexadecimal text, in plain words.
ghost use Rattle.std.specs.Prelude.{◌≡◌, Some};
ghost use Rattle.hex_text.specs.declared.error.HexError.TheVariants.{Memory as no-memory};
ghost use Rattle.hex_text.specs.Places.{said};

use crate::position::Position;
use std::alloc::{AllocError, AllocFailed};
use std::error::Error;
use std::fmt;

#[derive(Clone, Copy, PartialEq, Eq, Debug)]
pub enum HexError {
    // A digit without a second digit directly after it.
    Odd(Position),
    // A byte that is no digit, no blank and no comment.
    Unknown(u8, Position),
    Memory,
}

// This and what follows by hand: a `From` and the words that `thiserror` derives stand in no contract.
impl From<AllocError> for HexError {
    ghost from_gives = { λ _ r. r ≡ no-memory };

    fn from(_e: AllocError) -> HexError {
        HexError::Memory
    }
}

impl<T: Drop> From<AllocFailed<T>> for HexError {
    ghost from_gives = { λ _ r. r ≡ no-memory };

    fn from(_e: AllocFailed<T>) -> HexError {
        HexError::Memory
    }
}

impl fmt::Display for HexError {
    ghost output = { λ e. Some (said e) };

    fn fmt<W: fmt::Write>(&self, f: &mut fmt::Formatter<W>) -> fmt::Result {
        match self {
            HexError::Odd(at) => write!(f, "{at}: a hexadecimal digit without its pair"),
            HexError::Unknown(byte, at) => {
                if byte.is_ascii_graphic() {
                    let character = char::from(*byte);
                    write!(f, "{at}: '{character}' is no hexadecimal digit")
                } else {
                    write!(f, "{at}: byte {byte} is no hexadecimal digit")
                }
            }
            HexError::Memory => write!(f, "no memory for the bytes"),
        }
    }
}

impl Error for HexError {}
