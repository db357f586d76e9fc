// Why an operation could not be read.
ghost use Rattle.std.specs.Prelude.{◌≡◌, Some};
ghost use Rattle.decode.specs.Faults.{fault_words};
ghost use Rattle.decode.specs.declared.error.DecodeError.TheVariants as case;

use refusals::ChangeBufferError;
use std::alloc::{AllocError, AllocFailed};
use std::error::Error;
use std::fmt;

#[derive(Clone, Copy, PartialEq, Eq, Debug)]
pub enum DecodeError {
    // The buffer's own refusal, unchanged.
    Refused(ChangeBufferError),
    Memory,
}

// This and what follows by hand: a `From` and the words that `thiserror` derives stand in no contract.
impl From<ChangeBufferError> for DecodeError {
    ghost from_gives = { λ e r. r ≡ case.Refused e };

    fn from(e: ChangeBufferError) -> DecodeError {
        DecodeError::Refused(e)
    }
}

impl From<AllocError> for DecodeError {
    ghost from_gives = { λ _ r. r ≡ case.Memory };

    fn from(_e: AllocError) -> DecodeError {
        DecodeError::Memory
    }
}

impl<T: Drop> From<AllocFailed<T>> for DecodeError {
    ghost from_gives = { λ _ r. r ≡ case.Memory };

    fn from(_e: AllocFailed<T>) -> DecodeError {
        DecodeError::Memory
    }
}

impl fmt::Display for DecodeError {
    ghost output = { λ e. Some (fault_words e) };

    fn fmt<W: fmt::Write>(&self, f: &mut fmt::Formatter<W>) -> fmt::Result {
        match self {
            DecodeError::Refused(fault) => write!(f, "refused: {fault}"),
            DecodeError::Memory => write!(f, "no memory for the operations"),
        }
    }
}

impl Error for DecodeError {}
