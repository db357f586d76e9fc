// The refusals of the recorder: each with its number and its values.
#![tactic(auto)]

ghost use Rattle.std.specs.Prelude.{◌≡◌, Some};
ghost use Rattle.refusals.specs.Told.{said, told};

use std::error::Error;
use std::fmt;

pub type Result<T> = std::result::Result<T, ChangeBufferError>;

#[derive(Clone, Copy, PartialEq, Eq, Debug)]
pub enum ChangeBufferError {
    // The tables are not in order; at set-up, their lengths or the indexes' capacities.
    OutOfOrder,
    // More than 32 default pairs.
    TooManyDefaults,
    // A string's number is not below the length of the table.
    KeyBeyond,
    // No segment with this id stands.
    NoSegment(u64),
    // The number names no handed-out record, or one that was named before.
    NotHandedOut(usize),
    // The number list is shorter than the ids.
    ListShort,
    // No span with this id is live.
    SpanNotFound(u64),
    // A read of `value_len` bytes from `offset` on passes the buffer's end.
    ReadOutOfBounds {
        offset: usize,
        value_len: usize,
        buffer_len: usize,
    },
    UnknownOpcode(u32),
    // The string table has no string of this number.
    StringNotFound(u32),
    // No record is free for a span with this id.
    NoRecord(u64),
    // No place is free for a segment with this id, or its count cannot grow.
    NoSegmentRecord(u64),
    // The row of a span or a segment with this id has no place for one more pair.
    RowFull(u64),
}

impl ChangeBufferError {
    // The number of the question that was answered no, which the rules of the recorder give.
    pub fn number(&self) -> u32
        ensures value { result ≡ (told self.now).0 }
    {
        match self {
            ChangeBufferError::OutOfOrder => 1,
            ChangeBufferError::TooManyDefaults => 2,
            ChangeBufferError::KeyBeyond => 3,
            ChangeBufferError::NoSegment(_) => 4,
            ChangeBufferError::NotHandedOut(_) => 5,
            ChangeBufferError::ListShort => 6,
            ChangeBufferError::SpanNotFound(_) => 7,
            ChangeBufferError::ReadOutOfBounds { .. } => 8,
            ChangeBufferError::UnknownOpcode(_) => 9,
            ChangeBufferError::StringNotFound(_) => 10,
            ChangeBufferError::NoRecord(_) => 11,
            ChangeBufferError::NoSegmentRecord(_) => 12,
            ChangeBufferError::RowFull(_) => 13,
        }
    }
}

// By hand: the words that `thiserror` derives stand in no contract.
impl fmt::Display for ChangeBufferError {
    ghost output = { λ e. Some (said e) };

    fn fmt<W: fmt::Write>(&self, f: &mut fmt::Formatter<W>) -> fmt::Result {
        match self {
            ChangeBufferError::OutOfOrder => write!(f, "1 OutOfOrder"),
            ChangeBufferError::TooManyDefaults => write!(f, "2 TooManyDefaults"),
            ChangeBufferError::KeyBeyond => write!(f, "3 KeyBeyond"),
            ChangeBufferError::NoSegment(segment) => write!(f, "4 NoSegment: segment {segment}"),
            ChangeBufferError::NotHandedOut(record) => write!(f, "5 NotHandedOut: record {record}"),
            ChangeBufferError::ListShort => write!(f, "6 ListShort"),
            ChangeBufferError::SpanNotFound(span) => write!(f, "7 SpanNotFound: span {span}"),
            ChangeBufferError::ReadOutOfBounds {
                offset,
                value_len,
                buffer_len,
            } => {
                write!(
                    f,
                    "8 ReadOutOfBounds: offset {offset}, size {value_len}, length {buffer_len}"
                )
            }
            ChangeBufferError::UnknownOpcode(opcode) => write!(
                f,
                "9 UnknownOpcode: opcode {opcode}"
            ),
            ChangeBufferError::StringNotFound(string) => write!(
                f,
                "10 StringNotFound: string {string}"
            ),
            ChangeBufferError::NoRecord(span) => write!(f, "11 NoRecord: span {span}"),
            ChangeBufferError::NoSegmentRecord(segment) => write!(
                f,
                "12 NoSegmentRecord: segment {segment}"
            ),
            ChangeBufferError::RowFull(id) => write!(f, "13 RowFull: span or segment {id}"),
        }
    }
}

impl Error for ChangeBufferError {}
