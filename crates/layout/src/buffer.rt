// Reads from a change buffer, which another runtime has filled with operations.
ghost use Rattle.std.specs.Prelude.{◌≡◌, min, ◌++◌, length, drop, replicate};
ghost use Rattle.layout.specs.Reads.{Reads, ReadsString, held};

use crate::utils::FromBytes;
use refusals::{ChangeBufferError, Result};

// The bytes of a buffer: a count of operations in the first eight, and the operations.
#[derive(Clone, Copy)]
pub struct ChangeBuffer<'a> {
    bytes: &'a [u8],
}

impl<'a> ChangeBuffer<'a> {
    pub fn new(bytes: &'a [u8]) -> ChangeBuffer<'a>
        ensures value { held result ≡ bytes.now }
    {
        ChangeBuffer { bytes }
    }

    pub fn len(&self) -> usize
        ensures value { result ≡ length (held self.now) }
    {
        self.bytes.len()
    }

    // The value at `index`, which moves past it; it stays where the value does not fit.
    pub fn read<T: FromBytes>(&self, index: &mut usize) -> Result<T>
        ensures cases { Reads T.value T.FROM_BYTES_SIZE (held self.now) index.old index.new result }
    {
        let offset = *index;
        let bytes = offset
            .checked_add(T::FROM_BYTES_SIZE)
            .and_then(|end| self.bytes.get(offset..end))
            .ok_or(ChangeBufferError::ReadOutOfBounds {
                offset,
                value_len: T::FROM_BYTES_SIZE,
                buffer_len: self.len(),
            })?;
        *index = offset + T::FROM_BYTES_SIZE;
        Ok(T::from_bytes(bytes))
    }

    // The string whose number is at `index`, looked up as it is read.
    pub fn read_string<T: Copy>(&self, strings: &[Option<T>], index: &mut usize) -> Result<T>
        ensures cases { ReadsString strings.now (held self.now) index.old index.new result }
    {
        let number: u32 = self.read(index)?;
        strings
            .get(number as usize)
            .copied()
            .flatten()
            .ok_or(ChangeBufferError::StringNotFound(number))
    }
}

// The count becomes 0: eight bytes, or as many as there are. The operations stay.
pub fn clear_count(buffer: &mut [u8])
    ensures after { buffer.new ≡ replicate (min 8 (length buffer.old)) 0 ++ drop 8 buffer.old }
{
    let count = buffer.len().min(8);
    buffer[..count].fill(0);
}
