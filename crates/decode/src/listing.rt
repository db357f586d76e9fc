// The operations of a whole change buffer, up to its count or to a refusal.
ghost use Rattle.decode.specs.Operations.{Lists};
ghost use Rattle.decode.specs.Runs.{Bytes};

use crate::error::DecodeError;
use crate::operation::{Operation, read_operation};
use layout::buffer::ChangeBuffer;
use refusals::ChangeBufferError;
use std::alloc::Global;

#[derive(Drop)]
pub struct Listing {
    // The count that is used.
    pub count: u32,
    pub operations: Vec<Operation>,
    // How many bytes are left once all were read, or why the next one is refused.
    pub ending: Result<usize, ChangeBufferError>,
}

impl Listing {
    pub fn read(heap: Global, bytes: &[u8]) -> Result<Listing, DecodeError>
        ensures cases { Lists bytes.now result }
        ensures bound { Bytes bytes.now }
    {
        let buffer = ChangeBuffer::new(bytes);
        let mut index = 0;
        let number: u64 = buffer.read(&mut index)?;
        let count = (number & 0xffff_ffff) as u32;
        let mut operations = Vec::new(heap);
        for _ in 0..count {
            match read_operation(heap, &buffer, &mut index) {
                Ok(operation) => operations.push(operation)?,
                Err(DecodeError::Refused(fault)) => {
                    return Ok(Listing {
                        count,
                        operations,
                        ending: Err(fault),
                    });
                }
                Err(DecodeError::Memory) => return Err(DecodeError::Memory),
            }
        }
        Ok(Listing {
            count,
            operations,
            ending: Ok(bytes.len() - index),
        })
    }
}
