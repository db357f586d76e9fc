// Cases of the layout: short slices, limits of the numbers, reads at the buffer's end, opcodes and the count.
#[cfg(test)]
mod tests {
    use layout::buffer::{ChangeBuffer, clear_count};
    use layout::operation::{BufferedOperation, OpCode};
    use layout::utils::{FromBytes, TraceId};
    use refusals::ChangeBufferError;
    use std::num::f64_to_bits_with_nan;

    #[test]
    fn missing_bytes_count_as_0(rt: HostRuntime) {
        assert_eq!(rt; u16::from_bytes(&[]), 0);
        assert_eq!(rt; u16::from_bytes(&[7]), 7);
        assert_eq!(rt; u32::from_bytes(&[1, 2, 3]), 0x030201);
        assert_eq!(rt; u64::from_bytes(&[255, 255]), 0xffff);
        assert_eq!(rt; i32::from_bytes(&[255, 255]), 0xffff);
        assert_eq!(rt;
            TraceId::from_bytes(&[1, 0, 0, 0, 0, 0, 0, 0, 2]),
            TraceId { low: 1, high: 2 }
        );
    }

    #[test]
    fn bytes_past_the_size_do_not_count(rt: HostRuntime) {
        assert_eq!(rt; u16::from_bytes(&[1, 2, 3]), 0x0201);
        assert_eq!(rt; u32::from_bytes(&[1, 2, 3, 4, 5]), 0x04030201);
        assert_eq!(rt;
            u64::from_bytes(&[1, 2, 3, 4, 5, 6, 7, 8, 9]),
            0x0807060504030201
        );
        assert_eq!(rt;
            i64::from_bytes(&[255, 255, 255, 255, 255, 255, 255, 255, 0]),
            -1
        );
    }

    #[test]
    fn least_and_greatest_numbers(rt: HostRuntime) {
        assert_eq!(rt; i32::from_bytes(&[0, 0, 0, 0x80]), i32::MIN);
        assert_eq!(rt; i32::from_bytes(&[255, 255, 255, 0x7f]), i32::MAX);
        assert_eq!(rt; i64::from_bytes(&[0, 0, 0, 0, 0, 0, 0, 0x80]), i64::MIN);
        assert_eq!(rt;
            i64::from_bytes(&[255, 255, 255, 255, 255, 255, 255, 0x7f]),
            i64::MAX
        );
        assert_eq!(rt; u64::from_bytes(&[255; 8]), u64::MAX);
    }

    #[test]
    fn not_a_numbers_are_one(rt: HostRuntime) {
        assert_eq!(rt;
            f64_to_bits_with_nan(f64::from_bytes(&[1, 0, 0, 0, 0, 0, 0xf0, 0x7f])),
            0x7ff8_0000_0000_0000
        );
        assert_eq!(rt;
            f64_to_bits_with_nan(f64::from_bytes(&[0, 0, 0, 0, 0, 0, 0xf8, 0xff])),
            0x7ff8_0000_0000_0000
        );
        assert_eq!(rt;
            f64_to_bits_with_nan(f64::from_bytes(&[255; 8])),
            0x7ff8_0000_0000_0000
        );
    }

    #[test]
    fn a_read_to_the_very_end(rt: HostRuntime) {
        let buffer = ChangeBuffer::new(&[9, 1, 0, 0, 0]);
        let mut index = 1;
        assert_eq!(rt; buffer.read::<u32>(&mut index), Ok(1));
        assert_eq!(rt; index, 5);
        assert_eq!(rt;
            buffer.read::<u16>(&mut index),
            Err(ChangeBufferError::ReadOutOfBounds {
                offset: 5,
                value_len: 2,
                buffer_len: 5,
            })
        );
        assert_eq!(rt; index, 5);
    }

    #[test]
    fn a_read_far_past_the_end(rt: HostRuntime) {
        let buffer = ChangeBuffer::new(&[0; 16]);
        let mut index = usize::MAX;
        assert_eq!(rt;
            buffer.read::<TraceId>(&mut index),
            Err(ChangeBufferError::ReadOutOfBounds {
                offset: usize::MAX,
                value_len: 16,
                buffer_len: 16,
            })
        );
        assert_eq!(rt; index, usize::MAX);
        index = 0;
        assert_eq!(rt;
            buffer.read::<TraceId>(&mut index),
            Ok(TraceId { low: 0, high: 0 })
        );
        assert_eq!(rt; index, 16);
    }

    #[test]
    fn strings_by_their_number(rt: HostRuntime) {
        let buffer = ChangeBuffer::new(&[
            1, 0, 0, 0, 0, 0, 0, 0, 2, 0, 0, 0, 255, 255, 255, 255, 0,
        ]);
        let strings: [Option<u8>; 2] = [None, Some(7)];
        let mut index = 0;
        assert_eq!(rt; buffer.read_string(&strings, &mut index), Ok(7));
        assert_eq!(rt; index, 4);
        assert_eq!(rt;
            buffer.read_string(&strings, &mut index),
            Err(ChangeBufferError::StringNotFound(0))
        );
        assert_eq!(rt; index, 8);
        assert_eq!(rt;
            buffer.read_string(&strings, &mut index),
            Err(ChangeBufferError::StringNotFound(2))
        );
        assert_eq!(rt;
            buffer.read_string(&strings, &mut index),
            Err(ChangeBufferError::StringNotFound(u32::MAX))
        );
        assert_eq!(rt; index, 16);
        assert_eq!(rt;
            buffer.read_string(&strings, &mut index),
            Err(ChangeBufferError::ReadOutOfBounds {
                offset: 16,
                value_len: 4,
                buffer_len: 17,
            })
        );
        assert_eq!(rt; index, 16);
    }

    fn refused_opcode(number: u16) -> Option<ChangeBufferError> {
        OpCode::try_from(number).err()
    }

    #[test]
    fn opcodes_end_at_16(rt: HostRuntime) {
        assert_eq!(rt; refused_opcode(0), None);
        assert_eq!(rt; refused_opcode(16), None);
        assert_eq!(rt;
            refused_opcode(17),
            Some(ChangeBufferError::UnknownOpcode(17))
        );
        assert_eq!(rt;
            refused_opcode(65535),
            Some(ChangeBufferError::UnknownOpcode(65535))
        );
    }

    fn refused_operation(bytes: &[u8], index: &mut usize) -> Option<ChangeBufferError> {
        BufferedOperation::from_buf(&ChangeBuffer::new(bytes), index).err()
    }

    #[test]
    fn an_operation_is_refused_where_it_stands(rt: HostRuntime) {
        let mut index = 0;
        assert_eq!(rt;
            refused_operation(&[5], &mut index),
            Some(ChangeBufferError::ReadOutOfBounds {
                offset: 0,
                value_len: 2,
                buffer_len: 1,
            })
        );
        assert_eq!(rt; index, 0);
        assert_eq!(rt;
            refused_operation(&[17, 0], &mut index),
            Some(ChangeBufferError::UnknownOpcode(17))
        );
        assert_eq!(rt; index, 2);
        index = 0;
        assert_eq!(rt;
            refused_operation(&[5, 0, 9, 0, 0, 0, 0, 0, 0], &mut index),
            Some(ChangeBufferError::ReadOutOfBounds {
                offset: 2,
                value_len: 8,
                buffer_len: 9,
            })
        );
        assert_eq!(rt; index, 2);
    }

    #[test]
    fn the_count_is_cleared_and_nothing_else(rt: HostRuntime) {
        let mut none: [u8; 0] = [];
        clear_count(&mut none);
        let mut seven = [1u8; 7];
        clear_count(&mut seven);
        assert!(rt; seven == [0; 7]);
        let mut eight = [1u8; 8];
        clear_count(&mut eight);
        assert!(rt; eight == [0; 8]);
        let mut nine = [1u8; 9];
        clear_count(&mut nine);
        assert!(rt; nine == [0, 0, 0, 0, 0, 0, 0, 0, 1]);
    }
}
