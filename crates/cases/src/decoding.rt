// Change buffers at their limits: each opcode's shortest operation, and a byte less.
use decode::listing::Listing;
use hex_text::read::read_hex;
use std::alloc::{AllocError, Global};
use std::process::Abort;
use std::test::Fail;

// How many bytes the operands of opcodes 0 to 16 take, a batch with no pairs.
const OPERANDS: [usize; 17] = [32, 8, 12, 4, 4, 4, 8, 8, 4, 4, 8, 12, 4, 44, 56, 4, 4];

// A buffer with one operation, whose operands are zeros.
fn one(heap: Global, opcode: u8, operands: usize) -> Result<Vec<u8>, AllocError> {
    let mut bytes = vec![in heap; 1, 0, 0, 0, 0, 0, 0, 0, opcode, 0, 9, 0, 0, 0, 0, 0, 0, 0]?;
    bytes.resize(operands.saturating_add(18), 0)?;
    Ok(bytes)
}

// The last line that is printed of a buffer.
fn ending(heap: Global, bytes: &[u8]) -> Result<String, Fail> {
    let listing = Listing::read(heap, bytes)?;
    let read = listing.operations.len();
    let count = listing.count;
    match listing.ending {
        Ok(rest) => Ok(format!(in heap; "{read} of {count}, {rest} left")?),
        Err(fault) => Ok(format!(in heap; "{read} of {count}, {fault}")?),
    }
}

fn ends(rt: &impl Abort, heap: Global, text: &[u8], words: &str) -> Result<(), Fail> {
    let bytes = read_hex(heap, text)?;
    assert_eq!(rt; ending(heap, bytes.as_slice())?.as_str(), words);
    Ok(())
}

#[test]
fn shortest_of_each(rt: HostRuntime) -> Result<(), Fail> {
    for (opcode, operands) in (0..17).zip(OPERANDS) {
        let bytes = one(rt.alloc(), opcode, operands)?;
        assert_eq!(rt;
            ending(rt.alloc(), bytes.as_slice())?.as_str(),
            "1 of 1, 0 left"
        );
    }
    Ok(())
}

#[test]
fn one_byte_less(rt: HostRuntime) -> Result<(), Fail> {
    for (opcode, operands) in (0..17).zip(OPERANDS) {
        let bytes = one(rt.alloc(), opcode, operands - 1)?;
        let words = ending(rt.alloc(), bytes.as_slice())?;
        assert!(rt;
            words
                .as_str()
                .starts_with("0 of 1, 8 ReadOutOfBounds: offset ")
        );
    }
    Ok(())
}

#[test]
fn refusals(rt: HostRuntime) -> Result<(), Fail> {
    let heap = rt.alloc();
    ends(&rt, heap, b"0000000001000000", "0 of 0, 0 left")?;
    ends(&rt, heap, b"0000000000000000 ffff", "0 of 0, 2 left")?;
    ends(
        &rt,
        heap,
        b"ffffffff00000000",
        "0 of 4294967295, 8 ReadOutOfBounds: offset 8, size 2, length 8",
    )?;
    ends(
        &rt,
        heap,
        b"0100000000000000 1100",
        "0 of 1, 9 UnknownOpcode: opcode 17",
    )?;
    ends(
        &rt,
        heap,
        b"0100000000000000 0500 090000",
        "0 of 1, 8 ReadOutOfBounds: offset 10, size 8, length 13",
    )
}

#[test]
fn no_count(rt: HostRuntime) -> Result<(), Fail> {
    match Listing::read(rt.alloc(), b"\x01\x00\x00\x00") {
        Ok(_) => Err(Fail::new("it was read")),
        Err(e) => {
            assert_eq!(rt;
                e.to_string(rt.alloc())?.as_str(),
                "refused: 8 ReadOutOfBounds: offset 0, size 8, length 4"
            );
            Ok(())
        },
    }
}

#[test]
fn huge_batch(rt: HostRuntime) -> Result<(), Fail> {
    ends(
        &rt,
        rt.alloc(),
        b"0100000000000000 0f00 0900000000000000 ffffffff",
        "0 of 1, 8 ReadOutOfBounds: offset 22, size 4, length 22",
    )?;
    ends(
        &rt,
        rt.alloc(),
        b"0100000000000000 1000 0900000000000000 ffffffff 01000000 000000000000f83f",
        "0 of 1, 8 ReadOutOfBounds: offset 34, size 4, length 34",
    )
}

#[test]
fn in_words(rt: HostRuntime) -> Result<(), Fail> {
    let text = b"0100000000000000 1000 0900000000000000 01000000 0c000000 000000000000f8bf";
    let bytes = read_hex(rt.alloc(), text)?;
    let listing = Listing::read(rt.alloc(), bytes.as_slice())?;
    for operation in listing.operations.iter() {
        assert_eq!(rt;
            operation.to_string(rt.alloc())?.as_str(),
            "     8  BatchSetMetric       span 9     count 1  key string 12  value -1.5"
        );
    }
    assert_eq!(rt; listing.operations.len(), 1);
    Ok(())
}
