// Hexadecimal text at its limits.
use hex_text::position::Position;
use hex_text::read::read_hex;
use std::alloc::Global;
use std::process::Abort;
use std::test::Fail;

fn gives(rt: &impl Abort, heap: Global, text: &[u8], expected: &[u8]) -> Result<(), Fail> {
    let bytes = read_hex(heap, text)?;
    assert_eq!(rt; bytes.as_slice(), expected);
    Ok(())
}

fn refuses(rt: &impl Abort, heap: Global, text: &[u8], message: &str) -> Result<(), Fail> {
    match read_hex(heap, text) {
        Ok(_) => Err(Fail::new("it was read")),
        Err(e) => {
            assert_eq!(rt; e.to_string(heap)?.as_str(), message);
            Ok(())
        },
    }
}

fn stands(
    rt: &impl Abort,
    heap: Global,
    text: &[u8],
    offset: usize,
    words: &str,
) -> Result<(), Fail> {
    assert_eq!(rt; Position::of(text, offset).to_string(heap)?.as_str(), words);
    Ok(())
}

#[test]
fn nothing(rt: HostRuntime) -> Result<(), Fail> {
    gives(&rt, rt.alloc(), b"", b"")?;
    gives(&rt, rt.alloc(), b" \t\r\n", b"")?;
    gives(&rt, rt.alloc(), b"# a comment alone, 4 5 6", b"")?;
    gives(&rt, rt.alloc(), b"# one\n\n# another\n", b"")
}

#[test]
fn bytes(rt: HostRuntime) -> Result<(), Fail> {
    gives(&rt, rt.alloc(), b"00ff", b"\x00\xff")?;
    gives(&rt, rt.alloc(), b"aB Cd\tEF\r\n09", b"\xab\xcd\xef\x09")?;
    gives(&rt, rt.alloc(), b"01# one\n02 # two", b"\x01\x02")
}

#[test]
fn lone_digits(rt: HostRuntime) -> Result<(), Fail> {
    refuses(
        &rt,
        rt.alloc(),
        b"7",
        "line 1, column 1: a hexadecimal digit without its pair",
    )?;
    refuses(
        &rt,
        rt.alloc(),
        b"00 7",
        "line 1, column 4: a hexadecimal digit without its pair",
    )?;
    refuses(
        &rt,
        rt.alloc(),
        b"00\n7 7",
        "line 2, column 1: a hexadecimal digit without its pair",
    )?;
    refuses(
        &rt,
        rt.alloc(),
        b"00\n  7\n7",
        "line 2, column 3: a hexadecimal digit without its pair",
    )?;
    refuses(
        &rt,
        rt.alloc(),
        b"7#7",
        "line 1, column 1: a hexadecimal digit without its pair",
    )?;
    refuses(
        &rt,
        rt.alloc(),
        b"7x",
        "line 1, column 1: a hexadecimal digit without its pair",
    )
}

#[test]
fn unknown_bytes(rt: HostRuntime) -> Result<(), Fail> {
    refuses(
        &rt,
        rt.alloc(),
        b"0x00",
        "line 1, column 1: a hexadecimal digit without its pair",
    )?;
    refuses(
        &rt,
        rt.alloc(),
        b"00 g0",
        "line 1, column 4: 'g' is no hexadecimal digit",
    )?;
    refuses(
        &rt,
        rt.alloc(),
        b"# g\n\n :",
        "line 3, column 2: ':' is no hexadecimal digit",
    )?;
    refuses(
        &rt,
        rt.alloc(),
        b"\xc3\xa9",
        "line 1, column 1: byte 195 is no hexadecimal digit",
    )
}

#[test]
fn positions(rt: HostRuntime) -> Result<(), Fail> {
    let heap = rt.alloc();
    stands(&rt, heap, b"", 0, "line 1, column 1")?;
    stands(&rt, heap, b"ab\n\ncd", 2, "line 1, column 3")?;
    stands(&rt, heap, b"ab\n\ncd", 3, "line 2, column 1")?;
    stands(&rt, heap, b"ab\n\ncd", 5, "line 3, column 2")?;
    stands(&rt, heap, b"ab\n\ncd", 99, "line 3, column 3")
}
