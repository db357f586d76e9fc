// Values that are read from raw bytes: a little-endian number, and what it means at each type.
ghost use Rattle.std.specs.Prelude.{◌≡◌, ℕ, take, drop, from_bits};
ghost use Rattle.std.specs.Float.{binary64};
ghost use Rattle.std.specs.Int.{w32, w64};
ghost use Rattle.std.proofs.Common.{to_z};
ghost use Rattle.layout.specs.Numbers.{le};
ghost use Rattle.layout.specs.Traces.{words};

use std::num::f64_from_bits_with_nan;

// Data that can be read from raw bytes.
pub trait FromBytes: Sized {
    // How many bytes hold a value.
    ghost FROM_BYTES_SIZE: { ℕ };

    // What the little-endian number in those bytes means.
    ghost value: { ℕ → Self };

    const FROM_BYTES_SIZE: usize;

    // The first bytes count, as many as the size says, and missing ones count as 0.
    fn from_bytes(bytes: &[u8]) -> Self
        ensures value { result ≡ value (le (take FROM_BYTES_SIZE bytes.now)) };
}

// The 128 bits of a trace id.
#[derive(Clone, Copy, PartialEq, Eq, Debug, Default)]
pub struct TraceId {
    pub low: u64,
    pub high: u64,
}

// Each number type has an `impl` of its own: `from_le_bytes` is a method of each type and of no trait.
impl FromBytes for u16 {
    ghost FROM_BYTES_SIZE = { 2 };

    ghost value = { λ n. n };

    const FROM_BYTES_SIZE: usize = 2;

    fn from_bytes(bytes: &[u8]) -> u16 {
        u16::from_le_bytes(first(bytes))
    }
}

impl FromBytes for u32 {
    ghost FROM_BYTES_SIZE = { 4 };

    ghost value = { λ n. n };

    const FROM_BYTES_SIZE: usize = 4;

    fn from_bytes(bytes: &[u8]) -> u32 {
        u32::from_le_bytes(first(bytes))
    }
}

impl FromBytes for u64 {
    ghost FROM_BYTES_SIZE = { 8 };

    ghost value = { λ n. n };

    const FROM_BYTES_SIZE: usize = 8;

    fn from_bytes(bytes: &[u8]) -> u64 {
        u64::from_le_bytes(first(bytes))
    }
}

impl FromBytes for i32 {
    ghost FROM_BYTES_SIZE = { 4 };

    ghost value = { to_z w32 };

    const FROM_BYTES_SIZE: usize = 4;

    fn from_bytes(bytes: &[u8]) -> i32 {
        i32::from_le_bytes(first(bytes))
    }
}

impl FromBytes for i64 {
    ghost FROM_BYTES_SIZE = { 8 };

    ghost value = { to_z w64 };

    const FROM_BYTES_SIZE: usize = 8;

    fn from_bytes(bytes: &[u8]) -> i64 {
        i64::from_le_bytes(first(bytes))
    }
}

// Every not-a-number is read as one value.
impl FromBytes for f64 {
    ghost FROM_BYTES_SIZE = { 8 };

    ghost value = { from_bits binary64 };

    const FROM_BYTES_SIZE: usize = 8;

    fn from_bytes(bytes: &[u8]) -> f64 {
        f64_from_bits_with_nan(u64::from_bytes(bytes))
    }
}

impl FromBytes for TraceId {
    ghost FROM_BYTES_SIZE = { 16 };

    ghost value = { words };

    const FROM_BYTES_SIZE: usize = 16;

    fn from_bytes(bytes: &[u8]) -> TraceId {
        let low = u64::from_bytes(bytes);
        let high = u64::from_bytes(after(bytes, 8));
        TraceId { low, high }
    }
}

// The bytes from a place on, none past the end.
fn after(bytes: &[u8], place: usize) -> &[u8]
    ensures value { result.now ≡ drop place bytes.now }
{
    bytes.get(place..).unwrap_or(&[])
}

// The first N bytes; missing ones count as 0.
fn first<const N: usize>(bytes: &[u8]) -> [u8; N]
    ensures value { le result ≡ le (take N bytes.now) }
{
    let mut all = [0; N];
    let count = N.min(bytes.len());
    all[..count].copy_from_slice(&bytes[..count]);
    all
}
