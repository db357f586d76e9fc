// Floats in pairs: a float lies there as its 64 bits, every not-a-number as one pattern.
ghost use Rattle.std.specs.Prelude.{◌≡◌, from_bits, to_bits};
ghost use Rattle.std.specs.Float.{binary64};
ghost use Rattle.vec_map.specs.Floats.{Patterns};

use std::num::{f64_from_bits_with_nan, f64_to_bits_with_nan};

// The bits of a float: std's conversion, and its converse below, under names that say which bits a pair has.
pub fn float_bits(x: f64) -> u64
    ensures { result ≡ to_bits binary64 x }
{
    f64_to_bits_with_nan(x)
}

// The float of these bits.
pub fn bits_float(bits: u64) -> f64
    ensures { result ≡ from_bits binary64 bits }
{
    f64_from_bits_with_nan(bits)
}

// Not-a-numbers are stored as one pattern, and +0 and -0 as two.
pub fn float_patterns()
    ensures { Patterns }
{}
