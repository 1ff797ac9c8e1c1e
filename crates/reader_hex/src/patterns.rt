// An f64 and its pattern, and the pattern of an f32, by the library's functions for any NaN too. Here each has a short name, and a pattern is a u64, as the
// numbers of a text's digits are.
ghost use Rattle.std.specs.Prelude.{◌≡◌};
ghost use Rattle.std.specs.Float.{binary32, binary64};
ghost use Rattle.std.specs.Float.Ieee.{of_bits, to_bits};

use std::num::{f32_to_bits_with_nan, f64_from_bits_with_nan, f64_to_bits_with_nan};

// The f64 of a pattern, any NaN's too.
pub fn of_bits(n: u64) -> f64
    ensures { result ≡ of_bits binary64 n }
{
    f64_from_bits_with_nan(n)
}

// The pattern of an f64, 7ff8000000000000 for a NaN.
pub fn bits_of(x: f64) -> u64
    ensures { result ≡ to_bits binary64 x }
{
    f64_to_bits_with_nan(x)
}

// The pattern of an f32, 7fc00000 for a NaN.
pub fn bits_of_single(x: f32) -> u64
    ensures { result ≡ to_bits binary32 x }
{
    u64::from(f32_to_bits_with_nan(x))
}
