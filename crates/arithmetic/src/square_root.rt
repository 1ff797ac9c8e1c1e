// The square root of a float, nearest to the exact one, by integer work on the bit pattern, for both widths; and hypot, which is made of it.
//
// Not the library's `sqrt`, which is the machine's: document 01 has the root align its operand by leading zeros, then go digit by digit.
//
// A format keeps P digits, the leading one not in the pattern, and ONES is the exponent's field of its infinity.
// x is m * 2^j of the smallest value, 2^-1074 for an f64. Leading zeros move m's leading digit to bit P - 1, for a subnormal x too, and one digit more makes the power of two that is
// left even. The root then has P + 1 digits, one more than the format keeps: the upper ones, worked out one by one, are the root of m itself, and the lower ones follow as one digit of a large base. A last digit of 1 is never a tie:
// the number under the root is even, so an odd root is not the whole of it and the exact root lies above the half-way point.
ghost use Rattle.std.specs.Prelude.{◌≡◌, ◌+◌, ◌*◌, ◌<◌, ◌^◌};
ghost use Rattle.std.specs.Float.{binary32, binary64};
ghost use Rattle.std.specs.Float.Ieee.{of_bits, top};
ghost use Rattle.arithmetic.specs.Root.{root_of, hypot_of};
ghost use Rattle.arithmetic.specs.RootSteps.{RootsTo, Width, format_of};

use crate::bits::{places, power};
use crate::root_digits::Partial;
use std::num::{
    f32_from_bits_with_nan, f32_to_bits_with_nan, f64_from_bits_with_nan, f64_to_bits_with_nan,
};

// The pattern of the root of m * 2^j smallest values. The rounded root is added to the exponent's field with its leading digit,
// so a carry out of the digits needs no case, and a root is never subnormal.
fn pattern<const P: u64, const ONES: u64>(m: u64, j: u64) -> u64
    requires width { Width P ONES }
    requires digits { (0 < m) × (m < 2 ^ P) }
    requires exponent { j + 1 < ONES }
    ensures { RootsTo (format_of P) m j result }
{
    let z = places(m, P);
    // ONES / 2 - 3 is 1020 for an f64: 1074 less 54, the places that the digits under the root take
    let e = j + (ONES / 2 - 3) - z;
    // the upper digits: 27 of an f64's 54; of an f32's 25 they are 13, and the root of 2 * m
    let upper = P / 2 + 1;
    let r = Partial::of(
        m * power(z) * (1 + e % 2) * (2 - P % 2),
        upper,
        power(P - upper),
    );
    (e / 2 + 1) * power(P - 1) + (r.root + 1) / 2
}

// The root of the value that a pattern stands for: a zero and the infinity are their own, below 0 and of a NaN it is a NaN.
#[tactic(auto, using(crate::proofs::RootBits::answers))]
fn root_bits<const P: u64, const ONES: u64>(bits: u64) -> u64
    requires width { Width P ONES }
    requires bound { bits < 2 * top (format_of P) }
    ensures value { of_bits (format_of P) result ≡ root_of (format_of P) (of_bits (format_of P) bits) }
    ensures bound { result < 2 * top (format_of P) }
{
    let leading = power(P - 1);
    let infinity = ONES * leading;
    if bits % (infinity + leading) == 0 {
        return bits;
    }
    if infinity < bits {
        return infinity + 1;
    }
    if bits == infinity {
        return bits;
    }
    let field = bits / leading;
    let frac = bits % leading;
    if field == 0 {
        return pattern::<P, ONES>(frac, 0);
    }
    pattern::<P, ONES>(frac + leading, field - 1)
}

// The f64 nearest the exact root; NaN below 0 and of a NaN; a zero and the infinity are their own. 2 gives 0x3ff6a09e667f3bcd, 4 gives 2, -1 gives NaN.
pub fn root(x: f64) -> f64
    ensures { result ≡ root_of binary64 x }
{
    f64_from_bits_with_nan(root_bits::<53, 2047>(f64_to_bits_with_nan(x)))
}

// The f32 nearest the exact root, with the same cases. 2 gives 0x3fb504f3.
pub fn root32(x: f32) -> f32
    ensures { result ≡ root_of binary32 x }
{
    f32_from_bits_with_nan(root_bits::<24, 255>(f32_to_bits_with_nan(x) as u64) as u32)
}

// The root of a * a + b * b, each operation rounded: 3 and 4 give 5. Unlike the library's hypot the squares may overflow or vanish on the way.
#[tactic(auto, unfolding(crate::specs::Root::hypot_of))]
pub fn hypot(a: f64, b: f64) -> f64
    ensures { result ≡ hypot_of a b }
{
    root(a * a + b * b)
}
