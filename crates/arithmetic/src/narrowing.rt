// An f64 narrowed to an f32, by integer work on the bit pattern: the digits that an f32 has no room for are dropped, to the nearest and half to even.
//
// The library's `nearest_f64_to_f32_with_nan` is as fast, and not used: document 01 has it that root and narrowing share one rounding fact, which is `round-pattern` of float_laws.
//
// By the exponent's field of the f64: to 872 the value is under half the smallest f32; to 896 it is a subnormal f32, with fewer digits the smaller it is; to 1150 it is a normal one, with 24 digits of the 53; beyond, it is too large.
ghost use Rattle.std.specs.Prelude.{◌≡◌, ◌<◌, ◌^◌};
ghost use Rattle.std.specs.Float.Ieee.Nearest.{closest};
ghost use Rattle.arithmetic.specs.Narrow.{narrowed, NarrowsTo};

use crate::bits::power;

// A pattern is its sign, the exponent's field and the fraction. LEADING is one above the greatest fraction: the digit that a normal value has before it, and the place of the exponent's field. SIGN is the sign's bit.
const LEADING64: u64 = 0x10_0000_0000_0000;

const SIGN64: u64 = 0x8000_0000_0000_0000;

const LEADING32: u64 = 0x80_0000;

const SIGN32: u64 = 0x8000_0000;

// The first field of a normal f32.
const NORMAL: u64 = 897;

// The digits of an f64 that a normal f32 has no room for: 53 less 24.
const EXTRA: u64 = 29;

// A subnormal f32 has one digit less for each field below that: at `field` this less `field` are dropped.
const SUBNORMAL_EXTRA: u64 = NORMAL + EXTRA;

// The pattern of f32's infinity.
const INFINITY32: u64 = 0x7f80_0000;

// m / 2^drop to the nearest whole number, half to even: 5 / 2 gives 2, 7 / 2 gives 4. The remainder is doubled to be compared with the half.
fn nearest_of(m: u64, drop: u64) -> u64
    requires { (m < 2 ^ 53) × (drop < 54) }
    ensures { result ≡ closest m (2 ^ drop) }
{
    let unit = power(drop);
    let q = m / unit;
    let twice = m % unit * 2;
    if twice < unit {
        return q;
    }
    if twice == unit {
        return q + q % 2;
    }
    q + 1
}

// The f32 pattern, without its sign, nearest to the magnitude that an f64's two fields stand for. A NaN's fields are not asked for.
// The digits kept are added to the exponent's field with their leading one, so a carry goes into the exponent, and from the largest f32 to the infinity.
fn magnitude(field: u64, frac: u64) -> u64
    requires { (frac < 2 ^ 52) × (field < 2048) × (field ≡ 2047 → frac ≡ 0) }
    ensures { NarrowsTo field frac result }
{
    if field < 873 {
        return 0;
    }
    let m = frac + LEADING64;
    if field < NORMAL {
        return nearest_of(m, SUBNORMAL_EXTRA - field);
    }
    if 1150 < field {
        return INFINITY32;
    }
    (field - NORMAL) * LEADING32 + nearest_of(m, EXTRA)
}

// The f32 nearest to x, half to even; the infinity from half a step above the largest f32 on; a NaN of a NaN. 1 + 2^-24 gives 1, 1 + 3 * 2^-24 gives 1 + 2^-22.
pub fn narrow(x: f64) -> f32
    ensures { result ≡ narrowed x }
{
    if x.is_nan() {
        return f32::NAN;
    }
    let bits = x.to_bits();
    let field = bits % SIGN64 / LEADING64;
    let frac = bits % LEADING64;
    let sign = bits / SIGN64;
    let mag = magnitude(field, frac);
    f32::from_bits((sign * SIGN32 + mag) as u32)
}
