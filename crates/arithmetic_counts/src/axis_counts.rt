// A length in metres as a count of tenths of a millimetre.
ghost use Rattle.std.specs.Prelude.{◌≡◌, T};
ghost use Rattle.std.specs.Float.Ieee.{of_bits, neg, le};
ghost use Rattle.std.specs.Float.Ieee.Positive.{num, den};
ghost use Rattle.std.specs.Float.{binary64};
ghost use Rattle.refusals.specs.Answer.{answered};
ghost use Rattle.arithmetic_counts.specs.Count.{nearest_away, nearest_whole, counts_call};

use arithmetic_ranges::in_range;
use refusals::Refusal;

// The greatest size that is counted, in metres, and the counts of a metre.
const GREATEST_COUNTED: f64 = 80.0;

const COUNTS_PER_METRE: f64 = 10000.0;

// The whole number nearest to a, halves up: the low bits of a + 2^52 are the nearest, halves to even, so that only a half that went down is left to move. By the library's rounding and its cast a count takes three times the instructions.
fn nearest_size(a: f64) -> u64
    requires { T (le (of_bits binary64 0) a) × T (le a (of_bits binary64 0x4128_6a00_0000_0000)) }
    ensures { result ≡ nearest_away (num a) (den a) }
{
    let y = a + 4503599627370496.0;
    let n = y - 4503599627370496.0;
    let k = y.to_bits() - 0x4330_0000_0000_0000;
    if n + 0.5 <= a {
        return k + 1;
    }
    k
}

// The whole number nearest to p, halves away from zero, for |p| up to 800,000.
fn nearest_whole(p: f64) -> i64
    requires { T (le (neg (of_bits binary64 0x4128_6a00_0000_0000)) p) × T (le p (of_bits binary64 0x4128_6a00_0000_0000)) }
    ensures { result ≡ nearest_whole p }
{
    if p < 0.0 {
        let k = nearest_size(-p) as i64;
        return -k;
    }
    nearest_size(p) as i64
}

// v × 10,000 to the nearest whole number, halves away from zero: 1/32 gives 313, -1/32 gives -313. Refuses 12: v outside -80..80, or a NaN.
pub fn counts(v: f64) -> Result<i64, Refusal>
    ensures { answered result ≡ counts_call v }
{
    if in_range(-GREATEST_COUNTED, GREATEST_COUNTED, v) {
        return Ok(nearest_whole(v * COUNTS_PER_METRE));
    }
    Err(Refusal::CountRange)
}
