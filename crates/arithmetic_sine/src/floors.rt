// The floor of an f64. The sine's own is made by a sum: x + c, for a c that brings it among the values which an f64 counts in steps of 1, is rounded to a whole number.
ghost use Rattle.std.specs.Prelude.{◌≡◌, ◌<◌, T};
ghost use Rattle.std.specs.Float.{binary64};
ghost use Rattle.std.specs.Float.Ieee.{neg, le};
ghost use Rattle.arithmetic_sine.specs.Floor.{floor_of, below_reach, quarter_of};

// 1.5 * 2^52: for an x of either sign x + MIDDLE lies between 2^52 and twice that, where an f64 counts in steps of 1.
const MIDDLE: f64 = 6755399441055744.0;

// The greatest whole number that is at most some x, and that number mod 4.
#[derive(Clone, Copy)]
pub(crate) struct WholePart {
    pub n: f64,
    pub quarter: u64,
}

// For |x| up to 2^50; the low bits of the sum are the whole number's. By `x.floor()` the sine pair would take 5 ns more, of 21.
pub(crate) fn below(x: f64) -> WholePart
    requires { T (le (neg below_reach) x) × T (le x below_reach) }
    ensures n_value { (result.n ≡ floor_of binary64 x) × (result.quarter ≡ quarter_of (floor_of binary64 x)) }
    ensures small { result.quarter < 4 }
{
    if x == 0.0 {
        return WholePart { n: x, quarter: 0 };
    }
    let y = x + MIDDLE;
    let n = y - MIDDLE;
    // 1 where n lies above x, else 0: a number, since by a branch the sine pair takes 2 ns more, of 20
    let over = f64::from(x < n);
    WholePart {
        n: n - over,
        quarter: (y - over).to_bits() % 4,
    }
}

// The greatest whole number that is at most x: 2.5 gives 2, -2.5 gives -3; a NaN, the infinities and -0 are their own.
#[tactic(auto, using(crate::proofs::FloorLaws::floor_is))]
pub fn floor(x: f64) -> f64
    ensures { result ≡ floor_of binary64 x }
{
    x.floor()
}
