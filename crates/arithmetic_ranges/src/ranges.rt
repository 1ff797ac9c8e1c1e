// Sizes and ranges of numbers, a NaN outside every range; the way between two.
ghost use Rattle.std.specs.Prelude.{◌≡◌};
ghost use Rattle.float_laws.specs.Binary64.{abs_of};
ghost use Rattle.arithmetic_ranges.specs.Ranges.{in_range, at_least_zero, width_or_zero, clamped, sized, blend, fraction};

// What lies in -LARGEST..LARGEST is finite.
pub const LARGEST: f64 = f64::MAX;

// Not `x.abs()`, which is 0 of -0: here -0 stays.
pub fn abs(x: f64) -> f64
    ensures { result ≡ abs_of x }
{
    if x < 0.0 { -x } else { x }
}

// Not `x.max(0.0)`, which is 0 of a NaN: here a NaN stays.
pub fn at_least_zero(x: f64) -> f64
    ensures { result ≡ at_least_zero x }
{
    if x < 0.0 { 0.0 } else { x }
}

// A width: a NaN becomes 0 too, where `at_least_zero` keeps it. Not `w.max(0.0)`, which may keep -0.
pub fn width_or_zero(w: f64) -> f64
    ensures { result ≡ width_or_zero w }
{
    if 0.0 < w { w } else { 0.0 }
}

// Raised to 0, then lowered to the most; a NaN stays. Not `x.clamp(0.0, most)`, which asks for a most from 0 on: lent memory gives any.
pub fn clamp(most: f64, x: f64) -> f64
    ensures { result ≡ clamped most x }
{
    let up = at_least_zero(x);
    if most < up { most } else { up }
}

// By the library's `contains`; a function of its own, since what `contains` says of floats goes by `partial_cmp`, and each caller would prove anew that it is `in_range`, the definitions' word.
pub fn in_range(lo: f64, hi: f64, x: f64) -> bool
    ensures { result ≡ in_range lo hi x }
{
    (lo..=hi).contains(&x)
}

pub fn sized(m: f64, x: f64) -> bool
    ensures { result ≡ sized m x }
{
    abs(x) <= m
}

// Straight from a to b, a fraction f of the way.
pub fn blend(a: f64, b: f64, f: f64) -> f64
    ensures { result ≡ blend a b f }
{
    a + (b - a) * f
}

// How far x is on the way from a to b, as a fraction of it: 0 at a, 1 at b.
pub fn fraction(a: f64, b: f64, x: f64) -> f64
    ensures { result ≡ fraction a b x }
{
    (x - a) / (b - a)
}
