// Sine, cosine and tangent: the angle less a whole number of quarter turns, a polynomial for each of the two, and the quarter says which is which.
ghost use Rattle.std.specs.Prelude.{◌≡◌, true, ◌<◌};
ghost use Rattle.float_laws.specs.Binary64.{◌⊘◌};
ghost use Rattle.arithmetic_sine.specs.Sine.{in_sine_range, horner, sine_kernel, cosine_kernel, sin_cos_by, sin_cos_of, tan_of};

use crate::floors::below;
use crate::quotients::QUOTIENTS;
use arithmetic_ranges::in_range;

const RANGE: f64 = 12000.0;

// A quarter turn is P + Q, and I is one over it.
const I: f64 = 0.6366197723675814;

const P: f64 = 1.5707963267341256;

const Q: f64 = 6.077100506506192e-11;

#[derive(Clone, Copy)]
pub struct SinCos {
    pub sin: f64,
    pub cos: f64,
}

impl SinCos {
    // The tangent of the angle whose pair this is.
    pub fn tan(self) -> f64
        ensures { result ≡ self.sin ⊘ self.cos }
    {
        self.sin / self.cos
    }
}

// A polynomial of z by Horner: the first coefficient, and those that follow it.
#[tactic(auto, unfolding(crate::specs::Sine::horner))]
pub fn horner(z: f64, first: f64, rest: &[f64]) -> f64
    ensures { result ≡ horner z first rest.now }
{
    rest.iter().fold(first, |p, d| p * z + *d)
}

// The sine of a reduced angle: p by Horner from -1/15! to -1/3!, which are the odd entries of the table.
fn sine_kernel(r: f64) -> f64
    ensures { result ≡ sine_kernel r }
{
    let z = r * r;
    let t = QUOTIENTS;
    let p = horner(z, t[13], &[t[11], t[9], t[7], t[5], t[3], t[1]]);
    r + r * (z * p)
}

// The cosine of a reduced angle: q from 1/16! to -1/2!, the even entries.
fn cosine_kernel(r: f64) -> f64
    ensures { result ≡ cosine_kernel r }
{
    let z = r * r;
    let t = QUOTIENTS;
    let q = horner(z, t[14], &[t[12], t[10], t[8], t[6], t[4], t[2], t[0]]);
    1.0 + z * q
}

// The pair that the quarter makes of the two kernels' values. The cosine is the sine a quarter on. A table and no branches, which the machine would guess wrong.
fn by_quarter(quarter: u64, s: f64, c: f64) -> SinCos
    requires { quarter < 4 }
    ensures { result ≡ sin_cos_by quarter s c }
{
    let turned = [s, c, -s, -c];
    let k = quarter as usize;
    SinCos {
        sin: turned[k],
        cos: turned[(k + 1) % 4],
    }
}

// The pair of an angle in the range: n quarter turns, and what is left of the angle.
fn reduced(h: f64) -> SinCos
    requires { in_sine_range h ≡ true }
    ensures { result ≡ sin_cos_of h }
{
    let turns = below(h * I + 0.5);
    let n = turns.n;
    let r = h - n * P - n * Q;
    by_quarter(turns.quarter, sine_kernel(r), cosine_kernel(r))
}

// The sine and the cosine of an angle up to RANGE either way, NaN beyond.
#[tactic(auto, unfolding(crate::specs::Sine::in_sine_range))]
pub fn sin_cos(h: f64) -> SinCos
    ensures { result ≡ sin_cos_of h }
{
    if in_range(-RANGE, RANGE, h) {
        return reduced(h);
    }
    SinCos {
        sin: f64::NAN,
        cos: f64::NAN,
    }
}

// The tangent, sine over cosine.
#[tactic(auto, unfolding(crate::specs::Sine::tan_of))]
pub fn tan(h: f64) -> f64
    ensures { result ≡ tan_of h }
{
    sin_cos(h).tan()
}
