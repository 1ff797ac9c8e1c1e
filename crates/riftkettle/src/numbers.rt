// Functions of numbers.
ghost use Rattle.std.specs.Prelude.{◌≡◌};
ghost use Rattle.refusals.specs.Answer.{answer_number};
ghost use Rattle.std.specs.Float.{binary32, binary64};
ghost use Rattle.arithmetic.specs.Root.{root_of, hypot_of};
ghost use Rattle.arithmetic_sine.specs.Sine.{sine_of, cosine_of, tan_of};
ghost use Rattle.arithmetic.specs.Narrow.{narrowed};
ghost use Rattle.arithmetic_counts.specs.Count.{counts_call};
ghost use Rattle.riftkettle.specs.Exports.{left_by};

use crate::answers::leave;

#[unsafe(no_mangle)]
pub extern "C" fn riftkettle_root(x: f64) -> f64
    ensures { result ≡ root_of binary64 x }
{
    arithmetic::root(x)
}

#[unsafe(no_mangle)]
pub extern "C" fn riftkettle_root32(x: f32) -> f32
    ensures { result ≡ root_of binary32 x }
{
    arithmetic::root32(x)
}

#[unsafe(no_mangle)]
pub extern "C" fn riftkettle_hypot(a: f64, b: f64) -> f64
    ensures { result ≡ hypot_of a b }
{
    arithmetic::hypot(a, b)
}

#[unsafe(no_mangle)]
pub extern "C" fn riftkettle_sin(h: f64) -> f64
    ensures { result ≡ sine_of h }
{
    arithmetic_sine::sin_cos(h).sin
}

#[unsafe(no_mangle)]
pub extern "C" fn riftkettle_cos(h: f64) -> f64
    ensures { result ≡ cosine_of h }
{
    arithmetic_sine::sin_cos(h).cos
}

#[unsafe(no_mangle)]
pub extern "C" fn riftkettle_tan(h: f64) -> f64
    ensures { result ≡ tan_of h }
{
    arithmetic_sine::tan(h)
}

#[unsafe(no_mangle)]
pub extern "C" fn riftkettle_narrow(x: f64) -> f32
    ensures { result ≡ narrowed x }
{
    arithmetic::narrow(x)
}

// Refuses 12.
#[unsafe(no_mangle)]
pub extern "C" fn riftkettle_counts(v: f64, count: &mut i64) -> u32
    ensures value { result ≡ answer_number (counts_call v) }
    ensures count_after { count.new ≡ left_by (λ n. n) (counts_call v) count.old }
{
    leave(arithmetic_counts::counts(v), count)
}
