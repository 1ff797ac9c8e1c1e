// Cubics, one by its numbers and many in a lent part.
ghost use Rattle.std.specs.Prelude.{◌≡◌};
ghost use Rattle.records_cubic.specs.Cubics.{eval_at, slope_at, cubics_of};
ghost use Rattle.records.specs.Active.{active_in, found_of};

use records_cubic::{Cubic, Cubics};

#[unsafe(no_mangle)]
pub extern "C" fn probe_eval(start: f64, a: f64, b: f64, c: f64, d: f64, s: f64) -> f64
    ensures { result ≡ eval_at (record { start = start; a = a; b = b; c = c; d = d }) s }
{
    let cubic = Cubic { start, a, b, c, d };
    cubic.eval(s)
}

#[unsafe(no_mangle)]
pub extern "C" fn probe_slope(start: f64, a: f64, b: f64, c: f64, d: f64, s: f64) -> f64
    ensures { result ≡ slope_at (record { start = start; a = a; b = b; c = c; d = d }) s }
{
    let cubic = Cubic { start, a, b, c, d };
    cubic.slope(s)
}

// The place of the active cubic and one, or 0. A match: that i + 1 fits is known where the place is, and in the closure of a `map_or` it is not.
#[unsafe(no_mangle)]
pub extern "C" fn probe_active(part: &[f64], s: f64) -> usize
    ensures { found_of result ≡ active_in (cubics_of part.now) s }
{
    match records_active::active(&Cubics::new(part), s) {
        Some(i) => i + 1,
        None => 0,
    }
}
