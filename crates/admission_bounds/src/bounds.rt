// The reach D of a cubic and its bound B over it, and the tests of a list of cubics.
ghost use Rattle.std.specs.Prelude.{◌≡◌, cond};
ghost use Rattle.std.specs.Float.Ieee.{le, lt};
ghost use Rattle.records_cubic.specs.Cubics.{cubic_at};
ghost use Rattle.admission_bounds.specs.Bounds.{end_at, reach_at, bound_of, bound_at, slope_bound_of, cubic_within, cubics_within, slopes_within, greatest_bound};

use arithmetic_ranges::{abs, at_least_zero, in_range};
use records_cubic::{Cubic, Cubics};

// What a reach has more than the way to the next start.
const REACH_MARGIN: f64 = 0.001;

// The bound B of a cubic over a reach d. Not `eval` of a cubic of sizes from 0 on: to make that cubic is longer than the formula.
#[tactic(auto, unfolding(crate::specs::Bounds::bound_of))]
pub fn bound(c: Cubic, d: f64) -> f64
    ensures { result ≡ bound_of c d }
{
    abs(c.a) + abs(c.b) * d + abs(c.c) * d * d + abs(c.d) * d * d * d
}

// The bound of a cubic's slope over a reach d.
#[tactic(auto, unfolding(crate::specs::Bounds::slope_bound_of))]
pub fn slope_bound(c: Cubic, d: f64) -> f64
    ensures { result ≡ slope_bound_of c d }
{
    abs(c.b) + 2.0 * abs(c.c) * d + 3.0 * abs(c.d) * d * d
}

// Cubics, and where the last of them ends.
#[derive(Clone, Copy)]
struct CubicRun<'a> {
    cubics: &'a Cubics<'a>,
    end: f64,
}

impl<'a> CubicRun<'a> {
    // Where the i-th cubic ends: at the next start, the last at the list's end.
    fn end_at(&self, i: usize) -> f64
        ensures { result ≡ end_at self.now.cubics.now self.now.end i }
    {
        if i < self.cubics.len().saturating_sub(1) {
            self.cubics.get(i + 1).start
        } else {
            self.end
        }
    }

    // The i-th cubic and its reach D.
    #[tactic(auto, unfolding(crate::specs::Bounds::reach_at))]
    fn cubic_and_reach(&self, i: usize) -> (Cubic, f64)
        ensures { (result.0 ≡ cubic_at self.now.cubics.now i) × (result.1 ≡ reach_at self.now.cubics.now self.now.end i) }
    {
        let c = self.cubics.get(i);
        (c, at_least_zero(self.end_at(i) - c.start) + REACH_MARGIN)
    }

    // The bound B of the i-th cubic over its reach.
    fn bound_at(&self, i: usize) -> f64
        ensures { result ≡ bound_at self.now.cubics.now self.now.end i }
    {
        let (c, d) = self.cubic_and_reach(i);
        bound(c, d)
    }

    #[tactic(auto, unfolding(crate::specs::Bounds::cubic_within))]
    fn cubic_within(&self, lo: f64, hi: f64, limit: f64, i: usize) -> bool
        ensures { result ≡ cubic_within self.now.cubics.now lo hi self.now.end limit i }
    {
        let (c, d) = self.cubic_and_reach(i);
        in_range(lo, hi, c.start) && (bound(c, d) <= limit)
    }

    fn slope_within(&self, limit: f64, i: usize) -> bool
        ensures { result ≡ le (slope_bound_of (cubic_at self.now.cubics.now i) (reach_at self.now.cubics.now self.now.end i)) limit }
    {
        let (c, d) = self.cubic_and_reach(i);
        slope_bound(c, d) <= limit
    }
}

// Every start in lo..hi and every B at most the limit, of a list that ends at end. lo and hi are two numbers, as the definition and `in_range` have them.
pub fn cubics_within(cubics: &Cubics, lo: f64, hi: f64, end: f64, limit: f64) -> bool
    ensures { result ≡ cubics_within cubics.now lo hi end limit }
{
    let run = CubicRun { cubics, end };
    (0..cubics.len()).all(|i| run.cubic_within(lo, hi, limit, i))
}

// Every slope's bound at most the limit.
pub fn slopes_within(cubics: &Cubics, end: f64, limit: f64) -> bool
    ensures { result ≡ slopes_within cubics.now end limit }
{
    let run = CubicRun { cubics, end };
    (0..cubics.len()).all(|i| run.slope_within(limit, i))
}

// Not `most.max(x)`, which may be -0 of 0 and -0: here the first of two equal ones stays.
fn greater(most: f64, x: f64) -> f64
    ensures { result ≡ cond (lt most x) x most }
{
    if most < x { x } else { most }
}

// The greatest B of a list, 0 for none.
pub fn greatest_bound(cubics: &Cubics, end: f64) -> f64
    ensures { result ≡ greatest_bound cubics.now end }
{
    let run = CubicRun { cubics, end };
    (0..cubics.len()).fold(0.0, |most, i| greater(most, run.bound_at(i)))
}
