// The height at an offset across a lane.
ghost use Rattle.std.specs.Prelude.{◌≡◌};
ghost use Rattle.lanes_heights.specs.HeightAcross.{fraction_at, height_across, height_within};

use crate::across::Across;
use arithmetic_ranges::{blend, clamp, fraction};

// How much of the way from the inner border to the outer one t lies; 0 of a lane without width.
fn fraction_at(a: Across, t: f64) -> f64
    ensures { result ≡ fraction_at a t }
{
    if a.outer_t - a.inner_t == 0.0 {
        0.0
    } else {
        fraction(a.inner_t, a.outer_t, t)
    }
}

// The height straight from the lane's inner border to its outer one, and on past them.
pub fn height_across(a: Across, t: f64) -> f64
    ensures { result ≡ height_across a t }
{
    blend(a.inner_height, a.outer_height, fraction_at(a, t))
}

// The height from the lane's inner border to its outer one, with the fraction across kept to 0..1.
pub fn height_within(a: Across, t: f64) -> f64
    ensures { result ≡ height_within a t }
{
    let f = clamp(1.0, fraction_at(a, t));
    blend(a.inner_height, a.outer_height, f)
}
