// Profiles and cross section together.
// s and t stay two numbers, here and in the files beside: profiles are sought by s and their shapes worked out at t, and the cross section goes by t less
// the shift at s, so that a pair of them would be taken apart at once.
ghost use Rattle.std.specs.Prelude.{◌≡◌};
ghost use Rattle.lanes.specs.Lateral.{height_toward, has_cross_section, flat_across};

use crate::profiles::shape_at;
use crate::strips::cross_height;
use records::LentRoad;
use records::layout::STRIPS;
use records_shapes::{profile_count, strip};

// The road's height at s and t; on a cross section's ridge that of the side toward points to, 1.0 for the left.
pub fn height_toward(road: &LentRoad, s: f64, t: f64, toward: f64) -> f64
    ensures { result ≡ height_toward road.now s t toward }
{
    shape_at(road, s, t) + cross_height(road, s, t, toward)
}

// Whether there is a shift or a strip.
fn has_cross_section(road: &LentRoad) -> bool
    ensures { result ≡ has_cross_section road.now }
{
    !road.tshifts().is_empty() | (0..STRIPS).any(|i| strip(road, i).is_some())
}

// Whether the road is flat across: neither a profile nor a cross section.
pub fn flat_across(road: &LentRoad) -> bool
    ensures { result ≡ flat_across road.now }
{
    (profile_count(road) == 0) & !has_cross_section(road)
}
