// The limits of a road's numbers, table by table in document 01's order.
ghost use Rattle.std.specs.Prelude.{◌≡◌, ◌&&◌};
ghost use Rattle.admission.specs.Limits.{greatest_bank, greatest_offset, greatest_shift, road_cubics_within, limited};

use crate::geometries::{elevations_limited, geoms_limited};
use admission::road_cubics_within;
use admission_lanes::sections_limited;
use admission_marks::all_marks_limited;
use admission_shapes::{profiles_limited, strips_limited};
use arithmetic_ranges::in_range;
use records::LentRoad;

const LEAST_LENGTH: f64 = 0.01;

const GREATEST_LENGTH: f64 = 10000.0;

const GREATEST_BANK: f64 = 0.75;

const GREATEST_OFFSET: f64 = 8.0;

const GREATEST_SHIFT: f64 = 8.0;

// Superelevations, offsets and shifts.
fn tables_limited(road: &LentRoad) -> bool
    ensures { result ≡ (road_cubics_within road.now road.now.superelevations greatest_bank && road_cubics_within road.now road.now.offsets greatest_offset && road_cubics_within road.now road.now.tshifts greatest_shift) }
{
    road_cubics_within(road, &road.superelevations(), GREATEST_BANK)
        && road_cubics_within(road, &road.offsets(), GREATEST_OFFSET)
        && road_cubics_within(road, &road.tshifts(), GREATEST_SHIFT)
}

// Whether every number of a road is finite and within its limit.
#[tactic(auto, unfolding(admission::specs::Limits::limited))]
pub fn limited(road: &LentRoad) -> bool
    ensures { result ≡ limited road.now }
{
    in_range(LEAST_LENGTH, GREATEST_LENGTH, road.length())
        && geoms_limited(road)
        && elevations_limited(road)
        && tables_limited(road)
        && sections_limited(road)
        && profiles_limited(road)
        && strips_limited(road)
        && all_marks_limited(road)
}
