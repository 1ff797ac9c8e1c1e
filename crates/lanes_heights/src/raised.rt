// Whether a section's lanes lie off the road's plane.
ghost use Rattle.std.specs.Prelude.{◌≡◌, ℕ, length, get_or};
ghost use Rattle.records_lent.specs.Lists.{any_below};
ghost use Rattle.records.specs.Roads.{no_lane};
ghost use Rattle.lanes_borders.specs.Borders.{side_lanes};
ghost use Rattle.lanes_heights.specs.Heights.{is_raised, section_raised};

use records::LentRoad;
use records_lanes::{LentLane, side_lanes};

// Whether a lane has a height or is level.
fn lane_raised(lane: &LentLane) -> bool
    ensures { result ≡ is_raised lane.now }
{
    !lane.heights.is_empty() | lane.level
}

// Whether a lane of a side is raised.
fn side_raised(road: &LentRoad, section: usize, right: bool) -> bool
    ensures { result ≡ any_below (λ (k : ℕ). is_raised (get_or (side_lanes road.now section right) k no_lane)) (length (side_lanes road.now section right)) }
{
    side_lanes(road, section, right).any(|lane| lane_raised(&lane))
}

// Whether any lane of a section has a height or is level.
pub fn section_raised(road: &LentRoad, section: usize) -> bool
    ensures { result ≡ section_raised road.now section }
{
    side_raised(road, section, false) || side_raised(road, section, true)
}
