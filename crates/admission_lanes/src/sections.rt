// Row 4 of sections and lanes.
ghost use Rattle.std.specs.Prelude.{◌≡◌, cond, ℕ, length, get_or};
ghost use Rattle.records_lent.specs.Lists.{all_below};
ghost use Rattle.records.specs.Roads.{no_lane};
ghost use Rattle.admission.specs.Limits.{greatest_width, greatest_border, section_end, section_extent, height_limited, heights_limited, lane_limited, section_limited};

use admission::on_road;
use admission_bounds::cubics_within;
use arithmetic_ranges::{LARGEST, sized};
use records::{HeightDef, Heights, LentRoad};
use records_lanes::{LentLane, LentSide, side_lanes};
use records_sections::{section_count, section_start};

const GREATEST_LANE_HEIGHT: f64 = 2.0;

const GREATEST_WIDTH: f64 = 8.0;

const GREATEST_BORDER: f64 = 36.0;

// Where a section ends: at the next one's start, the last, or one that is not there, at the road's end.
pub fn section_end(road: &LentRoad, i: usize) -> f64
    ensures { result ≡ section_end road.now i }
{
    if i < section_count(road).saturating_sub(1) {
        section_start(road, i + 1)
    } else {
        road.length()
    }
}

// How far a section reaches. NaN where there is no section.
#[tactic(auto, unfolding(admission::specs::Limits::section_extent))]
pub fn section_extent(road: &LentRoad, i: usize) -> f64
    ensures { result ≡ section_extent road.now i }
{
    section_end(road, i) - section_start(road, i)
}

#[tactic(auto, using(arithmetic_ranges::proofs::FiniteLaws::finite_is), unfolding(admission::specs::Limits::height_limited))]
fn height_limited(h: HeightDef) -> bool
    ensures { result ≡ height_limited h }
{
    h.s_offset.is_finite()
        && sized(GREATEST_LANE_HEIGHT, h.inner)
        && sized(GREATEST_LANE_HEIGHT, h.outer)
}

fn heights_limited(heights: &Heights) -> bool
    ensures { result ≡ heights_limited heights.now }
{
    heights.iter().all(height_limited)
}

// A border is measured from the center, a width from the lane before.
fn lane_limit(border: bool) -> f64
    ensures { result ≡ cond border greatest_border greatest_width }
{
    if border {
        GREATEST_BORDER
    } else {
        GREATEST_WIDTH
    }
}

fn lane_limited(lane: &LentLane, extent: f64) -> bool
    ensures { result ≡ lane_limited extent lane.now }
{
    let limit = lane_limit(lane.border);
    cubics_within(&lane.extents, -LARGEST, LARGEST, extent, limit) && heights_limited(&lane.heights)
}

// Row 4 of each lane of a side.
fn side_limited(side: &LentSide, extent: f64) -> bool
    ensures { result ≡ all_below (λ (k : ℕ). lane_limited extent (get_or side.now k no_lane)) (length side.now) }
{
    side.iter().all(|lane| lane_limited(&lane, extent))
}

#[tactic(auto, unfolding(admission::specs::Limits::section_limited))]
fn section_limited(road: &LentRoad, i: usize) -> bool
    ensures { result ≡ section_limited road.now i }
{
    let extent = section_extent(road, i);
    let left = side_lanes(road, i, false);
    let right = side_lanes(road, i, true);
    on_road(road, section_start(road, i))
        && side_limited(&left, extent)
        && side_limited(&right, extent)
}

pub fn sections_limited(road: &LentRoad) -> bool
    ensures { result ≡ all_below (section_limited road.now) (length road.now.sections) }
{
    (0..section_count(road)).all(|i| section_limited(road, i))
}
