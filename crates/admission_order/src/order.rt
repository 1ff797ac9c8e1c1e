// The order of starts. Every test is a comparison that passes, so a NaN that is compared fails it.
ghost use Rattle.std.specs.Prelude.{◌≡◌, ◌&&◌, length, get_or};
ghost use Rattle.std.specs.Float.Ieee.{eq, le};
ghost use Rattle.float_laws.specs.Binary64.{◌⊖◌, zero64};
ghost use Rattle.records_lent.specs.Lists.{all_below};
ghost use Rattle.records.specs.Roads.{height_def_at, geom_at, section_of, no_lane, profile_at, strip_at, present};
ghost use Rattle.admission_order.specs.Order.{least_gap, never_fall, rise_strictly, apart, cubics_in_order, lane_in_order, section_in_order, strip_in_order, ordered};

use crate::marks::all_marks_in_order;
use records::layout::{COLUMNS_A_STRIP, STRIPS};
use records::{Heights, LentRoad};
use records_cubic::Cubics;
use records_geometry::geom;
use records_lanes::{LentLane, LentSide, side_lanes};
use records_sections::{section_count, section_start};
use records_shapes::{LentStrip, profile_count, profile_start, shapes, strip};

// Profiles, and heights of a lane, are at least so far apart.
const LEAST_GAP: f64 = 0.001;

// Whether the later of two starts is at least LEAST_GAP past the earlier.
fn apart(a: f64, b: f64) -> bool
    ensures { result ≡ le least_gap (b ⊖ a) }
{
    LEAST_GAP <= b - a
}

// The cubics of a list never fall.
fn cubics_in_order(cubics: &Cubics) -> bool
    ensures { result ≡ cubics_in_order cubics.now }
{
    let starts = cubics.iter().map(|cubic| cubic.start);
    starts.is_sorted()
}

// The heights of a list are at least 0.001 apart.
fn heights_apart(heights: &Heights) -> bool
    ensures { result ≡ apart (λ i. (height_def_at heights.now i).s_offset) (length heights.now) }
{
    let offsets = heights.iter().map(|height| height.s_offset);
    offsets.is_sorted_by(|a, b| apart(*a, *b))
}

fn geoms_in_order(road: &LentRoad) -> bool
    ensures { result ≡ never_fall (λ i. (geom_at road.now i).s) (length road.now.geoms) }
{
    let stations = (0..road.geom_count()).map(|i| geom(road, i).s);
    stations.is_sorted()
}

fn sections_rise(road: &LentRoad) -> bool
    ensures { result ≡ rise_strictly (λ i. (section_of road.now i).start) (length road.now.sections) }
{
    let starts = (0..section_count(road)).map(|i| section_start(road, i));
    starts.is_sorted_by(|a, b| *a < *b)
}

fn lane_in_order(lane: &LentLane) -> bool
    ensures { result ≡ lane_in_order lane.now }
{
    cubics_in_order(&lane.extents) && heights_apart(&lane.heights)
}

// Whether the lists of each lane of a side are in order.
fn side_in_order(side: &LentSide) -> bool
    ensures { result ≡ all_below (λ k. lane_in_order (get_or side.now k no_lane)) (length side.now) }
{
    side.iter().all(|lane| lane_in_order(&lane))
}

#[tactic(auto, unfolding(crate::specs::Order::section_in_order))]
fn section_in_order(road: &LentRoad, i: usize) -> bool
    ensures { result ≡ section_in_order road.now i }
{
    let left = side_lanes(road, i, false);
    let right = side_lanes(road, i, true);
    side_in_order(&left) && side_in_order(&right)
}

fn sections_in_order(road: &LentRoad) -> bool
    ensures { result ≡ all_below (section_in_order road.now) (length road.now.sections) }
{
    (0..section_count(road)).all(|i| section_in_order(road, i))
}

fn profiles_apart(road: &LentRoad) -> bool
    ensures { result ≡ apart (λ i. (profile_at road.now i).s) (length road.now.profiles) }
{
    let stations = (0..profile_count(road)).map(|i| profile_start(road, i));
    stations.is_sorted_by(|a, b| apart(*a, *b))
}

fn shapes_in_order(road: &LentRoad) -> bool
    ensures { result ≡ all_below (λ i. cubics_in_order (profile_at road.now i).shapes) (length road.now.profiles) }
{
    (0..profile_count(road)).all(|i| cubics_in_order(&shapes(road, i)))
}

fn columns_in_order(strip: &LentStrip) -> bool
    ensures { result ≡ strip_in_order (present strip.now) }
{
    (0..COLUMNS_A_STRIP).all(|column| cubics_in_order(&strip.column(column)))
}

// A strip that is not there has no cubics.
fn strip_in_order(road: &LentRoad, i: usize) -> bool
    ensures { result ≡ strip_in_order (strip_at road.now i) }
{
    match strip(road, i) {
        Some(strip) => columns_in_order(&strip),
        None => true,
    }
}

fn strips_in_order(road: &LentRoad) -> bool
    ensures { result ≡ all_below (λ i. strip_in_order (strip_at road.now i)) 4 }
{
    (0..STRIPS).all(|i| strip_in_order(road, i))
}

fn first_at_zero(road: &LentRoad) -> bool
    ensures { result ≡ eq (geom_at road.now 0).s zero64 && eq (section_of road.now 0).start zero64 }
{
    (geom(road, 0).s == 0.0) && (section_start(road, 0) == 0.0)
}

// The flat tables of cubics.
fn flat_in_order(road: &LentRoad) -> bool
    ensures { result ≡ cubics_in_order road.now.elevations && cubics_in_order road.now.superelevations && cubics_in_order road.now.offsets && cubics_in_order road.now.tshifts }
{
    cubics_in_order(&road.elevations())
        && cubics_in_order(&road.superelevations())
        && cubics_in_order(&road.offsets())
        && cubics_in_order(&road.tshifts())
}

// Whether the starts of a road's lists are in the order that row 3 asks for.
#[tactic(auto, unfolding(crate::specs::Order::ordered, crate::specs::Order::profiles_in_order))]
pub fn ordered(road: &LentRoad) -> bool
    ensures { result ≡ ordered road.now }
{
    first_at_zero(road)
        && geoms_in_order(road)
        && sections_rise(road)
        && flat_in_order(road)
        && sections_in_order(road)
        && profiles_apart(road)
        && shapes_in_order(road)
        && strips_in_order(road)
        && all_marks_in_order(road)
}
