// Which lane lies at t: the name that the naming call answers, and the lane by whose heights the surface goes.
// The section is a parameter beside s: it is any section at any s, and of the functions below `SideAt::both` alone reads both.
ghost use Rattle.std.specs.Prelude.{◌≡◌, ℕ, suc, ◌<◌, cond, length, Some, pos, negsuc};
ghost use Rattle.records_lent.specs.Lists.{last_that};
ghost use Rattle.records.specs.declared.points.LanePlace.{LanePlace};
ghost use Rattle.lanes_borders.specs.Borders.{outer_after};
ghost use Rattle.lanes_naming.specs.Naming.{beyond_test, lane_named, lane_at};

use lanes_borders::SideAt;
use records::{LanePlace, LentRoad};

// The outermost lane of a side whose inner border t lies beyond.
fn last_beyond(side: &SideAt, t: f64) -> Option<usize>
    ensures value { result ≡ last_that (λ (k : ℕ). beyond_test side.now.sign (outer_after side.now.lanes side.now.sign side.now.base side.now.into k) t) (length side.now.lanes) }
    ensures small { (k : ℕ) → result ≡ Some k → k < 65536 }
{
    let mut inner = side.base;
    let mut last = None;
    // by index: a lane's place is what is answered
    for k in 0..side.lanes.len() {
        if side.sign * (t - inner) > 0.0 {
            last = Some(k);
        }
        inner = side.border(k, inner).outer;
    }
    last
}

// The lane at s and t of a section: the outermost whose inner border t lies beyond. Left lanes come before right ones, so a right one is the last.
pub fn lane_at(road: &LentRoad, section: usize, s: f64, t: f64) -> Option<LanePlace>
    ensures value { result ≡ lane_at road.now section s t }
    ensures small { (place : LanePlace) → result ≡ Some place → place.k < 65536 }
{
    let (lefts, rights) = SideAt::both(road, section, s);
    let (right, k) = match last_beyond(&rights, t) {
        Some(k) => (true, k),
        None => (false, last_beyond(&lefts, t)?),
    };
    Some(LanePlace { section, right, k })
}

// A lane's id: 1, 2, .. left and -1, -2, .. right.
fn id_of(place: LanePlace) -> i32
    requires { place.k < 65536 }
    ensures { result ≡ cond place.right (negsuc place.k) (pos (suc place.k)) }
{
    let id = place.k as i32 + 1;
    if place.right { -id } else { id }
}

// The name of the lane at s and t of a section, its id; none at the base, and the outermost lane's beyond all borders.
pub fn lane_named_in(road: &LentRoad, section: usize, s: f64, t: f64) -> Option<i32>
    ensures { result ≡ lane_named road.now section s t }
{
    lane_at(road, section, s, t).map(id_of)
}
