// The moves, at most 24, and the answer. A station is worked out once: the first serves the first t and the first move, and the miss at the end the mark.
ghost use Rattle.std.specs.Prelude.{◌≡◌, ◌&&◌};
ghost use Rattle.std.specs.Float.Ieee.{lt};
ghost use Rattle.admission.specs.Limits.{on_road};
ghost use Rattle.admission_arguments.specs.Arguments.{across_road};
ghost use Rattle.surface_points.specs.Plan.{footing_of};
ghost use Rattle.surface_locate.specs.Meeting.{meeting};
ghost use Rattle.surface_locate.specs.Locating.{most_moves, place, miss_at, size_of, walk_from, locate_of};

use crate::misses::{Search, near, small};
use crate::points::{Move, Place, Position, Walk};
use crate::starts::first_t;
use arithmetic_ranges::clamp;
use line_samples::SampledRoad;
use records::LentRoad;
use surface_points::{Footing, PlanVector, footing_at};

const MOST_MOVES: u32 = 24;

// Where the moves ended, and the miss there.
#[derive(Clone, Copy)]
struct Arrival {
    walk: Walk,
    miss: PlanVector,
}

impl<'a> Search<'a> {
    // The moves from t of a station, until one is none or the last.
    #[tactic(auto, using(crate::proofs::WalkLaws::turn))]
    fn walk(&self, first: Footing, from_t: f64) -> Arrival
        requires { first ≡ footing_of self.now.lent.now.road self.now.lent.now.samples.now first.s }
        ensures walk_value { result.walk ≡ walk_from self.now.lent.now.road self.now.lent.now.samples.now self.now.target most_moves (place first.s from_t) 0 }
        ensures seen { result.miss ≡ miss_at self.now.lent.now.road self.now.lent.now.samples.now self.now.target result.walk.place }
    {
        let mut here = first;
        let mut t = from_t;
        for moves in 0..MOST_MOVES {
            let r = self.miss_on(here, t);
            let at = Place::on(here, t);
            if small(r) {
                return arrived(at, moves, r);
            }
            match self.move_from(here, t, r) {
                Move::Stay => {
                    return arrived(at, moves, r);
                }
                Move::Last(p) => {
                    return arrived(p, moves + 1, self.miss(p));
                }
                Move::On(p) => {
                    here = footing_at(self.lent, p.s);
                    t = p.t;
                }
            }
        }
        arrived(Place::on(here, t), MOST_MOVES, self.miss_on(here, t))
    }
}

fn arrived(place: Place, moves: u32, miss: PlanVector) -> Arrival
    ensures { result ≡ record { walk = record { place = place; moves = moves }; miss = miss } }
{
    let walk = Walk { place, moves };
    Arrival { walk, miss }
}

// Whether a place lies on the road with a miss under 0.0000009 m.
fn met(road: &LentRoad, at: Place, miss: PlanVector) -> bool
    ensures { result ≡ (on_road road.now at.s && across_road at.t && lt (size_of miss) meeting) }
{
    admission_arguments::on_road(road, at.s) & admission_arguments::across_road(at.t) & near(miss)
}

// The place that the moves find from a guess of s, the count of moves, and the mark.
#[tactic(auto, unfolding(crate::specs::Locating::locate_of, crate::specs::Locating::start_of, crate::specs::Locating::met_at, crate::specs::Locating::first_t, surface_points::specs::Plan::footing_of, surface_station::specs::Station::pose_at))]
pub fn locate_from(lent: &SampledRoad, target: PlanVector, guess: f64) -> Position
    ensures { result ≡ locate_of lent.now.road lent.now.samples.now target guess }
{
    let s = clamp(lent.road.length(), guess);
    let here = footing_at(lent, s);
    let end = Search { lent, target }.walk(here, first_t(here, target));
    let at = end.walk.place;
    let converged = met(&lent.road, at, end.miss);
    Position {
        s: at.s,
        t: at.t,
        moves: end.walk.moves,
        converged,
    }
}
