// One move by Newton's rule, with the rates measured over a step of 0.0001 m along the road and across it.
ghost use Rattle.std.specs.Prelude.{◌≡◌, false};
ghost use Rattle.std.specs.Float.Ieee.{lt};
ghost use Rattle.surface_points.specs.Plan.{footing_of};
ghost use Rattle.surface_locate.specs.Locating.{tolerance, place, miss_at, size_of, ahead_of, det_of, newton_move, move_at};

use crate::misses::{Search, TOLERANCE, rate};
use crate::points::{Move, Place};
use arithmetic_ranges::{abs, clamp};
use surface_points::{Footing, PlanVector};

// How far from a place the rates there are measured.
const RATE_STEP: f64 = 1e-4;

// A smaller determinant, and the two rates do not span the plane.
const LEAST_DETERMINANT: f64 = 1e-12;

// The step along the road by which a rate is measured: ahead, or back where that would pass the road's end.
#[tactic(auto, unfolding(crate::specs::Locating::ahead_of))]
fn ahead(length: f64, s: f64) -> f64
    ensures { result ≡ ahead_of length s }
{
    if s + RATE_STEP <= length {
        RATE_STEP
    } else {
        -RATE_STEP
    }
}

// The determinant of two vectors in the plane.
fn det(a: PlanVector, b: PlanVector) -> f64
    ensures { result ≡ det_of a b }
{
    a.x * b.y - a.y * b.x
}

// The move from a place with its miss r and the two rates. What ds has over the determinant is `det(across, r)` with the factors turned round, as document 01 writes it.
#[tactic(auto, unfolding(crate::specs::Locating::newton_move))]
fn newton(length: f64, at: Place, r: PlanVector, along: PlanVector, across: PlanVector) -> Move
    ensures { result ≡ newton_move length at r along across }
{
    let spread = det(along, across);
    if abs(spread) < LEAST_DETERMINANT {
        return Move::Stay;
    }
    let ds = (r.y * across.x - r.x * across.y) / spread;
    let dt = det(r, along) / spread;
    let s = clamp(length, at.s + ds);
    let moved = abs(s - at.s) + abs(dt);
    let next = Place { s, t: at.t + dt };
    if moved < TOLERANCE {
        Move::Last(next)
    } else {
        Move::On(next)
    }
}

impl<'a> Search<'a> {
    // The move from t of a station, whose miss r there isn't small.
    #[tactic(auto, using(crate::proofs::WalkLaws::miss_is), unfolding(crate::specs::Locating::move_at))]
    pub(crate) fn move_from(&self, here: Footing, t: f64, r: PlanVector) -> Move
        requires { (here ≡ footing_of self.now.lent.now.road self.now.lent.now.samples.now here.s) × (r ≡ miss_at self.now.lent.now.road self.now.lent.now.samples.now self.now.target (place here.s t)) × (lt (size_of r) tolerance ≡ false) }
        ensures { result ≡ move_at self.now.lent.now.road self.now.lent.now.samples.now self.now.target (place here.s t) }
    {
        let length = self.lent.road.length();
        let at = Place::on(here, t);
        let h = ahead(length, at.s);
        let on = Place { s: at.s + h, t };
        let along = rate(self.miss(on), r, h);
        let across = rate(self.miss_on(here, t + RATE_STEP), r, RATE_STEP);
        newton(length, at, r, along, across)
    }
}
