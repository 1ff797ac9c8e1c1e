// By how much the surface at a place misses the target.
ghost use Rattle.std.specs.Prelude.{◌≡◌, true};
ghost use Rattle.std.specs.Float.Ieee.{lt};
ghost use Rattle.surface_points.specs.Plan.{plan_on};
ghost use Rattle.arithmetic_distance.specs.Brackets.{brackets};
ghost use Rattle.surface_locate.specs.Meeting.{meeting};
ghost use Rattle.surface_locate.specs.Locating.{tolerance, miss_on, miss_at, size_of, rate_of};

use crate::points::Place;
use line_samples::SampledRoad;
use surface_points::{Footing, PlanVector, footing_at, plan_on};

// A miss below it makes no move, and a move below it is the last.
pub(crate) const TOLERANCE: f64 = 1e-9;

// A bound on the size of a vector, between the roots of two numbers.
#[derive(Clone, Copy)]
struct Bound {
    low: f64,
    high: f64,
    bound: f64,
    ghost between: { brackets low high bound ≡ true },
}

const SMALL: Bound = Bound {
    low: 9.999e-19,
    high: 1.0001e-18,
    bound: TOLERANCE,
};

// A miss below it meets the target, where the place lies on the road.
const MEETING: Bound = Bound {
    low: 8.0999e-13,
    high: 8.1001e-13,
    bound: 0.0000009,
};

// What a search goes by: the road with its lent samples, and the point that it looks for. Clauses take the three out of it: the definitions and their laws have them as a module's parameters, each named once there.
#[derive(Clone, Copy)]
pub(crate) struct Search<'a> {
    pub lent: &'a SampledRoad<'a>,
    pub target: PlanVector,
}

impl<'a> Search<'a> {
    // The miss at t of a station.
    pub(crate) fn miss_on(&self, here: Footing, t: f64) -> PlanVector
        ensures { result ≡ miss_on self.now.target (plan_on self.now.lent.now.road here t) }
    {
        plan_on(&self.lent.road, here, t) - self.target
    }

    // The miss at a place, whose station is worked out for it.
    #[tactic(auto, using(crate::proofs::WalkLaws::miss_is))]
    pub(crate) fn miss(&self, at: Place) -> PlanVector
        ensures { result ≡ miss_at self.now.lent.now.road self.now.lent.now.samples.now self.now.target at }
    {
        self.miss_on(footing_at(self.lent, at.s), at.t)
    }
}

// Whether the size of r is under a bound. Its root is worked out only where the sum of the squares lies between the bound's two numbers.
#[tactic(auto, unfolding(arithmetic::specs::Root::hypot_of))]
fn under(r: PlanVector, most: Bound) -> bool
    ensures { result ≡ lt (size_of r) most.bound }
{
    let sum = r.x * r.x + r.y * r.y;
    if most.high <= sum {
        return false;
    }
    if sum <= most.low {
        return true;
    }
    arithmetic::root(sum) < most.bound
}

// Whether a miss is so small that it ends the moves.
pub(crate) fn small(r: PlanVector) -> bool
    ensures { result ≡ lt (size_of r) tolerance }
{
    under(r, SMALL)
}

// Whether a miss is so small that it meets the target.
pub(crate) fn near(r: PlanVector) -> bool
    ensures { result ≡ lt (size_of r) meeting }
{
    under(r, MEETING)
}

// How fast the miss changes from r to a, h metres on.
#[tactic(auto, unfolding(crate::specs::Locating::rate_of))]
pub(crate) fn rate(a: PlanVector, r: PlanVector, h: f64) -> PlanVector
    ensures { result ≡ rate_of a r h }
{
    let change = a - r;
    PlanVector {
        x: change.x / h,
        y: change.y / h,
    }
}
