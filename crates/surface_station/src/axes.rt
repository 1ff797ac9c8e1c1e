// The road's own axes. The pairs of the heading (turn) and of the bank are worked out once and handed on.
// The two pairs and the grade stay parameters of their own: `up_by` and `axes_by` alone take all three, and a point has both pairs before it is known whether it needs the grade.
ghost use Rattle.std.specs.Prelude.{◌≡◌};
ghost use Rattle.surface_station.specs.Axes.{along_by, up_by, axes_by, axes_at};

use crate::axis::{Axes, Axis};
use crate::station::{bank_at, bearing_at};
use arithmetic_sine::SinCos;
use line_samples::SampledRoad;
use records_active::slope;

// The direction along the reference line, up its grade.
#[tactic(auto, unfolding(crate::specs::Axes::along_by))]
pub fn along_by(turn: SinCos, grade: f64) -> Axis
    ensures { result ≡ along_by turn grade }
{
    let ahead = Axis {
        x: turn.cos,
        y: turn.sin,
        z: grade,
    };
    ahead.unit()
}

// The direction square to the reference line and to the banked cross section.
#[tactic(auto, unfolding(crate::specs::Axes::up_by))]
pub fn up_by(turn: SinCos, grade: f64, bank: SinCos) -> Axis
    ensures { result ≡ up_by turn grade bank }
{
    let tilted = Axis {
        x: -turn.sin * bank.cos,
        y: turn.cos * bank.cos,
        z: bank.sin,
    };
    along_by(turn, grade).cross(tilted).unit()
}

// All three axes. The second is the cross product of the other two, not brought to length 1 again.
#[tactic(auto, unfolding(crate::specs::Axes::axes_by))]
fn axes_by(turn: SinCos, grade: f64, bank: SinCos) -> Axes
    ensures { result ≡ axes_by turn grade bank }
{
    let along = along_by(turn, grade);
    let up = up_by(turn, grade, bank);
    let across = up.cross(along);
    Axes { along, across, up }
}

// The axes at s, with the lent samples.
#[tactic(auto, unfolding(crate::specs::Axes::axes_at))]
pub fn axes_at(lent: &SampledRoad, s: f64) -> Axes
    ensures { result ≡ axes_at lent.now.road lent.now.samples.now s }
{
    let turn = bearing_at(lent, s).turn;
    let grade = slope(&lent.road.elevations(), s);
    axes_by(turn, grade, bank_at(&lent.road, s))
}
