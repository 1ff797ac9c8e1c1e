// A point at s and t, stood off along the road's normal. The bank rolls the cross section about the reference line, so a point at t rides up by t times the sine of the bank and reaches t times its cosine across.
ghost use Rattle.std.specs.Prelude.{◌≡◌};
ghost use Rattle.arithmetic_sine.specs.Sine.{sin_cos_of};
ghost use Rattle.records.specs.Active.{value_in};
ghost use Rattle.surface_points.specs.Raised.{plain_by, lifted, raised_at};

use crate::plan::beside;
use crate::points::{PlanVector, SurfacePoint};
use arithmetic_sine::SinCos;
use line_pose::Bearing;
use line_samples::SampledRoad;
use records_active::{slope, value};
use surface_station::{Axis, bearing_at, up_by};

// The point at t of a pose, before it is stood off.
fn plain_by(at: Bearing, bank: SinCos, elevation: f64, t: f64) -> SurfacePoint
    ensures { result ≡ plain_by at bank elevation t }
{
    let Bearing { pose, turn } = at;
    let PlanVector { x, y } = beside(PlanVector::from(pose), turn, t * bank.cos);
    SurfacePoint {
        x,
        y,
        z: elevation + t * bank.sin,
        heading: pose.heading,
    }
}

// The point stood off by a height along an axis.
fn lift(p: SurfacePoint, up: Axis, height: f64) -> SurfacePoint
    ensures { result ≡ lifted p up height }
{
    SurfacePoint {
        x: p.x + up.x * height,
        y: p.y + up.y * height,
        z: p.z + up.z * height,
        heading: p.heading,
    }
}

// The point at s and t, with the lent samples, stood off by height; at a height of 0 the axes are not asked for. The bank's pair is handed in, since the height has asked for it.
#[tactic(auto, unfolding(crate::specs::Raised::raised_at, crate::specs::Raised::plain_at, surface_station::specs::Axes::axes_at, surface_station::specs::Axes::axes_by))]
pub(crate) fn raised_xyz(
    lent: &SampledRoad,
    s: f64,
    bank: SinCos,
    t: f64,
    height: f64,
) -> SurfacePoint
    requires { bank ≡ sin_cos_of (value_in lent.now.road.superelevations s) }
    ensures { result ≡ raised_at lent.now.road lent.now.samples.now s t height }
{
    let at = bearing_at(lent, s);
    let elevation = value(&lent.road.elevations(), s);
    let plain = plain_by(at, bank, elevation, t);
    if height == 0.0 {
        return plain;
    }
    let grade = slope(&lent.road.elevations(), s);
    lift(plain, up_by(at.turn, grade, bank), height)
}
