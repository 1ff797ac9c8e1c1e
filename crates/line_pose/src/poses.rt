// The pose of a geometry at a station, with the sine and the cosine of its heading. A line and an arc run on past their length.
ghost use Rattle.std.specs.Prelude.{◌≡◌, cond};
ghost use Rattle.std.specs.Float.Ieee.{lt};
ghost use Rattle.float_laws.specs.Binary64.{abs_of};
ghost use Rattle.records.specs.Roads.{straight_curvature};
ghost use Rattle.line_pose.specs.Poses.{line_pose, arc_pose, pose_of};
ghost use Rattle.line_pose.specs.Bearings.{bearing_of};

use crate::bearings::Bearing;
use crate::spirals::SpiralSamples;
use arithmetic_ranges::abs;
use arithmetic_sine::sin_cos;
use line_samples::{Pose, SampledRoad, sample_count, samples_before};
use records::{GeomRec, GeomShape, STRAIGHT_CURVATURE};
use records_geometry::geom;

#[tactic(auto, unfolding(crate::specs::Poses::line_pose))]
fn line_bearing(g: GeomRec, ds: f64) -> Bearing
    ensures { result ≡ bearing_of (line_pose g ds) }
{
    let turn = sin_cos(g.hdg);
    let pose = Pose {
        x: g.x + ds * turn.cos,
        y: g.y + ds * turn.sin,
        heading: g.hdg,
    };
    Bearing { pose, turn }
}

#[tactic(auto, unfolding(crate::specs::Poses::arc_pose))]
fn arc_bearing(g: GeomRec, k: f64, ds: f64) -> Bearing
    ensures { result ≡ bearing_of (arc_pose g k ds) }
{
    let h = g.hdg + k * ds;
    let turn = sin_cos(h);
    let from = sin_cos(g.hdg);
    let pose = Pose {
        x: g.x + (turn.sin - from.sin) / k,
        y: g.y - (turn.cos - from.cos) / k,
        heading: h,
    };
    Bearing { pose, turn }
}

// An arc of curvature 1e-9 or less is a line.
fn arc_or_line(g: GeomRec, k: f64, ds: f64) -> Bearing
    ensures { result ≡ bearing_of (cond (lt straight_curvature (abs_of k)) (arc_pose g k ds) (line_pose g ds)) }
{
    if STRAIGHT_CURVATURE < abs(k) {
        arc_bearing(g, k, ds)
    } else {
        line_bearing(g, ds)
    }
}

// The pose of the i-th geometry at s, with the lent samples, and the sine and the cosine of its heading.
#[tactic(auto, using(crate::proofs::PoseLaws::own_pose), unfolding(crate::specs::Poses::pose_of))]
pub fn geom_bearing(lent: &SampledRoad, i: usize, s: f64) -> Bearing
    ensures { result ≡ bearing_of (pose_of lent.now.road lent.now.samples.now i s) }
{
    let g = geom(&lent.road, i);
    let ds = s - g.s;
    match g.shape {
        GeomShape::Line => line_bearing(g, ds),
        GeomShape::Arc(k) => arc_or_line(g, k, ds),
        GeomShape::Spiral(_, _) => {
            let first = samples_before(&lent.road, i);
            let spiral = SpiralSamples::new(lent.samples, first, sample_count(g));
            Bearing::from(spiral.pose(ds))
        }
    }
}

// The pose of the i-th geometry at s, without the sine and the cosine of its heading.
pub fn pose(lent: &SampledRoad, i: usize, s: f64) -> Pose
    ensures { result ≡ pose_of lent.now.road lent.now.samples.now i s }
{
    geom_bearing(lent, i, s).pose
}
