// The line along a lane's outer border.
ghost use Rattle.std.specs.Prelude.{◌≡◌, ◌++◌, ◌*◌, ◌≤◌, length, drop};
ghost use Rattle.surface_points.specs.SurfaceHeights.{stands_off};
ghost use Rattle.dots.specs.Along.{nth_station};
ghost use Rattle.dots_calls.specs.DotsCall.{border_point, line_of};

use coordinates::POINT_STRIDE;
use dots::nth_station;
use lanes_borders::lane_borders;
use line_samples::SampledRoad;
use records::{LanePlace, Point};
use surface_points::{lane_surface_where, stands_off};

// The lane's surface at its outer border at s, on the section of its place, whatever the section at s. Whether something of that section stands off is handed in.
#[tactic(auto, unfolding(surface_points::specs::Surfaces::lane_surface_at, surface_points::specs::Surfaces::lane_surface_where, surface_points::specs::SurfaceHeights::lane_height))]
fn border_point(lent: &SampledRoad, off: bool, place: LanePlace, s: f64) -> Point
    requires { off ≡ stands_off lent.now.road place.section }
    ensures { result ≡ border_point lent.now.road lent.now.samples.now place s }
{
    let t = lane_borders(&lent.road, place, s).outer;
    lane_surface_where(lent, off, place, s, t).point
}

// Writes the line at the stations, three numbers each; the rest of the slice stays as it was.
#[tactic(auto, using(crate::proofs::LineSteps::lining))]
pub(crate) fn write_line(lent: &SampledRoad, place: LanePlace, stations: &[f64], line: &mut [f32])
    requires { length stations.now * 3 ≤ length line.old }
    ensures { line.new ≡ line_of lent.now.road lent.now.samples.now place stations.now ++ drop (length stations.now * 3) line.old }
{
    let off = stands_off(&lent.road, place.section);
    for i in 0..stations.len() {
        let p = border_point(lent, off, place, nth_station(stations, i));
        let at = i * POINT_STRIDE;
        line[at..at + POINT_STRIDE].copy_from_slice(&[p.x, p.y, p.z]);
    }
}
