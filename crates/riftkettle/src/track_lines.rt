// Calls on a track line in lent memory, three f32 a point. Each checks the line whole and anew.
// The C interface lends the numbers as they are.
ghost use Rattle.std.specs.Prelude.{◌≡◌, length};
ghost use Rattle.refusals.specs.Answer.{answer_number};
ghost use Rattle.coordinates.specs.Vectors.{place};
ghost use Rattle.tracks.specs.Poses.{track_pose_list};
ghost use Rattle.tracks.specs.Projections.{projection_list};
ghost use Rattle.tracks_calls.specs.TrackCalls.{tangents_call, tangents_list, track_pose_call, project_call};
ghost use Rattle.riftkettle.specs.Exports.{left_by};

use crate::answers::leave;
use records::Point;
use refusals::answer_number;
use tracks::{Projection, TrackPose};

// No `From` here or below: it would be a public impl of tracks, and the calls would read `<[f32; 6]>::from` in place of these names.
fn track_pose_list(p: TrackPose) -> [f32; 6]
    ensures { result ≡ track_pose_list p }
{
    let at = p.position;
    let h = p.heading;
    [at.x, at.y, at.z, h.x, h.y, h.z]
}

fn projection_list(p: Projection) -> [f32; 5]
    ensures { result ≡ projection_list p }
{
    let at = p.point;
    [p.s, at.x, at.y, at.z, p.offset]
}

// Refuses 13, 14.
#[unsafe(no_mangle)]
pub extern "C" fn riftkettle_track_tangents(points: &[f32], list: &mut [f32]) -> u32
    ensures value { result ≡ answer_number (tangents_call points.now (length list.old)) }
    ensures list_after { list.new ≡ tangents_list points.now list.old }
{
    answer_number(&tracks_calls::tangents(points, list))
}

// Refuses 13, 14.
#[unsafe(no_mangle)]
pub extern "C" fn riftkettle_track_pose(points: &[f32], s: f32, pose: &mut [f32; 6]) -> u32
    ensures value { result ≡ answer_number (track_pose_call points.now s) }
    ensures pose_after { pose.new ≡ left_by track_pose_list (track_pose_call points.now s) pose.old }
{
    leave(tracks_calls::pose_at(points, s).map(track_pose_list), pose)
}

// Refuses 13, 14.
#[unsafe(no_mangle)]
pub extern "C" fn riftkettle_track_project(
    points: &[f32],
    x: f32,
    y: f32,
    z: f32,
    projection: &mut [f32; 5],
) -> u32
    ensures value { result ≡ answer_number (project_call points.now (place x y z)) }
    ensures projection_after { projection.new ≡ left_by projection_list (project_call points.now (place x y z)) projection.old }
{
    let found = tracks_calls::project(points, Point { x, y, z });
    leave(found.map(projection_list), projection)
}
