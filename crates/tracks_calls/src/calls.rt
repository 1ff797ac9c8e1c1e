// The calls: rows 13 and 14, then the answer.
ghost use Rattle.std.specs.Prelude.{◌≡◌, length};
ghost use Rattle.refusals.specs.Answer.{answered};
ghost use Rattle.tracks_calls.specs.TrackCalls.{tangents_call, tangents_list, track_pose_call, project_call};

use crate::rows::{checked_track, point_inside};
use coordinates::POINT_STRIDE;
use records::Point;
use refusals::Refusal;
use tracks::{Projection, Track, TrackPose};

// Writes the tangent of each point, three f32 each, and tells of how many; rows 13 and 14. The rest of the list, and all of it on a refusal, stays as it was.
pub fn tangents(points: &[f32], list: &mut [f32]) -> Result<usize, Refusal>
    ensures result_value { answered result ≡ tangents_call points.now (length list.old) }
    ensures list_after { list.new ≡ tangents_list points.now list.old }
{
    // room is row 13's and comes before row 14, so that it is asked of the list, lent flat, before the track is checked
    if list.len() / POINT_STRIDE < Track::new(points).len() {
        return Err(Refusal::TrackCount);
    }
    checked_track(points)?
        .list_tangents(list)
        .ok_or(Refusal::TrackCount)
}

// The position and heading at the arc length s, which is held to 0..length; rows 13 and 14. A NaN s goes through: the position is NaN and the heading zero, or both are the first point's where the first segment is no longer than 1e-6.
pub fn pose_at(points: &[f32], s: f32) -> Result<TrackPose, Refusal>
    ensures { answered result ≡ track_pose_call points.now s }
{
    Ok(checked_track(points)?.pose_on(s))
}

// The place of the track nearest to the given one, with its arc length and the signed distance in plan; rows 13 and 14.
pub fn project(points: &[f32], at: Point) -> Result<Projection, Refusal>
    ensures { answered result ≡ project_call points.now at }
{
    let track = checked_track(points)?;
    if !point_inside(at) {
        return Err(Refusal::TrackRange);
    }
    Ok(track.project_on(at))
}
