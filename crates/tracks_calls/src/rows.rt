// The tests of rows 13 and 14 on a track.
ghost use Rattle.std.specs.Prelude.{◌≡◌, length};
ghost use Rattle.refusals.specs.Answer.{answered};
ghost use Rattle.tracks_calls.specs.TrackCalls.{track_counted, inside_size, all_inside, point_inside, track_call};

use coordinates::POINT_STRIDE;
use records::Point;
use refusals::Refusal;
use tracks::Track;

// The fewest and the most points of a track.
const LEAST_POINTS: usize = 2;

const MOST_POINTS: usize = 512;

// The greatest size of a coordinate, in metres.
const GREATEST_COORDINATE: f32 = 2000000.0;

// Whether a slice holds 2 to 512 points, three f32 each.
fn counted(points: &[f32]) -> bool
    ensures { result ≡ track_counted (length points.now) }
{
    let count = Track::new(points).len();
    points.len() % POINT_STRIDE == 0 && (LEAST_POINTS..=MOST_POINTS).contains(&count)
}

// Whether a coordinate is at most 2,000,000 in size; a NaN is not.
fn inside(x: f32) -> bool
    ensures { result ≡ inside_size x }
{
    // not by a range's `contains`, whose way out at the first test takes 1.8 times as long on 512 points, nor by `abs`, which takes 1.6 times
    (-GREATEST_COORDINATE <= x) & (x <= GREATEST_COORDINATE)
}

// Whether all coordinates of a slice are at most 2,000,000 in size.
fn all_inside(points: &[f32]) -> bool
    ensures { result ≡ all_inside points.now }
{
    // not by `all`, whose way out at each number takes half as long again on 512 points
    points.iter().fold(true, |ok, x| ok & inside(*x))
}

// Whether the three coordinates of a point are at most 2,000,000 in size.
pub(crate) fn point_inside(p: Point) -> bool
    ensures { result ≡ point_inside p }
{
    inside(p.x) & inside(p.y) & inside(p.z)
}

// The track of a slice that passes both rows.
pub fn checked_track(points: &[f32]) -> Result<Track<'_>, Refusal>
    ensures { answered result ≡ track_call points.now }
{
    if !counted(points) {
        return Err(Refusal::TrackCount);
    }
    if !all_inside(points) {
        return Err(Refusal::TrackRange);
    }
    Ok(Track::new(points))
}
