// A track's position and heading at an arc length.
ghost use Rattle.std.specs.Prelude.{◌≡◌, suc, ◌+◌, ◌-◌, ◌<◌, ◌^◌};
ghost use Rattle.float_laws.specs.Binary32.{zero32, clamp_of};
ghost use Rattle.coordinates.specs.Points.{point_at};
ghost use Rattle.tracks.specs.Lines.{count_of};
ghost use Rattle.tracks.specs.Lengths.{length_to};
ghost use Rattle.tracks.specs.Poses.{segment_of, fraction_along, spot_of, heading_at, track_pose_of};

use crate::lines::Track;
use coordinates::{Vector, vector_between};
use records::Point;

// A segment, and the fraction along it.
#[derive(Clone, Copy)]
pub struct Spot {
    pub segment: usize,
    pub t: f32,
}

// A position on the track, and the direction of travel in plan: zero where the track has none.
#[derive(Clone, Copy)]
pub struct TrackPose {
    pub position: Point,
    pub heading: Vector,
}

// A segment, with the arc lengths at its ends.
#[derive(Clone, Copy)]
struct Stretch {
    segment: usize,
    from: f32,
    to: f32,
}

// How far apart the arc lengths of a segment's ends are at most, where it is taken as a place.
const LEAST_SPAN: f32 = 0.000001;

impl Stretch {
    // The fraction of the way along it; 0 where its ends are no more than LEAST_SPAN apart.
    fn fraction(self, s: f32) -> f32
        ensures { result ≡ fraction_along self.from self.to s }
    {
        let span = self.to - self.from;
        if LEAST_SPAN < span {
            return (s - self.from) / span;
        }
        0.0
    }
}

impl<'a> Track<'a> {
    // The segment that holds the arc length s: the last that starts at or before it.
    fn stretch_at(&self, s: f32) -> Stretch
        ensures segment_value { result.segment ≡ segment_of (point_at self.now) (count_of self.now) s }
        ensures small { result.segment + 1 < 2 ^ 64 }
        ensures from_value { (result.from ≡ length_to (point_at self.now) result.segment) × (result.to ≡ length_to (point_at self.now) (suc result.segment)) }
    {
        let mut on = Stretch {
            segment: 0,
            from: 0.0,
            to: self.length_to(1),
        };
        let behind = 0.0 <= s;
        for i in 1..self.segment_count() {
            if !(behind & (on.to <= s)) {
                return on;
            }
            on = Stretch {
                segment: i,
                from: on.to,
                to: on.to + self.segment(i).length(),
            };
        }
        on
    }

    // s held to 0..length; a NaN stays. The library's `clamp` wants 0 at most the length, which a length that is NaN is not.
    fn held(&self, s: f32) -> f32
        ensures { result ≡ clamp_of zero32 (length_to (point_at self.now) (count_of self.now - 1)) s }
    {
        let end = self.length();
        if s < 0.0 {
            0.0
        } else if end < s {
            end
        } else {
            s
        }
    }

    // The segment and the fraction at the arc length s, which is held to 0..length.
    #[tactic(auto, using(crate::proofs::PoseSteps::spot_is))]
    fn locate(&self, s: f32) -> Spot
        ensures small { result.segment + 1 < 2 ^ 64 }
        ensures value { result ≡ spot_of (point_at self.now) (count_of self.now) s }
    {
        let held = self.held(s);
        let on = self.stretch_at(held);
        Spot {
            segment: on.segment,
            t: on.fraction(held),
        }
    }

    // The heading t of the way along segment i, between the tangents of its ends.
    // That the next point has a number stands in three contracts: a ghost field of the public `Spot` would be a part of what `spot_of` says, and for `saturating_add` here a proof needs how long the track may be, which a method that reads no field is not told.
    #[tactic(auto, unfolding(crate::specs::Poses::heading_at))]
    fn heading(&self, i: usize, t: f32) -> Vector
        requires { i + 1 < 2 ^ 64 }
        ensures { result ≡ heading_at (point_at self.now) (count_of self.now) i t }
    {
        vector_between(self.tangent(i), self.tangent(i + 1), t).unit()
    }

    // The track's pose at the arc length s, held to 0..length. A NaN s is in the first segment.
    #[tactic(auto, using(crate::proofs::PoseSteps::pose_is))]
    pub fn pose_on(&self, s: f32) -> TrackPose
        ensures { result ≡ track_pose_of (point_at self.now) (count_of self.now) s }
    {
        let Spot { segment, t } = self.locate(s);
        TrackPose {
            position: self.segment(segment).place(t),
            heading: self.heading(segment, t),
        }
    }
}
