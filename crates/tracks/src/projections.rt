// The place of a track nearest to a given one.
ghost use Rattle.std.specs.Prelude.{◌≡◌, ◌-◌};
ghost use Rattle.coordinates.specs.Vectors.{from_to};
ghost use Rattle.coordinates.specs.Points.{point_at};
ghost use Rattle.tracks.specs.Lines.{count_of};
ghost use Rattle.tracks.specs.Projections.{foot_of, candidate_of, project_of};
ghost use Rattle.tracks.specs.ProjectionChoice.{closest_on, better_of, chosen_of};

use crate::lines::Track;
use crate::segments::Segment;
use coordinates::Vector;
use records::Point;

// The arc length of the nearest place, that place, and the signed distance from the line in plan, positive to the left of travel.
#[derive(Clone, Copy)]
pub struct Projection {
    pub s: f32,
    pub point: Point,
    pub offset: f32,
}

// The nearest segment so far, where there is one yet, with the square of its distance in space.
#[derive(Clone, Copy)]
struct Chosen {
    square: f32,
    segment: Option<usize>,
}

// The place of a segment closest to another place, how far along it lies, and the way from it to that place.
#[derive(Clone, Copy)]
struct Closest {
    t: f32,
    point: Point,
    apart: Vector,
}

// The square of a length, up to which a segment has no foot but its start.
const LEAST_SQUARE: f32 = 0.000000001;

// How far along a segment ab the foot lies of a place that is ap from its start: 0 to 1, and 0 where the segment is short of 3.2e-5 or so.
#[tactic(auto, unfolding(crate::specs::Projections::foot_of))]
fn foot(ab: Vector, ap: Vector) -> f32
    ensures { result ≡ foot_of ab ap }
{
    let square = ab.dot(ab);
    if LEAST_SQUARE < square {
        return (ap.dot(ab) / square).clamp(0.0, 1.0);
    }
    0.0
}

impl Segment {
    // The place of it closest to `at`.
    #[tactic(auto, unfolding(crate::specs::ProjectionChoice::closest_on))]
    fn closest(self, at: Point) -> Closest
        ensures { result ≡ closest_on self at }
    {
        let ab = self.way();
        let t = foot(ab, Vector::from_to(self.from, at));
        let point = self.from + ab * t;
        Closest {
            t,
            point,
            apart: Vector::from_to(point, at),
        }
    }

    // The projection on it, by its closest place; it starts at the arc length `from`.
    #[tactic(auto, unfolding(crate::specs::Projections::candidate_of))]
    fn projection(self, on: Closest, from: f32) -> Projection
        ensures { result ≡ candidate_of (from_to self.from self.to) on.t on.point on.apart from }
    {
        let left = self.direction().left_normal();
        Projection {
            s: from + self.length() * on.t,
            point: on.point,
            offset: on.apart.horizontal().dot(left),
        }
    }
}

impl Chosen {
    // The nearer of the best so far and segment i; at equal distances the best so far.
    #[tactic(auto, unfolding(crate::specs::ProjectionChoice::better_of, crate::specs::ProjectionChoice::closest_on))]
    fn or_nearer(self, on: Segment, at: Point, i: usize) -> Chosen
        ensures { result ≡ better_of self on at i }
    {
        let apart = on.closest(at).apart;
        let square = apart.dot(apart);
        if square < self.square {
            return Chosen {
                square,
                segment: Some(i),
            };
        }
        self
    }
}

impl<'a> Track<'a> {
    // The nearest of all segments, the first of them where several are as near. No arc length is summed here: every segment's takes a root, and only those up to the chosen one count.
    #[tactic(auto, using(crate::proofs::ProjectionSteps::choices))]
    fn choose(&self, at: Point) -> Chosen
        ensures { result ≡ chosen_of (point_at self.now) at (count_of self.now - 1) }
    {
        let mut best = Chosen {
            square: f32::INFINITY,
            segment: None,
        };
        for i in 0..self.segment_count() {
            best = best.or_nearer(self.segment(i), at, i);
        }
        best
    }

    // The projection of a place on the track: on its nearest segment, or the first point where none is at a distance below the infinity.
    #[tactic(auto, using(crate::proofs::ProjectionSteps::projections))]
    pub fn project_on(&self, at: Point) -> Projection
        ensures { result ≡ project_of (point_at self.now) (count_of self.now) at }
    {
        match self.choose(at).segment {
            Some(i) => {
                let on = self.segment(i);
                on.projection(on.closest(at), self.length_to(i))
            }
            None => Projection {
                s: 0.0,
                point: self.point(0),
                offset: 0.0,
            },
        }
    }
}
