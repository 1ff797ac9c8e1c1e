// A segment of a track by itself.
ghost use Rattle.std.specs.Prelude.{◌≡◌};
ghost use Rattle.coordinates.specs.Vectors.{from_to, place_between};
ghost use Rattle.tracks.specs.Lengths.{distance_of};
ghost use Rattle.tracks.specs.Tangents.{direction_of};

use coordinates::{Vector, place_between};
use records::Point;

#[derive(Clone, Copy)]
pub struct Segment {
    pub from: Point,
    pub to: Point,
}

impl Segment {
    pub(crate) fn way(self) -> Vector
        ensures { result ≡ from_to self.from self.to }
    {
        Vector::from_to(self.from, self.to)
    }

    // How far apart its ends are.
    pub fn length(self) -> f32
        ensures { result ≡ distance_of self.from self.to }
    {
        self.way().length()
    }

    // The direction of travel in plan; zero where there is none.
    pub(crate) fn direction(self) -> Vector
        ensures { result ≡ direction_of self.from self.to }
    {
        self.way().horizontal().unit()
    }

    // The place t of the way along it.
    pub(crate) fn place(self, t: f32) -> Point
        ensures { result ≡ place_between self.from self.to t }
    {
        place_between(self.from, self.to, t)
    }
}
