// A track line: points in a lent slice, three f32 each.
ghost use Rattle.std.specs.Prelude.{◌≡◌, ◌-◌, ◌<◌, ◌^◌};
ghost use Rattle.coordinates.specs.Points.{point_at};
ghost use Rattle.tracks.specs.Lines.{count_of, segment_at};

use crate::segments::Segment;
use coordinates::{POINT_STRIDE, point};
use records::Point;
use std::marker::Model;

// A track line over its numbers. Not `records_lent::Records`, which reads f64 and sees whole records alone: here a point may be cut short, and `point_at` then gives the numbers that are left over.
#[derive(Drop)]
pub struct Track<'a> {
    pub(crate) numbers: &'a [f32],
}

// Clauses see the numbers. They name the points and how many there are one beside the other, as the definitions do: those are of any points, also of such as no slice holds, and a pair of the two would be taken apart in each.
impl<'a> Model for Track<'a> {
    ghost use Rattle.std.specs.Prelude.{◌<◌, ◌^◌, length, List, Float};

    ghost Value = { List Float };

    ghost view = { λ t. t.numbers.now };

    ghost invariant = { λ t. length t.numbers.now < 2 ^ 63 };
}

impl<'a> Track<'a> {
    pub fn new(numbers: &'a [f32]) -> Track<'a>
        ensures { result ≡ numbers.now }
    {
        Track { numbers }
    }

    // How many points it has: the C interface lends them flat, and `Track` is the struct over them.
    pub fn len(&self) -> usize
        ensures value { result ≡ count_of self.now }
        ensures upper_bound { result < 2 ^ 63 }
    {
        self.numbers.len() / POINT_STRIDE
    }

    // How many segments it has: one fewer than points.
    pub(crate) fn segment_count(&self) -> usize
        ensures { result ≡ count_of self.now - 1 }
    {
        self.len().saturating_sub(1)
    }

    // The i-th point, one of NaNs past the end.
    pub(crate) fn point(&self, i: usize) -> Point
        ensures { result ≡ point_at self.now i }
    {
        point(self.numbers, i)
    }

    // Segment i, from point i to the next. No track has as many points as a usize counts: past the last number the one after it is itself, and both points are NaNs.
    #[tactic(auto, using(crate::proofs::NextPoints::segment_is))]
    pub fn segment(&self, i: usize) -> Segment
        ensures { result ≡ segment_at (point_at self.now) i }
    {
        Segment {
            from: point(self.numbers, i),
            to: point(self.numbers, i.saturating_add(1)),
        }
    }
}
