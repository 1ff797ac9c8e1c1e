// The tangents of a track's points.
ghost use Rattle.std.specs.Prelude.{◌≡◌, ◌++◌, ◌*◌, ◌/◌, ◌≤◌, length, drop};
ghost use Rattle.coordinates.specs.Points.{point_at};
ghost use Rattle.tracks.specs.Lines.{count_of, segment_at};
ghost use Rattle.tracks.specs.Tangents.{incoming_of, outgoing_of, tangent_of, tangent_numbers, tangents_listed, tangents_left};

use crate::lines::Track;
use crate::segments::Segment;
use coordinates::{POINT_STRIDE, Vector};

impl<'a> Track<'a> {
    // The direction of the segment that ends at point i; zero at the first point.
    fn incoming(&self, i: usize) -> Vector
        ensures { result ≡ incoming_of (point_at self.now) i }
    {
        match i.checked_sub(1) {
            Some(before) => self.segment(before).direction(),
            None => Vector::ZERO,
        }
    }

    // The direction of segment i, which starts at point i; zero at the last point. A call in `write_tangents` costs 8% on 512 points.
    #[inline(always)]
    fn outgoing(&self, i: usize, on: Segment) -> Vector
        requires { on ≡ segment_at (point_at self.now) i }
        ensures { result ≡ outgoing_of (point_at self.now) (count_of self.now) i }
    {
        if self.segment_count() <= i {
            return Vector::ZERO;
        }
        on.direction()
    }

    // The tangent at point i: the bisector of the two directions, the one direction at the ends. Where the line turns straight back they cancel: zero, or what rounding leaves of them, made a unit.
    #[tactic(auto, unfolding(crate::specs::Tangents::tangent_of))]
    pub(crate) fn tangent(&self, i: usize) -> Vector
        ensures { result ≡ tangent_of (point_at self.now) (count_of self.now) i }
    {
        (self.incoming(i) + self.outgoing(i, self.segment(i))).unit()
    }

    // Writes the tangent of each point into the list, three f32 each. A segment's direction is worked out once, at the point it leaves, and kept for the next, as the point it goes to is.
    // By index: once a loop over `chunks_exact_mut` is over, a proof knows how long the list is and not what it holds.
    fn write_tangents(&self, list: &mut [f32])
        requires { count_of self.now * 3 ≤ length list.old }
        ensures { list.new ≡ tangent_numbers (point_at self.now) (count_of self.now) (count_of self.now) ++ drop (count_of self.now * 3) list.old }
    {
        let mut incoming = Vector::ZERO;
        let mut from = self.point(0);
        for i in 0..self.len() {
            let to = self.point(i + 1);
            let outgoing = self.outgoing(i, Segment { from, to });
            let tangent = (incoming + outgoing).unit();
            let at = i * POINT_STRIDE;
            // one by one: a row of them copied passes through the stack, half as much time again where all points are alike
            list[at] = tangent.x;
            list[at + 1] = tangent.y;
            list[at + 2] = tangent.z;
            incoming = outgoing;
            from = to;
        }
    }

    // Writes the tangents and answers of how many points; none where the list does not hold three f32 for each, and then it stays as it was.
    pub fn list_tangents(&self, list: &mut [f32]) -> Option<usize>
        ensures value { result ≡ tangents_listed (count_of self.now) (length list.old / 3) }
        ensures list_after { list.new ≡ tangents_left result (point_at self.now) (count_of self.now) list.old }
    {
        // the C interface lends the list flat
        if list.len() / POINT_STRIDE < self.len() {
            return None;
        }
        self.write_tangents(list);
        Some(self.len())
    }
}
