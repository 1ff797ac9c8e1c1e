// The road station at an arc length along a line.
ghost use Rattle.std.specs.Prelude.{◌≡◌, length};
ghost use Rattle.coordinates.specs.Points.{point_at};
ghost use Rattle.dots.specs.Along.{nth_station, fraction_into, station_on, segment_of_arc, station_at};
ghost use Rattle.dots.specs.Walks.{Stands};

use crate::arc_lengths::nth_station;
use arithmetic_ranges::blend;
use tracks::Track;

// Where a walk along a line stands: the arc length that it is to find, and a segment that is not past the one of that arc length, with the arc length at its start and its length. A later arc length is sought from there on.
#[derive(Clone, Copy)]
pub(crate) struct Walk {
    arc: f32,
    segment: usize,
    before: f32,
    step: f32,
}

// How far into a segment an arc length lies; 0 of one without length.
fn fraction_into(before: f32, step: f32, arc: f32) -> f32
    ensures { result ≡ fraction_into before step arc }
{
    if 0.0 < step {
        return ((arc - before) / step).clamp(0.0, 1.0);
    }
    0.0
}

impl Walk {
    // At the line's start, to find an arc length.
    #[tactic(auto, using(crate::proofs::WalkSteps::walking))]
    pub(crate) fn start(points: &Track, count: usize, arc: f32) -> Walk
        ensures stands { Stands (point_at points.now) count result }
        ensures arc_value { result.arc ≡ arc }
    {
        Walk {
            arc,
            segment: 0,
            before: 0.0,
            step: points.segment(0).length(),
        }
    }

    // To find another arc length from where it stands; from the line's start where that is before the last one, or one of the two is a NaN.
    #[tactic(auto, using(crate::proofs::WalkSteps::walking))]
    fn aimed(self, points: &Track, count: usize, arc: f32) -> Walk
        requires { Stands (point_at points.now) count self }
        ensures stands { Stands (point_at points.now) count result }
        ensures arc_value { result.arc ≡ arc }
    {
        if self.arc <= arc {
            return Walk { arc, ..self };
        }
        Walk::start(points, count, arc)
    }

    // Gone on to the segment of its arc length, on a line of `count` points.
    #[tactic(auto, using(crate::proofs::WalkSteps::walking))]
    fn advanced(self, points: &Track, count: usize) -> Walk
        requires { Stands (point_at points.now) count self }
        ensures stands { Stands (point_at points.now) count result }
        ensures arc_value { result.arc ≡ self.arc }
        ensures segment_value { result.segment ≡ segment_of_arc (point_at points.now) count self.arc }
    {
        let mut on = self;
        for i in self.segment..count.saturating_sub(2) {
            let end = on.before + on.step;
            if on.arc <= end {
                return on;
            }
            on = Walk {
                segment: i + 1,
                before: end,
                step: points.segment(i + 1).length(),
                ..on
            };
        }
        on
    }

    // At the segment of an arc length.
    pub(crate) fn moved_to(self, points: &Track, count: usize, arc: f32) -> Walk
        requires { Stands (point_at points.now) count self }
        ensures stands { Stands (point_at points.now) count result }
        ensures arc_value { result.arc ≡ arc }
        ensures segment_value { result.segment ≡ segment_of_arc (point_at points.now) count arc }
    {
        self.aimed(points, count, arc).advanced(points, count)
    }

    // The road station of its arc length.
    pub(crate) fn station(self, points: &Track, stations: &[f64]) -> f64
        requires { Stands (point_at points.now) (length stations.now) self }
        ensures { result ≡ station_on (point_at points.now) (nth_station stations.now) self.segment self.arc }
    {
        let f = fraction_into(self.before, self.step, self.arc);
        blend(
            nth_station(stations, self.segment),
            nth_station(stations, self.segment + 1),
            f64::from(f),
        )
    }
}

// The road station at an arc length along a line, the inverse of `along`.
#[tactic(auto, unfolding(crate::specs::Along::station_at))]
pub fn station_at(points: &Track, stations: &[f64], arc: f32) -> f64
    ensures { result ≡ station_at (point_at points.now) (nth_station stations.now) (length stations.now) arc }
{
    let count = stations.len();
    Walk::start(points, count, arc)
        .advanced(points, count)
        .station(points, stations)
}
