// The arc length of a line at a road station.
ghost use Rattle.std.specs.Prelude.{◌≡◌, ◌≤◌, ◌-◌, length};
ghost use Rattle.coordinates.specs.Points.{point_at};
ghost use Rattle.tracks.specs.Poses.{leading_from, segment_in};
ghost use Rattle.dots.specs.Along.{nth_station, fraction_to, along};

use arithmetic::narrow;
use arithmetic_ranges::fraction;
use tracks::Track;

// The station at an index of the list, NaN past the end.
#[tactic(auto, using(crate::proofs::LeadingSteps::nan64_is))]
pub fn nth_station(stations: &[f64], i: usize) -> f64
    ensures { result ≡ nth_station stations.now i }
{
    stations.get(i).copied().unwrap_or(f64::NAN)
}

// How many of the stations lead up to s: the first that lies beyond it ends them.
#[tactic(auto, using(crate::proofs::LeadingSteps::counting))]
fn leading(stations: &[f64], s: f64) -> usize
    ensures { result ≡ leading_from (nth_station stations.now) s 0 (length stations.now) }
{
    for k in 0..stations.len() {
        if !(nth_station(stations, k) <= s) {
            return k;
        }
    }
    stations.len()
}

// The segment that holds a station: the last that starts at or before it.
fn segment_of_station(stations: &[f64], s: f64) -> usize
    ensures value { result ≡ segment_in (nth_station stations.now) (length stations.now) s }
    ensures within { result ≤ length stations.now - 2 }
{
    leading(stations, s)
        .saturating_sub(1)
        .min(stations.len().saturating_sub(2))
}

// How far along the line a road station lies: in plan and height, as the points have it.
pub fn along(points: &Track, stations: &[f64], s: f64) -> f32
    ensures { result ≡ along (point_at points.now) (nth_station stations.now) (length stations.now) s }
{
    let i = segment_of_station(stations, s);
    let f = fraction(nth_station(stations, i), nth_station(stations, i + 1), s).clamp(0.0, 1.0);
    points.length_to(i) + points.segment(i).length() * narrow(f)
}
