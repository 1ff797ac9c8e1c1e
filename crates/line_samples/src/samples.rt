// A spiral has no elementary form, so it is baked to samples by the midpoint rule: its start, then one a step of 0.25 m, the last shorter.
ghost use Rattle.std.specs.Prelude.{◌≡◌, ◌<◌, ◌≤◌, T, leb};
ghost use Rattle.std.specs.Float.Ieee.{le};
ghost use Rattle.line_samples.specs.Quarters.{least_estimated, greatest_estimated, QuartersBelow};
ghost use Rattle.line_samples.specs.Samples.{most_samples, most_steps, most_counted, counted_end, step_at, spiral_steps, sample_count, samples_before, samples_needed, first_sample, next_sample, turn_rate, heading_at};

use crate::points::{SAMPLE_STRIDE, Sample, Spiral};
use records::{GeomRec, GeomShape, LentRoad};
use records_geometry::geom;

// The length of every step but the last.
const WHOLE_STEP: f64 = 0.25;

// A spiral goes on while more than this is left of it.
const END_MARGIN: f64 = 1e-9;

// A spiral of this length or less has no turn rate.
const NO_TURN_LENGTH: f64 = 1e-9;

// The most samples that a road may need.
const MOST_SAMPLES: usize = 2000;

// The longest slice of samples that an admitted road needs.
pub const SAMPLES_NEEDED: usize = MOST_SAMPLES * SAMPLE_STRIDE;

// One step more than the samples that a road may need, so as to see that it is over.
const MOST_STEPS: usize = MOST_SAMPLES + 1;

// Between these lengths the steps are estimated. Those of a shorter spiral are few, and a longer one is in no admitted road.
const LEAST_ESTIMATED: f64 = 1.0;

const GREATEST_ESTIMATED: f64 = 10000.0;

// The length of the step from u on.
fn step_at(length: f64, u: f64) -> f64
    ensures { result ≡ step_at length u }
{
    (length - u).min(WHOLE_STEP)
}

// About how many steps of 0.25 fit below x: the low bits of a sum that is rounded to a whole number, 4 x less 1. A cast that saturates costs several times as much.
fn estimate(x: f64) -> usize
    requires { T (le least_estimated x) × T (le x greatest_estimated) }
    ensures { result < 65536 }
{
    (f64::to_bits(x * 4.0 + 4503599627370495.0) % 65536) as usize
}

// Steps of 0.25 that surely end below x, at most 2,000, and all but one or two of them: the test makes sure of it.
fn quarters_below(x: f64) -> usize
    ensures { QuartersBelow x result }
{
    if LEAST_ESTIMATED <= x && x <= GREATEST_ESTIMATED {
        let n = estimate(x).min(MOST_SAMPLES);
        if n as f64 * WHOLE_STEP < x {
            return n;
        }
    }
    0
}

// The steps of a spiral. More than 2,001 are not counted: row 5 refuses over 2,000 samples.
fn spiral_steps(length: f64) -> usize
    ensures value { result ≡ spiral_steps length }
    ensures small { result ≤ most_steps }
{
    let last = length - END_MARGIN;
    let counted = quarters_below(last);
    let mut u = counted as f64 * WHOLE_STEP;
    for n in counted..MOST_STEPS {
        if !(u < last) {
            return n;
        }
        u += step_at(length, u);
    }
    MOST_STEPS
}

// How many samples a geometry has: none unless it is a spiral.
#[tactic(auto, unfolding(crate::specs::Samples::sample_count))]
pub fn sample_count(g: GeomRec) -> usize
    ensures value { result ≡ sample_count g }
    ensures small { result ≤ most_counted }
{
    match g.shape {
        GeomShape::Spiral(_, _) => spiral_steps(g.length) + 1,
        GeomShape::Arc(_) | GeomShape::Line => 0,
    }
}

// How many samples the geometries before the i-th have, where the first of its own stands.
pub fn samples_before(road: &LentRoad, i: usize) -> usize
    ensures value { result ≡ samples_before road.now i }
    ensures small { result < counted_end }
{
    (0..i.min(road.geom_count()))
        .map(|k| sample_count(geom(road, k)))
        .sum()
}

// How many samples a road needs.
#[tactic(auto, unfolding(crate::specs::Samples::samples_needed))]
pub fn samples_needed(road: &LentRoad) -> usize
    ensures value { result ≡ samples_needed road.now }
    ensures small { result < counted_end }
{
    samples_before(road, road.geom_count())
}

// Whether a road needs at most 2,000 samples. It stops counting at the first geometry that passes this.
pub fn samples_fit(road: &LentRoad) -> bool
    ensures { result ≡ leb (samples_needed road.now) most_samples }
{
    let mut needed = 0;
    for i in 0..road.geom_count() {
        needed += sample_count(geom(road, i));
        if MOST_SAMPLES < needed {
            return false;
        }
    }
    true
}

impl Spiral {
    fn turn_rate(&self) -> f64
        ensures { result ≡ turn_rate self.now.geom.length self.now.k0 self.now.k1 }
    {
        let length = self.geom.length;
        if NO_TURN_LENGTH < length {
            (self.k1 - self.k0) / length
        } else {
            0.0
        }
    }

    // The heading at u: that of a curvature which goes linearly from k0 to k1.
    fn heading_at(&self, u: f64) -> f64
        ensures { result ≡ heading_at self.now.geom self.now.k0 self.now.k1 u }
    {
        self.geom.hdg + self.k0 * u + 0.5 * self.turn_rate() * u * u
    }

    pub fn first_sample(&self) -> Sample
        ensures { result ≡ first_sample self.now.geom }
    {
        Sample {
            distance: 0.0,
            x: self.geom.x,
            y: self.geom.y,
            heading: self.geom.hdg,
        }
    }

    // The next sample from the last.
    #[tactic(auto, unfolding(crate::specs::Samples::next_sample))]
    pub fn next_sample(&self, p: Sample) -> Sample
        ensures { result ≡ next_sample self.now.geom self.now.k0 self.now.k1 p }
    {
        let step = step_at(self.geom.length, p.distance);
        // before the sine and cosine, so that the next step need not wait for them
        let u = p.distance + step;
        let middle = arithmetic_sine::sin_cos(self.heading_at(p.distance + step / 2.0));
        Sample {
            distance: u,
            x: p.x + middle.cos * step,
            y: p.y + middle.sin * step,
            heading: self.heading_at(u),
        }
    }
}
