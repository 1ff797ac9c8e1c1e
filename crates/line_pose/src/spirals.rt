// A spiral's samples, as far as a lent slice holds them, and the pose between two of them. A spiral stops at its first and last sample.
ghost use Rattle.std.specs.Prelude.{◌≡◌, true, ℕ, ◌+◌, ◌-◌, ◌*◌, ◌<◌, ◌≤◌, length, drop};
ghost use Rattle.line_samples.specs.Samples.{most_counted, counted_end, sample_stride, sample_at};
ghost use Rattle.line_pose.specs.Poses.{leading, segment, fraction_of, between, spiral_pose};

use arithmetic_ranges::{blend, clamp, fraction};
use line_samples::{Pose, SAMPLE_STRIDE, Sample};
use records_lent::number;

// The samples of one geometry, from its first on, and how many it has. The count isn't the slice's length: a slice that is too short holds NaN for the rest,
// and the segment of a geometry with one sample ends at what comes after it.
#[derive(Clone, Copy)]
pub(crate) struct SpiralSamples<'a> {
    samples: &'a [f64],
    count: usize,
    ghost few: { count ≤ most_counted },
}

// How many samples make a group: they are looked at with no branch between their tests.
const GROUP: usize = 8;

// The first sample of the segment: the last leading one, but never the very last.
fn segment_of(lead: usize, n: usize) -> usize
    ensures { result ≡ segment lead n }
{
    lead.saturating_sub(1).min(n.saturating_sub(2))
}

fn fraction_of(a: f64, b: f64, d: f64) -> f64
    ensures { result ≡ fraction_of a b d }
{
    if a < b { fraction(a, b, d) } else { 0.0 }
}

fn between_samples(a: Sample, b: Sample, f: f64) -> Pose
    ensures { result ≡ between a b f }
{
    Pose {
        x: blend(a.x, b.x, f),
        y: blend(a.y, b.y, f),
        heading: blend(a.heading, b.heading, f),
    }
}

impl<'a> SpiralSamples<'a> {
    // The count samples of a geometry whose first has that place among the lent ones.
    pub(crate) fn new(lent: &'a [f64], first: usize, count: usize) -> SpiralSamples<'a>
        requires { (first < counted_end) × (count ≤ most_counted) }
        ensures own { result.samples.now ≡ drop (first * sample_stride) lent.now }
        ensures counted { result.count ≡ count }
    {
        let samples = lent.get(first * SAMPLE_STRIDE..).unwrap_or(&[]);
        SpiralSamples { samples, count }
    }

    // The k-th sample: a segment of fewer than two samples takes one past the last.
    fn sample(&self, k: usize) -> Sample
        requires { k ≤ self.now.count + 1 }
        ensures { result ≡ sample_at self.now.samples.now 0 k }
    {
        let at = k * SAMPLE_STRIDE;
        Sample {
            distance: number(self.samples, at),
            x: number(self.samples, at + 1),
            y: number(self.samples, at + 2),
            heading: number(self.samples, at + 3),
        }
    }

    // Whether the samples of the group from the k-th on all have a distance of at most d.
    fn group_leads(&self, k: usize, d: f64) -> bool
        requires { (k + 8) * sample_stride ≤ length self.now.samples.now }
        ensures { result ≡ true → (n : ℕ) → leading self.now.samples.now k d (n + 8) ≡ 8 + leading self.now.samples.now (k + 8) d n }
    {
        let at = k * SAMPLE_STRIDE;
        (0..GROUP).fold(
            true,
            |all, j| all & (self.samples[at + j * SAMPLE_STRIDE] <= d),
        )
    }

    // How many samples lead with a distance of at most d, as far as whole groups of them go: one by one a long spiral takes near twice as long.
    fn leading_in_groups(&self, d: f64) -> usize
        ensures n_value { leading self.now.samples.now 0 d self.now.count ≡ result + leading self.now.samples.now result d (self.now.count - result) }
        ensures small { result ≤ self.now.count }
    {
        let groups = self.count.min(self.samples.len() / SAMPLE_STRIDE) / GROUP;
        (0..groups)
            .find(|&group| !self.group_leads(group * GROUP, d))
            .unwrap_or(groups)
            * GROUP
    }

    // How many samples lead with a distance of at most d. Each is looked at, since the distances of a lent slice may stand in any order.
    fn leading(&self, d: f64) -> usize
        ensures value { result ≡ leading self.now.samples.now 0 d self.now.count }
        ensures small { result ≤ self.now.count }
    {
        (self.leading_in_groups(d)..self.count)
            .find(|&k| !(number(self.samples, k * SAMPLE_STRIDE) <= d))
            .unwrap_or(self.count)
    }

    // The pose at ds from the spiral's start.
    #[tactic(auto, unfolding(crate::specs::Poses::spiral_pose))]
    pub(crate) fn pose(&self, ds: f64) -> Pose
        ensures { result ≡ spiral_pose self.now.samples.now 0 self.now.count ds }
    {
        let last = self.sample(self.count.saturating_sub(1));
        let d = clamp(last.distance, ds);
        let i = segment_of(self.leading(d), self.count);
        let a = self.sample(i);
        let b = self.sample(i + 1);
        between_samples(a, b, fraction_of(a.distance, b.distance, d))
    }
}
