// The samples of spirals: how many a road needs, and each from the last.
#![tactic(auto)]

mod points;
mod sampled;
mod samples;

pub use points::{Pose, SAMPLE_STRIDE, Sample, Spiral};
pub use sampled::SampledRoad;
pub use samples::{SAMPLES_NEEDED, sample_count, samples_before, samples_fit, samples_needed};
