// A place on the reference line and the heading there, or a refusal.
// Slices are lent and no `SampledRoad`: they are one only once `sampled` has answered it.
ghost use Rattle.std.specs.Prelude.{◌≡◌};
ghost use Rattle.refusals.specs.Answer.{answered};
ghost use Rattle.line_calls.specs.PoseCall.{pose_call};

use crate::sampled_road::sampled;
use admission_arguments::on_road;
use line_pose::pose;
use line_samples::Pose;
use refusals::Refusal;

// The pose of a geometry at s, with the lent samples; rows 3, 4, 5, 6, then 3 for a geometry that the road does not have, then 7.
#[tactic(auto, unfolding(crate::specs::PoseCall::pose_call))]
pub fn posed(
    words: &[u16],
    numbers: &[f64],
    samples: &[f64],
    geometry: usize,
    s: f64,
) -> Result<Pose, Refusal>
    ensures { answered result ≡ pose_call words.now numbers.now samples.now geometry s }
{
    let lent = sampled(words, numbers, samples)?;
    if lent.road.geom_count() <= geometry {
        return Err(Refusal::Structure);
    }
    if !on_road(&lent.road, s) {
        return Err(Refusal::Station);
    }
    Ok(pose(&lent, geometry, s))
}
