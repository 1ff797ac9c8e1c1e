// Along a road, which the C interface lends as its two slices: its reference line.
ghost use Rattle.std.specs.Prelude.{◌≡◌};
ghost use Rattle.records.specs.Roads.{lent_road};
ghost use Rattle.line_pose.specs.Poses.{pose_of, pose_list};

use line_samples::SampledRoad;
use records::LentRoad;

#[unsafe(no_mangle)]
pub extern "C" fn probe_pose(
    words: &[u16],
    numbers: &[f64],
    samples: &[f64],
    geometry: usize,
    s: f64,
    pose: &mut [f64; 3],
)
    ensures { pose.new ≡ pose_list (pose_of (lent_road words numbers) samples.now geometry s) }
{
    let road = LentRoad::new(words, numbers);
    let p = line_pose::pose(&SampledRoad { road, samples }, geometry, s);
    // riftkettle has this as a function of its own, and says at it why no `From` serves both
    *pose = [p.x, p.y, p.heading];
}
