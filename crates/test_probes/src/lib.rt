// A second C interface, for the comparison and the benchmark of the tools alone: functions that no controller calls, compared and timed without a check of the road.
#![tactic(auto)]

mod across;
mod along;
mod angles;
mod curves;

pub use across::{probe_across, probe_lane};
pub use along::probe_pose;
pub use angles::probe_sin_cos;
pub use curves::{probe_active, probe_eval, probe_slope};
