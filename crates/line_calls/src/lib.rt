// The calls of the reference line: the samples of an admitted road's spirals, and the pose of a geometry at a station.
#![tactic(auto)]

mod pose_call;
mod sample_call;
mod sampled_road;

pub use pose_call::posed;
pub use sample_call::samples;
pub use sampled_road::sampled;
