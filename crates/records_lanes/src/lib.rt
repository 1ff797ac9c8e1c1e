// The lanes of a section, with their extents and heights.
#![tactic(auto)]

mod lanes;
mod sides;

pub use lanes::LentLane;
pub use sides::{LentSide, lane, side_lanes};
