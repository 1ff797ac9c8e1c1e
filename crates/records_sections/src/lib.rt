// The sections of a road.
#![tactic(auto)]

mod sections;

pub use sections::{lane_count, section_count, section_start};
