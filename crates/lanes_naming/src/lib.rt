// Which lane lies at an offset.
#![tactic(auto)]

mod naming;

pub use naming::{lane_at, lane_named_in};
