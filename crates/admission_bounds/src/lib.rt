// Bounds of cubics over their reach.
#![tactic(auto)]

mod bounds;

pub use bounds::{bound, cubics_within, greatest_bound, slope_bound, slopes_within};
