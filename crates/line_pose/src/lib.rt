// The pose of a geometry at a station.
#![tactic(auto)]

mod bearings;
mod poses;
mod spirals;

pub use bearings::Bearing;
pub use poses::{geom_bearing, pose};
