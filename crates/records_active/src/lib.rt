// Which record is active at a station, and its value and slope.
#![tactic(auto)]

mod scan;
mod stations;

pub use scan::{ACTIVE_MARGIN, Starting, active, active_cubic, slope, value};
pub use stations::{geom_index, profile_index, section_index};
