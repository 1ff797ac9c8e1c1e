// Where the lanes of a section lie across the road. A section is asked for by its index; nothing here checks the road.
#![tactic(auto)]

mod borders;
mod sides;

pub use borders::{LaneBorders, base_at, lane_borders, section_lanes};
pub use sides::SideAt;
