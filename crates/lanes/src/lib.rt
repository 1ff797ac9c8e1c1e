// Heights across the road, the definitions: a side's sign and strips, a lane's own heights, profiles, the cross section.
#![tactic(auto)]

mod border_heights;
mod sides;

pub use border_heights::BorderHeights;
pub use sides::sign_of;
