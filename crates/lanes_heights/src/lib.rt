// Heights of lanes: a lane's own, those at its borders, and the height across it.
#![tactic(auto)]

mod across;
mod border_heights;
mod fractions;
mod own_heights;
mod raised;

pub use across::Across;
pub use border_heights::lane_across;
pub use fractions::{height_across, height_within};
pub use own_heights::height_at;
pub use raised::section_raised;
