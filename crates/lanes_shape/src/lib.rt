// The height by profiles, the height by the cross section, and both together.
#![tactic(auto)]

mod lateral;
mod profiles;
mod strips;

pub use lateral::{flat_across, height_toward};
pub use profiles::shape_at;
pub use strips::cross_height;
