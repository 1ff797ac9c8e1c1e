// The lateral records: profiles, shapes and strips.
#![tactic(auto)]

mod profiles;
mod strips;

pub use profiles::{profile_count, profile_start, shapes};
pub use strips::{LentStrip, strip};
