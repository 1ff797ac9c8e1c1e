// Row 4: profiles and strips.
#![tactic(auto)]

mod shapes;

pub use shapes::{profiles_limited, strips_limited};
