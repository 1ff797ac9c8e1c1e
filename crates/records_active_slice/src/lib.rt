// The active record of a lent slice of cubics.
#![tactic(auto)]

mod active_cubics;

pub use active_cubics::active_in;
