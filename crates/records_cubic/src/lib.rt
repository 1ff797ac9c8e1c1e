// Cubics by value, and in five numbers each.
#![tactic(auto)]

mod cubics;

pub use cubics::{Cubic, Cubics};
