// The road's geometries.
#![tactic(auto)]

mod geometries;

pub use geometries::{geom, unused_zero};
