// Places and displacements in three f32, as src/coords.rs has them, and the points of a lent slice.
#![tactic(auto)]

mod points;
mod vectors;

pub use points::{POINT_STRIDE, coordinate, point};
pub use vectors::{Vector, place_between, vector_between};
