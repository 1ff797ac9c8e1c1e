// Row 4: the limits of geometries, of what runs along the road, and of the whole road.
#![tactic(auto)]

mod geometries;
mod limits;

pub use geometries::{elevations_limited, geoms_limited};
pub use limits::limited;
