// Track lines: `Polyline` of src/geometry.rs over a lent slice of points, three f32 each. Total over any slice; the calls that refuse are in tracks_calls.
#![tactic(auto)]

mod lengths;
mod lines;
mod poses;
mod projections;
mod segments;
mod tangents;

pub use lines::Track;
pub use poses::{Spot, TrackPose};
pub use projections::Projection;
pub use segments::Segment;
