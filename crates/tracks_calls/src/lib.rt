// The calls on a track line: tangents, pose and projection. Each checks the track whole and anew, rows 13 and 14.
#![tactic(auto)]

mod calls;
mod rows;

pub use calls::{pose_at, project, tangents};
pub use rows::checked_track;
