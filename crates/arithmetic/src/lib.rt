// Document 01's stand-ins for root and hypot, the root of an f32 (document 02, Point 1), and narrowing. In integer work on bit patterns, so that every answer is the same bits on every machine.
#![tactic(auto)]

mod bits;
mod narrowing;
mod root_digits;
mod square_root;

pub use narrowing::narrow;
pub use square_root::{hypot, root, root32};
