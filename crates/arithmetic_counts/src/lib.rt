// Axis counts: a length in metres as whole tenths of a millimetre.
#![tactic(auto)]

mod axis_counts;

pub use axis_counts::counts;
