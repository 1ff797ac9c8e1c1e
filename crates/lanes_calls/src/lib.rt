// The calls of the lanes layer: the border list at a station, and the lane named at an offset. Each checks the road whole and anew, then its arguments.
#![tactic(auto)]

mod border_call;
mod name_call;

pub use border_call::borders;
pub use name_call::lane_named;
