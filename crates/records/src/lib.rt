// A road in two lent slices: its layout, the records by value, and the nested lists that it stands for.
#![tactic(auto)]

mod heights;
pub mod layout;
mod marks;
mod points;
mod road;

pub use heights::Heights;
pub use points::{
    GeomRec, GeomShape, HeightDef, LanePlace, Mark, Point, RefPoint, STRAIGHT_CURVATURE,
};
pub use road::LentRoad;
