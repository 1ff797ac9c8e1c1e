// The lines of a table: its line of names, and a line of its values.
// A text and a place in it are two parameters; why, reader_cells says.
#![tactic(auto)]

mod columns;
mod names_line;
mod places;
mod values_line;

pub use columns::{Cells, Order, put};
pub use names_line::head_at;
pub use values_line::values_at;
