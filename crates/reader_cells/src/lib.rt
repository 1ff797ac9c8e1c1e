// Cells of the job text. A function takes the whole text and a place in it, as the definitions do, and answers with the place after: by the rest of the
// text as a slice, each contract would speak of what is dropped before it, and each answer would be a number and lend the rest on.
#![tactic(auto)]

mod names;
mod values;

pub use names::{Span, name_at};
pub use values::{WHOLE_BIAS, cell_at, cell_by_number};
