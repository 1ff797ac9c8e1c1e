// The text that the program `surface` writes for a job text.
#![tactic(auto)]

mod answers;
mod lines;
mod text;

pub use answers::answer;
pub use text::OUTPUT_NEEDED;
