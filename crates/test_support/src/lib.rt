// For the programs that replay lists: the lines of a list, a text put together as its lines say, a value put at a place of memory, a count as
// a line writes it, how many lines differ, a checksum of lent memory.
#![tactic(auto)]

mod answers;
mod counts;
mod lines;
mod slots;
mod sums;
mod texts;

pub use answers::{COUNTS_FROM, count_word};
pub use counts::Counts;
pub use lines::{LINE_LENGTH, Line, line_of};
pub use slots::put;
pub use sums::checksum;
pub use texts::{TEXT_ROOM, Text, extend};
