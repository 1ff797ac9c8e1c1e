// Numbers, words, parts, records and lines of lent slices.
// Every accessor is total: past the end of a slice a number is NaN, a word 0 and a part shorter, so no caller needs a bound.
#![tactic(auto)]

mod access;
mod lines;
mod records;

pub use access::{number, number_in, part, raw_word, word};
pub use lines::{Line, Lines};
pub use records::{Record, Records};
