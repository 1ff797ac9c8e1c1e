// The job text, read into lent memory: rows 1 to 5 of document 01.
#![tactic(auto)]

mod job;
mod tables;

pub use job::{TEXT_MOST, read};
