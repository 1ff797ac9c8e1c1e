// The refusals of documents 01 and 02, their numbers, and how rows make an answer.
#![tactic(auto)]

mod answers;
mod refusals;

pub use answers::answer_number;
pub use refusals::Refusal;
