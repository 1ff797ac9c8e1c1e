// The call `admit`: rows 3, 4 and 5 of document 01, the whole road for each row in turn.
#![tactic(auto)]

mod admit_call;

pub use admit_call::admit;
