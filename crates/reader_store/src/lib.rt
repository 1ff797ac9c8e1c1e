// Where the cells of a line are kept in the road's memory, and lines under their parents.
#![tactic(auto)]

mod columns;
mod layout;
mod lines;
mod memory;
mod parents;
mod progress;

// The laws of reader_laws and reader_text_laws speak of a table's rule, of a line's parent and of a section's record.
pub use columns::TableLine;
pub use layout::{Family, Rule};
pub use lines::{end_table, keep_line};
pub use parents::{Counted, Ranked, SectionRecord};
pub use progress::{Progress, Strips, start_progress};
