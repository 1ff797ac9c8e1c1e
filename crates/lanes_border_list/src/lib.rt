// A section's borders in a lent list.
#![tactic(auto)]

mod border_list;

pub use border_list::list_borders;
