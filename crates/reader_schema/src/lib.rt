// The tables of the job text as data: names, columns, kinds and limits; the tables' numbers.
#![tactic(auto)]

mod schema;
pub mod tables;

pub use schema::{count_of, kind_of, limit_of, place_of, table_name};
