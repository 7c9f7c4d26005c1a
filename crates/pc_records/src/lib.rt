//! The records of a text of comma-separated fields, one after the other.
#![tactic(auto)]

mod laws;
mod table;

pub use laws::{lines_are_records, plain_lines_are_records};
pub use table::{Table, field};
