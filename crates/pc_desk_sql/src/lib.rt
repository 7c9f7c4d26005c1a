//! SQL that tests constraints on a table: one statement, with an answer for the schema and one for each constraint.
#![tactic(auto)]

mod claims;
mod conditions;
mod laws;
mod readings;
mod statement;
mod texts;

pub use laws::{none_is_dropped, parts_are_quoted_each, statement_counts_as_try};
pub use statement::sql_of;
