//! Generated cases: rows, constraints and queries that a seed and a size determine.
#![tactic(auto)]

mod case;
mod constraint;
mod draws;
mod laws;
mod rows;
mod schema;

pub use case::generate;
pub use laws::{generated_cases_are_accepted, hidden_rows_are_possible};
