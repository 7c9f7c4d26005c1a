//! The schema file: records of comma-separated fields, one for each column.
#![tactic(auto)]

mod column;
mod domain;
mod halt;
mod kind;
mod plain;
mod schema;
mod tell;

pub use domain::whole;
pub use halt::{Halt, Wanted};
pub use plain::{reads_plain_fields, reads_plain_lines, reads_plain_text};
pub use schema::read_schema;
pub use tell::{SchemaTold, tell_schema};
