//! The observed rows: how a file spells them, where they stand, and what a query makes of them.
#![tactic(auto)]

mod asked;
mod case;
mod cell;
mod column;
mod fold;
mod groups;
mod halt;
mod header;
mod numbers;
mod plain;
mod read;
mod record;
mod rows;
mod tell;

pub use case::Case;
pub use halt::Halt;
pub use plain::{reads_plain_fields, reads_plain_lines, reads_plain_text};
pub use read::read_rows;
pub use record::{read_row, row_of};
pub use rows::Rows;
pub use tell::{RowsTold, tell_rows};
