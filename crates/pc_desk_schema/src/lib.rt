//! A draft of a schema for a file of comma-separated values with a header, and what is said of the columns.
#![tactic(auto)]

mod column;
mod dates;
mod draft;
mod fits;
mod found;
mod law;
mod lines;
mod names;
mod numbers;
mod said;
mod table;
mod written;

pub use draft::{Draft, draft_schema};
pub use law::{drafts_read_the_file, what_is_left_out_is_told, what_is_told_is_so};
pub use lines::remark_lines;
pub use said::{Odd, Remark, Said};
pub use written::schema_text;
