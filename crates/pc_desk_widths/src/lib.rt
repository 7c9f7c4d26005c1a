//! The ranges of a question as constraints stand and under each change of one limit: as a table of findings, and as bars.
#![tactic(auto)]

mod cells;
mod laws;
mod orders;
mod picture;
mod pieces;
mod ranges;
mod sheet;
mod texts;
mod widths;

pub use laws::{pieces_tell_both_ranges, weighed_tables_are_read_back};
pub use orders::orders_of;
pub use picture::{tornado, tornado_legend};
pub use sheet::weigh_sheet;
