//! Constraints held against a table: what each speaks of in it, and what breaks it; and the classes of rows that they let be lost.
#![tactic(auto)]

mod beside;
mod counts;
mod laws;
mod opened;
mod opening;
mod shown;
mod title;
mod tried;
mod written;

pub use beside::opening_beside;
pub use laws::{
    kept_tables_are_possible, masks_tell_constraints, opening_queries_are_read_back,
    openings_are_read_back, trials_are_read_back,
};
pub use opened::openings_sheet;
pub use opening::{Opening, openings};
pub use shown::sheet_of;
pub use tried::{Trial, Tried, try_rows};
pub use written::put_written_name;
