//! The edge of a program: its files are loaded, each once and in their order, and read; what stops it is told by a line; and
//! what it replies is written by one put.
#![tactic(auto)]

mod kept;
mod line;
mod loading;
mod reading;
mod reply;
mod stop;
mod writing;

pub use kept::Kept;
pub use line::{fault_line, malformed_line};
pub use loading::{load_bytes, load_constraints, load_limits, load_rows, load_schema, load_script};
pub use reading::{
    Limited, Listing, Observed, Script, Scripted, read_limited_keeping, read_listing,
    read_listing_keeping, read_observed, read_observed_keeping, read_queries, read_scripted,
    read_scripted_keeping,
};
pub use reply::{Ending, Reply, put_reply};
pub use stop::Stop;
pub use writing::put_text;
