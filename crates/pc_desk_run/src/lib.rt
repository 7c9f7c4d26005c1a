//! The run of `pc_desk`, from the bytes of its files to those on standard output and on standard error.
#![tactic(auto)]

mod ended;
mod form;
mod input;
mod line;
mod note;
mod reasons;
mod recalls;
mod reply;
mod run;
mod session;
mod settled;
mod unwritten;
mod weighs;
mod written;

pub use ended::Ended;
pub use pc_desk_answers::{Unwatched, Watch};
pub use run::desk;
