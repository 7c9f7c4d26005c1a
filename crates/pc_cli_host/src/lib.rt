//! The files and the standard output of the system, as the outside that a command runs over.
#![tactic(auto)]

mod args;
mod reading;
mod shelf;
mod sink;
mod system;
mod writing;

pub use args::words;
pub use shelf::{HostShelf, Opens};
pub use sink::{HostSink, Steady};
pub use system::SystemFiles;
