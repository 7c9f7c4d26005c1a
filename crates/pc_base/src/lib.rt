//! What a program reads from and writes to, the statuses that it ends with, and stand-ins in memory for tests.
#![tactic(auto)]

mod log_shelf;
mod memory_shelf;
mod memory_sink;
mod outside;
mod status;

pub use log_shelf::{LogShelf, loads_are_logged};
pub use memory_shelf::MemShelf;
pub use memory_sink::MemSink;
pub use outside::{Loaded, Put, Shelf, Sink};
pub use status::Status;
