use pc_num::Memory;
use std::alloc::AllocError;
use std::io;
use thiserror::Error;

/// Why something is not tried to its end.
#[derive(Clone, Copy, Debug, PartialEq, Eq, Error)]
pub(crate) enum Trouble {
    #[error("out of memory")]
    Memory,
    #[error("input or output failed")]
    Host,
    /// What is wrong with a line of a trial.
    #[error("{0}")]
    Line(&'static str),
}

impl From<AllocError> for Trouble {
    fn from(_: AllocError) -> Self {
        Trouble::Memory
    }
}

impl From<Memory> for Trouble {
    fn from(_: Memory) -> Self {
        Trouble::Memory
    }
}

impl From<io::Error> for Trouble {
    fn from(_: io::Error) -> Self {
        Trouble::Host
    }
}
