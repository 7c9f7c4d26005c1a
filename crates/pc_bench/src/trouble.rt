use pc_model::Refusal;
use pc_num::Memory;
use std::alloc::{AllocError, AllocFailed};
use std::io;
use thiserror::Error;

/// Why a run ends without its line.
#[derive(Clone, Copy, Debug, PartialEq, Eq, Error)]
pub(crate) enum Trouble {
    #[error("usage: pc_bench cells FAMILY CONSTRAINTS TIMES | search FILE NODES | trials [then ..], with 1 to 100000 nodes")]
    Usage,
    #[error("a generated file is refused")]
    Refused,
    #[error("the file is no text of a program")]
    Text,
    #[error("the program has ends out of order or too great, or more than 20 constraints")]
    Program,
    #[error("the gains are too great")]
    Gains,
    #[error("no such question")]
    Question,
    #[error("no ground of questions")]
    Ground,
    #[error("the leaves are not one more than the cuts")]
    Cuts,
    #[error("out of memory")]
    Memory,
    #[error("input or output failed")]
    Host,
}

impl Trouble {
    /// The status that the run ends with.
    pub(crate) fn status(&self) -> u8 {
        match self {
            Trouble::Usage => 2,
            Trouble::Refused | Trouble::Text | Trouble::Program | Trouble::Gains => 3,
            Trouble::Question | Trouble::Ground | Trouble::Cuts => 3,
            Trouble::Host => 5,
            Trouble::Memory => 6,
        }
    }
}

impl From<AllocError> for Trouble {
    fn from(_: AllocError) -> Self {
        Trouble::Memory
    }
}

impl<T: Drop> From<AllocFailed<T>> for Trouble {
    fn from(_: AllocFailed<T>) -> Self {
        Trouble::Memory
    }
}

impl From<Memory> for Trouble {
    fn from(_: Memory) -> Self {
        Trouble::Memory
    }
}

impl From<io::Error> for Trouble {
    fn from(_: io::Error) -> Self {
        Trouble::Host
    }
}

impl From<Refusal> for Trouble {
    fn from(refusal: Refusal) -> Self {
        match refusal {
            Refusal::Fault(_) => Trouble::Refused,
            Refusal::Memory => Trouble::Memory,
        }
    }
}
