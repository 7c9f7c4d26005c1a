//! Programs by their lists.
use pc_list::Seq;
use pc_program_bound::Program;
use std::alloc::{AllocError, Global};

/// The lists of a program.
#[derive(Clone, Copy)]
pub(crate) struct Lists<'a> {
    pub(crate) masks: &'a [u32],
    pub(crate) least: &'a [u64],
    pub(crate) most: &'a [u64],
    pub(crate) floor: &'a [u64],
    pub(crate) cap: &'a [u64],
    pub(crate) gain: &'a [i128],
}

impl Lists<'_> {
    pub(crate) fn program(&self, alloc: Global) -> Result<Program, AllocError> {
        Ok(Program {
            masks: Seq::from_slice(alloc, self.masks)?,
            least: Seq::from_slice(alloc, self.least)?,
            most: Seq::from_slice(alloc, self.most)?,
            floor: Seq::from_slice(alloc, self.floor)?,
            cap: Seq::from_slice(alloc, self.cap)?,
            gain: Seq::from_slice(alloc, self.gain)?,
        })
    }
}
