//! A plain search over all counts of small programs, and numbers to draw such programs by.
ghost use Rattle.std.specs.Prelude.{◌<◌};

use crate::lists::Lists;
use pc_program_bound::Program;
use std::alloc::{AllocError, Global};

/// Numbers of a fixed generator.
#[derive(Drop)]
pub(crate) struct Draws {
    pub(crate) state: u64,
}

impl Draws {
    /// A number below the limit.
    pub(crate) fn below(&mut self, limit: u64) -> u64
        requires { 0 < limit }
        ensures { result < limit }
    {
        self.state = self
            .state
            .wrapping_mul(6364136223846793005)
            .wrapping_add(1442695040888963407);
        (self.state >> 33) % limit
    }
}

/// A program of at most four cells and three constraints, and how many of both it has.
#[derive(Clone, Copy)]
pub(crate) struct Small {
    pub(crate) cells: usize,
    pub(crate) constraints: usize,
    pub(crate) masks: [u32; 4],
    pub(crate) least: [u64; 3],
    pub(crate) most: [u64; 3],
    pub(crate) floor: [u64; 4],
    pub(crate) cap: [u64; 4],
    pub(crate) gain: [i128; 4],
}

impl Small {
    pub(crate) fn empty() -> Small {
        Small {
            cells: 0,
            constraints: 0,
            masks: [0; 4],
            least: [0; 3],
            most: [0; 3],
            floor: [0; 4],
            cap: [0; 4],
            gain: [0; 4],
        }
    }

    pub(crate) fn program(&self, alloc: Global) -> Result<Program, AllocError> {
        let cells = self.cells.min(4);
        let constraints = self.constraints.min(3);
        let lists = Lists {
            masks: &self.masks[..cells],
            least: &self.least[..constraints],
            most: &self.most[..constraints],
            floor: &self.floor[..cells],
            cap: &self.cap[..cells],
            gain: &self.gain[..cells],
        };
        lists.program(alloc)
    }
}

/// The greatest worth of all lists of counts that the program allows, of which none is above 3.
pub(crate) fn greatest(p: &Program) -> Option<i128> {
    let mut best = None;
    for number in 0..256u64 {
        let counts = [number % 4, number / 4 % 4, number / 16 % 4, number / 64];
        if is_lawful(p, &counts) {
            best = Some(worth(p, &counts).max(best.unwrap_or(i128::MIN)));
        }
    }
    best
}

/// Whether each count is in its range, and so are their totals.
fn is_lawful(p: &Program, counts: &[u64]) -> bool {
    are_ranges_met(p, counts) && are_totals_met(p, counts)
}

fn are_ranges_met(p: &Program, counts: &[u64]) -> bool {
    for ((floor, cap), count) in p
        .floor
        .as_slice()
        .iter()
        .zip(p.cap.as_slice().iter())
        .zip(counts.iter())
    {
        if count < floor || count > cap {
            return false;
        }
    }
    true
}

fn are_totals_met(p: &Program, counts: &[u64]) -> bool {
    let mut bit = 1u32;
    for (least, most) in p.least.as_slice().iter().zip(p.most.as_slice().iter()) {
        let total = total(p, counts, bit);
        if total < *least || total > *most {
            return false;
        }
        bit = bit.wrapping_mul(2);
    }
    true
}

/// How many there are in the cells whose masks have the bit.
pub(crate) fn total(p: &Program, counts: &[u64], bit: u32) -> u64 {
    let mut total = 0u64;
    for (mask, count) in p.masks.as_slice().iter().zip(counts.iter()) {
        if mask & bit != 0 {
            total = total.saturating_add(*count);
        }
    }
    total
}

/// What counts are worth, by the formula alone.
pub(crate) fn worth(p: &Program, counts: &[u64]) -> i128 {
    let mut worth = 0i128;
    for (gain, count) in p.gain.as_slice().iter().zip(counts.iter()) {
        worth = worth.saturating_add(gain.saturating_mul(*count as i128));
    }
    worth
}
