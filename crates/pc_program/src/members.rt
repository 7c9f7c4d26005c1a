ghost use Rattle.std.specs.Prelude.{◌≡◌, ◌+◌, ◌<◌, true, IfOk};
ghost use Rattle.pc_model.specs.Places.{has_bit};
ghost use Rattle.pc_program_bound.specs.Sums.{nat_at};
ghost use Rattle.pc_program_bound.specs.Allocation.{cells_of, constraints_of, IsProgram};
ghost use Rattle.pc_program.specs.Settled.{is_in, HasOneBits};
ghost use Rattle.pc_program.specs.Gathered.{AreGathered, with_cell};

use pc_num::Memory;
use pc_program_bound::Program;
use std::alloc::Global;

/// The first two cells of a constraint, where there are such.
#[derive(Clone, Copy, Debug, PartialEq, Eq)]
pub(crate) struct Members {
    pub first: Option<usize>,
    pub second: Option<usize>,
}

/// The cells of each constraint, by one pass over the cells.
#[tactic(auto, using(crate::proofs::Gathering::gathered_none))]
pub(crate) fn gather(alloc: Global, p: &Program) -> Result<Vec<Members>, Memory>
    requires program { IsProgram p.now }
    requires one_bits { HasOneBits p.now }
    ensures { IfOk result (λ found. AreGathered p.now found.items (cells_of p.now)) }
{
    let none = Members {
        first: None,
        second: None,
    };
    let mut found = vec![in alloc; none; p.least.len()]?;
    for cell in 0..p.masks.len() {
        found = with_member(p, cell, found);
    }
    Ok(found)
}

/// The same with one cell more.
fn with_member(p: &Program, cell: usize, found: Vec<Members>) -> Vec<Members>
    requires program { IsProgram p.now }
    requires one_bits { HasOneBits p.now }
    requires there { cell < cells_of p.now }
    requires before { AreGathered p.now found.items cell }
    ensures { AreGathered p.now result.items (cell + 1) }
{
    let mut found = found;
    let constraint = constraint_of(p, cell);
    let members = with_cell(found[constraint], cell);
    found[constraint] = members;
    found
}

/// The constraint that a cell is in.
fn constraint_of(p: &Program, cell: usize) -> usize
    requires one_bits { HasOneBits p.now }
    requires there { cell < cells_of p.now }
    ensures member { is_in p.now cell result ≡ true }
    ensures there { result < constraints_of p.now }
{
    lowest_bit(mask_of(p, cell))
}

fn mask_of(p: &Program, cell: usize) -> u32
    requires { cell < cells_of p.now }
    ensures { result ≡ nat_at p.now.masks cell }
{
    p.masks.as_slice()[cell]
}

#[tactic(auto, using(crate::proofs::Gathering::lowest_is_set))]
fn lowest_bit(mask: u32) -> usize
    requires { 0 < mask }
    ensures { has_bit mask result ≡ true }
{
    mask.trailing_zeros() as usize
}

fn with_cell(members: Members, cell: usize) -> Members
    ensures { result ≡ with_cell members cell }
{
    match members.first {
        None => Members {
            first: Some(cell),
            second: members.second,
        },
        Some(first) => match members.second {
            None => Members {
                first: Some(first),
                second: Some(cell),
            },
            Some(second) => Members {
                first: Some(first),
                second: Some(second),
            },
        },
    }
}
