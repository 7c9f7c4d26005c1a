//! What is found without a search: counts of programs whose constraints share no cell, or are nested.
ghost use Rattle.pc_program_bound.specs.Allocation.{IsProgram};

use crate::trials::numbers::{counts_text, multipliers_text};
use crate::trouble::Trouble;
use pc_nested::{is_nested, solve_nested};
use pc_program::{Solved, greedy, has_one_bits};
use pc_program_bound::Program;
use std::alloc::Global;

/// The counts of greatest worth where no two constraints share a cell.
pub(super) fn shared(alloc: Global, p: &Program) -> Result<String, Trouble>
    requires { IsProgram p.now }
{
    if !has_one_bits(p) {
        return Ok(String::from_str(alloc, "shared cells")?);
    }
    let solved = greedy(alloc, p)?;
    solved_text(alloc, &solved)
}

/// .. where of two constraints one is inside the other, or they share no cell.
pub(super) fn nested(alloc: Global, p: &Program) -> Result<String, Trouble>
    requires { IsProgram p.now }
{
    if !is_nested(p) {
        return Ok(String::from_str(alloc, "not nested")?);
    }
    let solved = solve_nested(alloc, p)?;
    solved_text(alloc, &solved)
}

fn solved_text(alloc: Global, solved: &Solved) -> Result<String, Trouble> {
    match solved {
        Solved::Best {
            counts,
            value,
            mult,
        } => {
            let counts = counts_text(alloc, counts.as_slice())?;
            let by = multipliers_text(alloc, "by", mult.by.as_slice())?;
            Ok(format!(in alloc; "counts{counts} worth {value} {by}")?)
        }
        Solved::Nothing { mult } => {
            let by = multipliers_text(alloc, "by", mult.by.as_slice())?;
            Ok(format!(in alloc; "nothing {by}")?)
        }
    }
}
