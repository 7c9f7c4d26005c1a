ghost use Rattle.std.specs.Prelude.{◌<◌, ℕ, All, IfOk};
ghost use Rattle.pc_program_bound.specs.Allocation.{constraints_of, IsProgram};
ghost use Rattle.pc_program.specs.Solved.{IsSolved, IsSmall, AreFitMultipliers};
ghost use Rattle.pc_nested.specs.Nested.{IsNested};
ghost use Rattle.pc_nested.specs.Narrowed.{ComesBefore, IsNarrowing, places_of};
ghost use Rattle.pc_nested.specs.Sized.{IsAmong};
ghost use Rattle.pc_nested.specs.Ordered.{IsStopped};

use crate::counting::{chosen, worth_of};
use crate::narrowing::Narrowing;
use crate::ordering::{Narrowed, narrow_all};
use crate::pricing::undo_all;
use crate::starting::{no_prices, one_price, sign_of, without_prices};
use pc_model::Mult;
use pc_num::Memory;
use pc_program::Solved;
use pc_program_bound::Program;
use std::alloc::Global;

/// The allocation of greatest worth of a program of whose constraints any two share no cell or one is inside the other,
/// with multipliers that prove it, or multipliers that show that there is none.
pub fn solve_nested(alloc: Global, p: &Program) -> Result<Solved, Memory>
    requires program { IsProgram p.now }
    requires nested { IsNested p.now }
    ensures solved { IfOk result (IsSolved p.now) }
    ensures small { IfOk result IsSmall }
    ensures fits { IfOk result AreFitMultipliers }
{
    match narrow_all(alloc, p)? {
        Narrowed::Whole { narrowing } => best(alloc, p, narrowing),
        Narrowed::Stopped { narrowing, place } => nothing(alloc, p, narrowing, place),
    }
}

/// All constraints are met: each cell is full where its rows are worth something, and else at its low end.
fn best(alloc: Global, p: &Program, narrowing: Narrowing) -> Result<Solved, Memory>
    requires program { IsProgram p.now }
    requires nested { IsNested p.now }
    requires narrowing { IsNarrowing p.now narrowing.steps narrowing.lows narrowing.highs }
    requires whole { (j : ℕ) → j < constraints_of p.now → IsAmong (places_of narrowing.steps) j }
    ensures solved { IfOk result (IsSolved p.now) }
    ensures small { IfOk result IsSmall }
    ensures fits { IfOk result AreFitMultipliers }
{
    let counts = chosen(
        alloc,
        p,
        narrowing.lows.as_slice(),
        narrowing.highs.as_slice(),
    )?;
    let value = worth_of(p, counts.as_slice());
    let start = no_prices(alloc, p)?;
    let pricing = undo_all(p, narrowing.steps.as_slice(), start);
    Ok(Solved::Best {
        counts,
        value,
        mult: Mult {
            by: pricing.by,
            den: 1,
        },
    })
}

/// A constraint cannot be met: its multiplier is -1 or 1, and the others' are those of the program without gains.
fn nothing(alloc: Global, p: &Program, narrowing: Narrowing, place: usize) -> Result<Solved, Memory>
    requires program { IsProgram p.now }
    requires nested { IsNested p.now }
    requires there { place < constraints_of p.now }
    requires narrowing { IsNarrowing p.now narrowing.steps narrowing.lows narrowing.highs }
    requires order { All (λ step. ComesBefore p.now step.place place) narrowing.steps }
    requires stopped { IsStopped p.now place narrowing.lows narrowing.highs }
    ensures solved { IfOk result (IsSolved p.now) }
    ensures small { IfOk result IsSmall }
    ensures fits { IfOk result AreFitMultipliers }
{
    let sign = sign_of(p, place, narrowing.highs.as_slice());
    let steps = without_prices(alloc, narrowing.steps.as_slice())?;
    let start = one_price(alloc, p, place, sign)?;
    let pricing = undo_all(p, steps.as_slice(), start);
    Ok(Solved::Nothing {
        mult: Mult {
            by: pricing.by,
            den: 1,
        },
    })
}
