ghost use Rattle.std.specs.Prelude.{◌≡◌, ◌≤◌, nat_abs, pos, cond, length, replicate, All, IfOk};
ghost use Rattle.pc_program_bound.specs.Allocation.{IsProgram};
ghost use Rattle.pc_branch.specs.Ends.{HasSmallGains};
ghost use Rattle.pc_branch.specs.Outcome.{IsEasyProgram};
ghost use Rattle.pc_simplex_tableau.specs.Numbers.{table};
ghost use Rattle.pc_proof.specs.Setting.{on_chosen, program_for};
ghost use Rattle.pc_agg_search.specs.Targets.{chosen_gain, cell_program};
ghost use Rattle.pc_agg_search.specs.Limits.{greatest_gain};
ghost use Rattle.pc_agg_search.specs.Problem.{IsEasyFor, IsPosed, gained_program, setting_of};

use crate::problem::Problem;
use crate::programs::program_of;
use pc_cells::{Cell, Cells};
use pc_list::Seq;
use pc_model::Constraint;
use pc_num::Memory;
use pc_program_bound::Program;
use std::alloc::Global;

/// The program of the cells' counts with these gains.
pub fn gained_program(
    alloc: Global,
    problem: &Problem<'_>,
    gains: Seq<i128>,
) -> Result<Program, Memory>
    requires posed { IsPosed problem.now }
    requires sized { length gains ≡ length problem.now.cells.now.cells }
    requires small_gains { All (λ gain. nat_abs gain ≤ greatest_gain) gains }
    ensures program { IfOk result (λ p. p ≡ gained_program problem.now gains) }
    ensures is_program { IfOk result IsProgram }
    ensures small { IfOk result HasSmallGains }
    ensures nested { IsEasyFor problem.now → IfOk result IsEasyProgram }
{
    program_of(
        alloc,
        problem.constraints,
        problem.cells.cells.as_slice(),
        gains,
    )
}

/// The program whose chosen cells have this gain, and the others none.
pub fn chosen_program(alloc: Global, problem: &Problem<'_>, gain: i128) -> Result<Program, Memory>
    requires posed { IsPosed problem.now }
    requires gain { nat_abs gain ≤ greatest_gain }
    ensures program { IfOk result (λ p. p ≡ program_for (setting_of problem.now) (on_chosen (λ _. gain))) }
    ensures is_program { IfOk result IsProgram }
    ensures small { IfOk result HasSmallGains }
    ensures nested { IsEasyFor problem.now → IfOk result IsEasyProgram }
{
    chosen_alone(alloc, problem.constraints, problem.cells, gain)
}

/// The same by what the cells say alone.
fn chosen_alone(
    alloc: Global,
    constraints: &[Constraint],
    cells: &Cells,
    gain: i128,
) -> Result<Program, Memory>
    ensures { IfOk result (λ p. p ≡ cell_program constraints.now cells.now.cells (table (length cells.now.cells) (chosen_gain cells.now.cells gain))) }
{
    let listed = cells.cells.as_slice();
    let gains = chosen_gains(alloc, listed, gain)?;
    program_of(alloc, constraints, listed, gains)
}

/// The program all of whose cells have this gain.
pub fn total_program(alloc: Global, problem: &Problem<'_>, gain: i128) -> Result<Program, Memory>
    requires posed { IsPosed problem.now }
    requires gain { nat_abs gain ≤ greatest_gain }
    ensures program { IfOk result (λ p. p ≡ program_for (setting_of problem.now) (λ _. gain)) }
    ensures is_program { IfOk result IsProgram }
    ensures small { IfOk result HasSmallGains }
    ensures nested { IsEasyFor problem.now → IfOk result IsEasyProgram }
{
    total_alone(alloc, problem.constraints, problem.cells, gain)
}

/// The same by what the cells say alone.
fn total_alone(
    alloc: Global,
    constraints: &[Constraint],
    cells: &Cells,
    gain: i128,
) -> Result<Program, Memory>
    ensures { IfOk result (λ p. p ≡ cell_program constraints.now cells.now.cells (replicate (length cells.now.cells) gain)) }
{
    let listed = cells.cells.as_slice();
    let gains = equal_gains(alloc, listed.len(), gain)?;
    program_of(alloc, constraints, listed, gains)
}

/// The gain for each chosen cell, and 0 for the others.
#[tactic(auto, using(pc_simplex_tableau::proofs::Tables::table_steps))]
pub fn chosen_gains(alloc: Global, cells: &[Cell], gain: i128) -> Result<Seq<i128>, Memory>
    ensures { IfOk result (λ gains. gains ≡ table (length cells.now) (chosen_gain cells.now gain)) }
{
    let mut gains = Seq::new(alloc);
    for cell in 0..cells.len() {
        gains.push(if_chosen(cells[cell].chosen, gain))?;
    }
    Ok(gains)
}

fn if_chosen(chosen: bool, gain: i128) -> i128
    ensures { result ≡ cond chosen gain (pos 0) }
{
    if chosen {
        return gain;
    }
    0
}

/// The same gain for each of so many cells.
pub fn equal_gains(alloc: Global, count: usize, gain: i128) -> Result<Seq<i128>, Memory>
    ensures { IfOk result (λ gains. gains ≡ replicate count gain) }
{
    let gains = vec![in alloc; gain; count]?;
    Ok(Seq::from_vec(gains))
}
