ghost use Rattle.std.specs.Prelude.{◌≡◌, ◌<◌, ◌&&◌, pos, int_le, int_lt, cond, length, IfOk};
ghost use Rattle.pc_program_bound.specs.Allocation.{IsProgram};
ghost use Rattle.pc_program_bound.specs.Sums.{int_at};
ghost use Rattle.pc_branch.specs.Ends.{HasSmallGains};
ghost use Rattle.pc_branch.specs.Outcome.{IsEasyProgram};
ghost use Rattle.pc_simplex_tableau.specs.Numbers.{table};
ghost use Rattle.pc_agg.specs.Keyed.{reach_gain, avoid_cap, with_closed, tested_program};
ghost use Rattle.pc_agg_search.specs.Targets.{chosen_gain, cell_program};
ghost use Rattle.pc_agg.specs.Rungs.{program_at, IsLadder};
ghost use Rattle.pc_agg_search.specs.Problem.{IsEasyFor, IsPosed, setting_of};

use crate::ladder::{Ladder, Test};
use pc_agg_search::{Problem, chosen_gains, program_of};
use pc_cells::{Cell, Cells};
use pc_list::Seq;
use pc_model::Constraint;
use pc_num::Memory;
use pc_program_bound::Program;
use std::alloc::Global;

/// The program that tests a rung.
pub(crate) fn program_at(
    alloc: Global,
    problem: &Problem<'_>,
    ladder: &Ladder,
    place: usize,
) -> Result<Program, Memory>
    requires posed { IsPosed problem.now }
    requires keyed { IsLadder (setting_of problem.now) ladder.now }
    requires there { place < length ladder.now.rungs }
    ensures program { IfOk result (λ p. p ≡ program_at (setting_of problem.now) ladder.now place) }
    ensures is_program { IfOk result IsProgram }
    ensures small { IfOk result HasSmallGains }
    ensures nested { IsEasyFor problem.now → IfOk result IsEasyProgram }
{
    tested(alloc, problem.constraints, problem.cells, ladder, place)
}

/// The same by what the cells and the keys say alone.
fn tested(
    alloc: Global,
    constraints: &[Constraint],
    cells: &Cells,
    ladder: &Ladder,
    place: usize,
) -> Result<Program, Memory>
    requires keyed { length ladder.now.keys ≡ length cells.now.cells }
    requires there { place < length ladder.now.rungs }
    ensures { IfOk result (λ p. p ≡ tested_program constraints.now cells.now.cells ladder.now.keys (int_at ladder.now.rungs place) ladder.now.test) }
{
    let listed = cells.cells.as_slice();
    let keys = ladder.keys.as_slice();
    let rung = ladder.rungs.as_slice()[place];
    match ladder.test {
        Test::Reach => reaching(alloc, constraints, listed, keys, rung),
        Test::Avoid => avoiding(alloc, constraints, listed, keys, rung),
    }
}

/// The program that counts the rows of the chosen cells whose keys reach a rung.
fn reaching(
    alloc: Global,
    constraints: &[Constraint],
    cells: &[Cell],
    keys: &[i128],
    rung: i128,
) -> Result<Program, Memory>
    requires keyed { length keys.now ≡ length cells.now }
    ensures { IfOk result (λ p. p ≡ cell_program constraints.now cells.now (table (length cells.now) (reach_gain cells.now keys.now rung))) }
{
    let gains = reach_gains(alloc, cells, keys, rung)?;
    program_of(alloc, constraints, cells, gains)
}

#[tactic(auto, using(pc_simplex_tableau::proofs::Tables::table_steps))]
fn reach_gains(
    alloc: Global,
    cells: &[Cell],
    keys: &[i128],
    rung: i128,
) -> Result<Seq<i128>, Memory>
    requires keyed { length keys.now ≡ length cells.now }
    ensures { IfOk result (λ gains. gains ≡ table (length cells.now) (reach_gain cells.now keys.now rung)) }
{
    let mut gains = Seq::new(alloc);
    for cell in 0..cells.len() {
        gains.push(gain_at(cells[cell].chosen, keys[cell], rung))?;
    }
    Ok(gains)
}

fn gain_at(chosen: bool, key: i128, rung: i128) -> i128
    ensures { result ≡ cond (chosen && int_le rung key) (pos 1) (pos 0) }
{
    if chosen && rung <= key {
        return 1;
    }
    0
}

/// The program that counts the chosen rows, with none in the cells whose keys fall short of a rung.
fn avoiding(
    alloc: Global,
    constraints: &[Constraint],
    cells: &[Cell],
    keys: &[i128],
    rung: i128,
) -> Result<Program, Memory>
    requires keyed { length keys.now ≡ length cells.now }
    ensures { IfOk result (λ p. p ≡ with_closed (cell_program constraints.now cells.now (table (length cells.now) (chosen_gain cells.now (pos 1)))) cells.now keys.now rung) }
{
    let gains = chosen_gains(alloc, cells, 1)?;
    let open = program_of(alloc, constraints, cells, gains)?;
    let cap = open_caps(alloc, cells, keys, open.cap.as_slice(), rung)?;
    let mut program = open;
    program.cap = cap;
    Ok(program)
}

#[tactic(auto, using(pc_simplex_tableau::proofs::Tables::table_steps))]
fn open_caps(
    alloc: Global,
    cells: &[Cell],
    keys: &[i128],
    caps: &[u64],
    rung: i128,
) -> Result<Seq<u64>, Memory>
    requires keyed { length keys.now ≡ length cells.now }
    requires capped { length caps.now ≡ length cells.now }
    ensures { IfOk result (λ left. left ≡ table (length cells.now) (avoid_cap cells.now keys.now caps.now rung)) }
{
    let mut left = Seq::new(alloc);
    for cell in 0..cells.len() {
        left.push(cap_at(cells[cell].chosen, keys[cell], caps[cell], rung))?;
    }
    Ok(left)
}

fn cap_at(chosen: bool, key: i128, cap: u64, rung: i128) -> u64
    ensures { result ≡ cond (chosen && int_lt key rung) 0 cap }
{
    if chosen && key < rung {
        return 0;
    }
    cap
}
