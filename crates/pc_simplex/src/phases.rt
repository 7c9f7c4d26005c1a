ghost use Rattle.std.specs.Prelude.{◌≡◌, ◌<◌, ◌^◌, ℕ, List, [], All, None, IfOk};
ghost use Rattle.pc_program_bound.specs.Allocation.{IsProgram, IsBox, constraints_of};
ghost use Rattle.pc_program_bound.specs.Bound.{IsFit};
ghost use Rattle.pc_simplex_tableau.specs.Relaxation.{columns_of, ending, at_void, one_at, has_helper, phase_one, phase_two, phase_one_from, phase_two_from, first_tableau};
ghost use Rattle.pc_simplex_tableau.specs.Numbers.{first_below};
ghost use Rattle.pc_simplex_tableau.specs.Conditions.{IsSizedRow, IsSized, AreFitNumbers};
ghost use Rattle.pc_simplex_tableau.specs.Runs.{run_of};
ghost use Rattle.pc_simplex.specs.Floors.{is_overfull};
ghost use Rattle.pc_simplex.specs.Ended.{ending_of, IsSoundEnding};
ghost use Rattle.pc_simplex.specs.Phases.{is_left, ending_by, after_phase_one};

use crate::aims::{free_of_basics, with_gains};
use crate::columns::first_columns;
use crate::corner::Corner;
use crate::first::first_tableau;
use crate::left::{first_overfull, one_at};
use crate::multipliers::multipliers;
use crate::short_phases::take_short_phases;
use pc_list::Seq;
use pc_model::Mult;
use pc_num::Memory;
use pc_program_bound::Program;
use pc_simplex_tableau::{Columns, Step, Tableau, WholeRow, WholeRun, take_steps};
use std::alloc::Global;

/// What the steps of a box end in, before the width of it is asked.
#[derive(Drop)]
pub(crate) enum Ended {
    AtVertex(Seq<Step>, Corner),
    AtVoid(Seq<Step>, Mult),
    AtWide(Seq<Step>),
    AtStall(Seq<Step>),
}

/// Takes the steps of both phases of a box.
#[tactic(auto, using(crate::proofs::Floors::floors_of_box))]
pub(crate) fn take_both_phases(
    alloc: Global,
    p: &Program,
    floor: &[u64],
    cap: &[u64],
) -> Result<Ended, Memory>
    requires program { IsProgram p.now }
    requires inside { IsBox p.now floor.now cap.now }
    requires gains { All IsFit p.now.gain }
    ensures value { IfOk result (λ e. ending_of e ≡ ending p.now floor.now cap.now) }
    ensures sound { IfOk result (λ e. IsSoundEnding p.now floor.now cap.now (ending_of e)) }
{
    let columns = first_columns(alloc, p, floor, cap)?;
    match first_overfull(p, floor) {
        Some(constraint) => void_at(alloc, p, constraint),
        None => phases(alloc, p, floor, cap, columns),
    }
}

/// Takes the steps of both phases over rows in short form, or over whole rows where their numbers are not small.
fn phases(
    alloc: Global,
    p: &Program,
    floor: &[u64],
    cap: &[u64],
    columns: Columns,
) -> Result<Ended, Memory>
    requires program { IsProgram p.now }
    requires inside { IsBox p.now floor.now cap.now }
    requires gains { All IsFit p.now.gain }
    requires few { columns_of p.now < 2 ^ 32 }
    requires none { first_below (constraints_of p.now) (is_overfull p.now floor.now) ≡ None }
    requires columns { columns ≡ phase_one p.now floor.now cap.now }
    ensures value { IfOk result (λ e. ending_of e ≡ phase_one_from p.now floor.now cap.now (first_tableau p.now floor.now cap.now)) }
    ensures sound { IfOk result (λ e. IsSoundEnding p.now floor.now cap.now (ending_of e)) }
{
    match take_short_phases(alloc, p, floor, columns)? {
        Some(ended) => Ok(ended),
        None => whole_phases(alloc, p, floor, cap),
    }
}

pub(crate) fn whole_phases(
    alloc: Global,
    p: &Program,
    floor: &[u64],
    cap: &[u64],
) -> Result<Ended, Memory>
    requires program { IsProgram p.now }
    requires inside { IsBox p.now floor.now cap.now }
    requires gains { All IsFit p.now.gain }
    ensures value { IfOk result (λ e. ending_of e ≡ phase_one_from p.now floor.now cap.now (first_tableau p.now floor.now cap.now)) }
    ensures sound { IfOk result (λ e. IsSoundEnding p.now floor.now cap.now (ending_of e)) }
{
    let columns = first_columns(alloc, p, floor, cap)?;
    let tableau = first_tableau(alloc, p, floor)?;
    phase_one(alloc, p, columns, tableau)
}

fn void_at(alloc: Global, p: &Program, constraint: usize) -> Result<Ended, Memory>
    ensures { IfOk result (λ e. ending_of e ≡ at_void [] (one_at p.now constraint)) }
{
    Ok(Ended::AtVoid(Seq::new(alloc), one_at(alloc, p, constraint)?))
}

/// Takes the steps of both phases from the tableau in which the first starts.
#[tactic(auto, using(crate::proofs::PhaseEnds::rows_over))]
fn phase_one(alloc: Global, p: &Program, columns: Columns, start: Tableau) -> Result<Ended, Memory>
    requires program { IsProgram p.now }
    requires gains { All IsFit p.now.gain }
    requires count { columns.count ≡ columns_of p.now }
    requires few { columns_of p.now < 2 ^ 32 }
    requires sized { IsSized columns start }
    requires fits { AreFitNumbers start }
    ensures value { (floors caps : List ℕ) → columns ≡ phase_one p.now floors caps → IfOk result (λ e. ending_of e ≡ phase_one_from p.now floors caps start) }
    ensures sound { (floors caps : List ℕ) → columns ≡ phase_one p.now floors caps → IfOk result (λ e. IsSoundEnding p.now floors caps (ending_of e)) }
{
    let mut tableau = start;
    if !free_of_basics(&mut tableau) {
        return Ok(Ended::AtWide(Seq::new(alloc)));
    }
    match take_steps(&columns, tableau, 20_000, Seq::new(alloc))? {
        WholeRun::Ended(left, steps, tableau) => {
            after_phase_one(alloc, p, columns, left, steps, tableau)
        }
        WholeRun::Wide(steps) => Ok(Ended::AtWide(steps)),
        WholeRun::Stalled(steps) => Ok(Ended::AtStall(steps)),
    }
}

/// Where a helper is left above nothing, the constraints cannot be met; else the second phase follows.
fn after_phase_one(
    alloc: Global,
    p: &Program,
    columns: Columns,
    left: usize,
    steps: Seq<Step>,
    tableau: Tableau,
) -> Result<Ended, Memory>
    requires program { IsProgram p.now }
    requires gains { All IsFit p.now.gain }
    requires count { columns.count ≡ columns_of p.now }
    requires few { columns_of p.now < 2 ^ 32 }
    requires sized { IsSized columns tableau }
    requires fits { AreFitNumbers tableau }
    ensures value { (floors caps : List ℕ) → columns ≡ phase_one p.now floors caps → IfOk result (λ e. ending_of e ≡ after_phase_one p.now floors caps left steps tableau) }
    ensures sound { (floors caps : List ℕ) → columns ≡ phase_one p.now floors caps → IfOk result (λ e. IsSoundEnding p.now floors caps (ending_of e)) }
{
    if has_helper(&columns, &tableau) {
        let corner = Corner::whole(tableau);
        let mult = multipliers(alloc, p, &corner, 1)?;
        return Ok(Ended::AtVoid(steps, mult));
    }
    let mut columns = columns;
    columns.helper = Some(0);
    phase_two(alloc, p, columns, left, steps, tableau)
}

/// Takes the steps of the second phase, of which so many are left.
#[tactic(auto, using(crate::proofs::PhaseEnds::rows_over))]
fn phase_two(
    alloc: Global,
    p: &Program,
    columns: Columns,
    left: usize,
    steps: Seq<Step>,
    tableau: Tableau,
) -> Result<Ended, Memory>
    requires program { IsProgram p.now }
    requires gains { All IsFit p.now.gain }
    requires count { columns.count ≡ columns_of p.now }
    requires few { columns_of p.now < 2 ^ 32 }
    requires sized { IsSized columns tableau }
    requires fits { AreFitNumbers tableau }
    ensures value { (floors caps : List ℕ) → columns ≡ phase_two p.now floors caps → IfOk result (λ e. ending_of e ≡ phase_two_from p.now floors caps left steps tableau) }
    ensures sound { (floors caps : List ℕ) → columns ≡ phase_two p.now floors caps → IfOk result (λ e. IsSoundEnding p.now floors caps (ending_of e)) }
{
    let mut tableau = with_gains(alloc, p, tableau)?;
    if !free_of_basics(&mut tableau) {
        return Ok(Ended::AtWide(steps));
    }
    let run = take_steps(&columns, tableau, left, steps)?;
    Ok(ended_by(run))
}

fn ended_by(run: WholeRun) -> Ended
    ensures { ending_of result ≡ ending_by (run_of run) }
{
    match run {
        WholeRun::Ended(_left, steps, tableau) => Ended::AtVertex(steps, Corner::whole(tableau)),
        WholeRun::Wide(steps) => Ended::AtWide(steps),
        WholeRun::Stalled(steps) => Ended::AtStall(steps),
    }
}

/// Whether some helper is left above nothing.
fn has_helper(columns: &Columns, tableau: &Tableau) -> bool
    requires { IsSized columns.now tableau.now }
    ensures { result ≡ has_helper columns.now tableau.now }
{
    for row in tableau.rows.iter() {
        if is_left(columns, row) {
            return true;
        }
    }
    false
}

fn is_left(columns: &Columns, row: &WholeRow) -> bool
    requires { IsSizedRow columns.now row.now }
    ensures { result ≡ is_left columns.now row.now }
{
    if row.basic < columns.ranges.len() {
        return false;
    }
    row.numbers[columns.count] > 0
}
