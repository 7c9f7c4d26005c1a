ghost use Rattle.std.specs.Prelude.{◌≡◌, ◌≤◌, ◌++◌, pos, ◌<ℤ◌, ◌*ℤ◌, All, IfOk, OnOk, count_by, length, map};
ghost use Rattle.pc_model.specs.declared.constraint.Constraint.{Constraint};
ghost use Rattle.pc_model.specs.declared.row.Run.{Run};
ghost use Rattle.pc_model.specs.Accepted.{frequency_limit};
ghost use Rattle.pc_model.specs.Possible.{count_of};
ghost use Rattle.pc_model.specs.Runs.{rows_of};
ghost use Rattle.pc_desk_parts.specs.Counts.{MayStep, counts_of};
ghost use Rattle.pc_desk_parts.specs.Ends.{adds_by, adds_of, is_told, is_told_by};
ghost use Rattle.pc_desk_parts.specs.Lost.{lost_part, lost_parts};

use crate::asked::{Asked, Reached};
use crate::holds::{held_of, places_under};
use crate::part::{Adds, Part};
use crate::pulls::{Way, stand_of, way_for, worth};
use crate::rows::{is_counted, number_of};
use crate::stands::{Stand, is_at};
use pc_list::Seq;
use pc_model::{Constraint, Row, Run};
use pc_num::Memory;
use std::alloc::Global;

/// A part for each run that is told, in their order.
#[tactic(auto, using(crate::proofs::Runs::steps))]
pub(crate) fn lost_parts(
    alloc: Global,
    ask: &Asked,
    reached: &Reached,
    counts: &[u64],
) -> Result<Vec<Part>, Memory>
    requires positive { pos 0 <ℤ reached.now.value.den }
    requires counted { counts.now ≡ counts_of ask.now.constraints.now (rows_of reached.now.runs.now) }
    requires inside { All (λ (run : Run). MayStep ask.now.query.now.column run.row) reached.now.runs.now }
    ensures { IfOk result (λ parts. parts.items ≡ lost_parts ask.now reached.now) }
{
    let mut parts = Vec::new(alloc);
    for run in reached.runs {
        if is_told(ask, reached, &run.row) {
            parts.push(lost_part(alloc, ask, reached, counts, run)?)?;
        }
    }
    Ok(parts)
}

fn lost_part(
    alloc: Global,
    ask: &Asked,
    reached: &Reached,
    counts: &[u64],
    run: &Run,
) -> Result<Part, Memory>
    requires positive { pos 0 <ℤ reached.now.value.den }
    requires counted { counts.now ≡ counts_of ask.now.constraints.now (rows_of reached.now.runs.now) }
    requires inside { MayStep ask.now.query.now.column run.now.row }
    ensures { IfOk result (λ part. part ≡ lost_part ask.now reached.now run.now) }
{
    let row = &run.row;
    let under = places_under(alloc, ask.constraints, row)?;
    let held = held_of(alloc, ask, reached, counts, row)?;
    Ok(Part {
        rows: run.times,
        value: number_of(ask.query, row),
        adds: adds_of(ask, reached, run.times, row),
        under: Some(under),
        held,
    })
}

fn is_told(ask: &Asked, reached: &Reached, row: &Row) -> bool
    requires { pos 0 <ℤ reached.now.value.den }
    ensures { result ≡ is_told ask.now reached.now row.now }
{
    is_counted(ask.query, ask.name, row) && is_told_by(way_for(ask), stand_of(ask, reached, row))
}

fn is_told_by(way: Way, stand: Stand) -> bool
    ensures { result ≡ is_told_by way stand }
{
    match way {
        Way::Adding => true,
        Way::Being => is_at(stand),
        Way::Standing => true,
    }
}

fn adds_of(ask: &Asked, reached: &Reached, times: u64, row: &Row) -> Adds
    requires { pos 0 <ℤ reached.now.value.den }
    ensures { result ≡ adds_of ask.now reached.now times row.now }
{
    let amount = times_of(times, worth(ask.query, row));
    adds_by(way_for(ask), stand_of(ask, reached, row), amount)
}

fn times_of(times: u64, number: i64) -> i128
    ensures { result ≡ pos times *ℤ number }
{
    i128::from(times) * i128::from(number)
}

fn adds_by(way: Way, stand: Stand, amount: i128) -> Adds
    ensures { result ≡ adds_by way stand amount }
{
    match way {
        Way::Adding => Adds::Amount(amount),
        Way::Being => Adds::Nothing,
        Way::Standing => Adds::Stands(stand),
    }
}

/// How many rows of the runs are under each constraint.
pub(crate) fn counts_of(
    alloc: Global,
    constraints: &[Constraint],
    runs: &[Run],
) -> Result<Vec<u64>, Memory>
    requires { All (λ (c : Constraint). count_of constraints.now c (rows_of runs.now) ≤ frequency_limit) constraints.now }
    ensures { IfOk result (λ counts. counts.items ≡ counts_of constraints.now (rows_of runs.now)) }
{
    let mut counts = Vec::new(alloc);
    for constraint in constraints {
        counts.push(count_of(constraints, constraint, runs))?;
    }
    Ok(counts)
}

fn count_of(constraints: &[Constraint], constraint: &Constraint, runs: &[Run]) -> u64
    requires { count_of constraints.now constraint.now (rows_of runs.now) ≤ frequency_limit }
    ensures { result ≡ count_of constraints.now constraint.now (rows_of runs.now) }
{
    let mut count = 0;
    for run in runs {
        if constraint.speaks_of(constraints, &run.row) {
            count += run.times;
        }
    }
    count
}
