ghost use Rattle.std.specs.Prelude.{◌≡◌, ◌<◌, ◌≤◌, ◌^◌, ◌==◌, ◌++◌, [], ◌∷◌, pos, cond, None, IfOk, IfSome};
ghost use Rattle.pc_program_bound.specs.Allocation.{IsProgram, constraints_of};
ghost use Rattle.pc_simplex_tableau.specs.Numbers.{table, first_below};
ghost use Rattle.pc_simplex_short.specs.Kept.{IsWithin};
ghost use Rattle.pc_simplex.specs.Floors.{AreFloors, is_overfull};
ghost use Rattle.pc_simplex.specs.Shorts.{short_value, unit_row, first_short_row, no_aim, first_short, second_short};

use crate::columns::slack_range;
use crate::first::{first_turned, is_short_by};
use crate::left::left_of;
use pc_num::Memory;
use pc_program_bound::Program;
use pc_simplex_short::{ShortRow, ShortTableau};
use std::alloc::Global;

/// The tableau in which the first phase starts, in short form, before its objective row is freed.
pub(crate) fn first_short(alloc: Global, p: &Program, floor: &[u64]) -> Result<ShortTableau, Memory>
    requires program { IsProgram p.now }
    requires floors { AreFloors p.now floor.now }
    requires none { first_below (constraints_of p.now) (is_overfull p.now floor.now) ≡ None }
    ensures { IfOk result (λ t. t ≡ first_short p.now floor.now) }
{
    let rows = first_rows(alloc, p, floor)?;
    let turned = first_turned(alloc, p, floor)?;
    let aim = no_aim(alloc, p)?;
    Ok(ShortTableau {
        rows,
        turned,
        aim,
        weight: 1,
    })
}

#[tactic(auto, using(pc_simplex_tableau::proofs::Tables::table_steps))]
fn first_rows(alloc: Global, p: &Program, floor: &[u64]) -> Result<Vec<ShortRow>, Memory>
    requires program { IsProgram p.now }
    requires floors { AreFloors p.now floor.now }
    requires none { first_below (constraints_of p.now) (is_overfull p.now floor.now) ≡ None }
    ensures { IfOk result (λ rows. rows.items ≡ table (constraints_of p.now) (first_short_row p.now floor.now)) }
{
    let mut rows = Vec::new(alloc);
    for constraint in 0..p.least.len() {
        rows.push(first_row(alloc, p, floor, constraint)?)?;
    }
    Ok(rows)
}

fn narrowed(value: i128) -> i64
    requires { IsWithin 50 value }
    ensures { result ≡ value }
{
    value as i64
}

fn unit(test: bool) -> i64
    ensures { result ≡ cond test (pos 1) (pos 0) }
{
    if test {
        return 1;
    }
    0
}

/// The row of a constraint, which has it once.
fn first_row(
    alloc: Global,
    p: &Program,
    floor: &[u64],
    constraint: usize,
) -> Result<ShortRow, Memory>
    requires program { IsProgram p.now }
    requires floors { AreFloors p.now floor.now }
    requires none { first_below (constraints_of p.now) (is_overfull p.now floor.now) ≡ None }
    requires own { constraint < constraints_of p.now }
    ensures { IfOk result (λ row. row ≡ first_short_row p.now floor.now constraint) }
{
    let left = left_of(p, floor, constraint);
    let slack = p.masks.len() + constraint;
    if is_short_by(p, constraint, left) {
        let value = left - slack_range(p, constraint) as i128;
        let numbers = unit_row(alloc, p, constraint, narrowed(value))?;
        return Ok(ShortRow {
            numbers,
            basic: slack + p.least.len(),
        });
    }
    let numbers = unit_row(alloc, p, constraint, narrowed(left))?;
    Ok(ShortRow {
        numbers,
        basic: slack,
    })
}

#[tactic(auto, using(pc_simplex_tableau::proofs::Tables::table_steps))]
fn unit_row(alloc: Global, p: &Program, constraint: usize, value: i64) -> Result<Vec<i64>, Memory>
    requires program { IsProgram p.now }
    requires own { constraint < constraints_of p.now }
    ensures { IfOk result (λ numbers. numbers.items ≡ unit_row p.now constraint value) }
{
    let mut numbers = Vec::new(alloc);
    for place in 0..p.least.len() {
        numbers.push(unit(place == constraint))?;
    }
    numbers.push(value)?;
    Ok(numbers)
}

/// An objective row with no constraint in it.
#[tactic(auto, using(pc_simplex_tableau::proofs::Tables::table_steps))]
fn no_aim(alloc: Global, p: &Program) -> Result<Vec<i128>, Memory>
    ensures { IfOk result (λ aim. aim.items ≡ no_aim p.now) }
{
    let mut aim = Vec::new(alloc);
    for _place in 0..p.least.len() {
        aim.push(0)?;
    }
    Ok(aim)
}

/// The tableau in which the second phase starts, before its objective row is freed; none where a gain is not small.
pub(crate) fn second_short(
    alloc: Global,
    p: &Program,
    tableau: ShortTableau,
    top: u128,
) -> Result<Option<ShortTableau>, Memory>
    ensures value { IfOk result (λ o. IfSome o (λ t. t ≡ second_short p.now tableau)) }
    ensures light { IfOk result (λ o. IfSome o (λ _. top ≤ 2 ^ 69)) }
{
    if top > 1 << 69 {
        return Ok(None);
    }
    let mut tableau = tableau;
    tableau.aim = no_aim(alloc, p)?;
    tableau.weight = 1;
    Ok(Some(tableau))
}
