ghost use Rattle.std.specs.Prelude.{◌≡◌, ◌<◌, ◌<ℤ◌, ◌+◌, ◌^◌, ℕ, List, int_lt, pos, cond, [], length, IfOk};
ghost use Rattle.pc_model.specs.Places.{has_bit};
ghost use Rattle.pc_program_bound.specs.Allocation.{IsProgram, constraints_of};
ghost use Rattle.pc_program_bound.specs.Bound.{IsFit};
ghost use Rattle.pc_simplex_tableau.specs.Numbers.{table};
ghost use Rattle.pc_simplex_tableau.specs.Relaxation.{columns_of, slack_range, is_short, phase_one, first_row, first_tableau};
ghost use Rattle.pc_simplex_tableau.specs.Standing.{gain_one};
ghost use Rattle.pc_simplex_tableau.specs.Conditions.{IsSized, AreFitNumbers};
ghost use Rattle.pc_simplex.specs.Floors.{AreFloors, number_at, does_start_turned, short_row};

use crate::columns::{columns_of, slack_range};
use crate::left::left_of;
use pc_model::has_bit;
use pc_num::Memory;
use pc_program_bound::Program;
use pc_simplex_tableau::{Tableau, WholeRow};
use std::alloc::Global;

/// The tableau in which the first phase starts, before its objective row is freed. The caps take no part in it.
pub(crate) fn first_tableau(alloc: Global, p: &Program, floor: &[u64]) -> Result<Tableau, Memory>
    requires program { IsProgram p.now }
    requires floors { AreFloors p.now floor.now }
    ensures value { IfOk result (λ t. t ≡ first_tableau p.now floor.now []) }
    ensures sized { IfOk result (λ t. (caps : List ℕ) → IsSized (phase_one p.now floor.now caps) t) }
    ensures fits { IfOk result AreFitNumbers }
{
    let rows = first_rows(alloc, p, floor)?;
    let turned = first_turned(alloc, p, floor)?;
    let aim = first_aim(alloc, p, floor)?;
    Ok(Tableau {
        rows,
        turned,
        aim,
        weight: 1,
    })
}

#[tactic(auto, using(pc_simplex_tableau::proofs::Tables::table_steps))]
fn first_rows(alloc: Global, p: &Program, floor: &[u64]) -> Result<Vec<WholeRow>, Memory>
    requires program { IsProgram p.now }
    requires floors { AreFloors p.now floor.now }
    ensures { IfOk result (λ rows. rows.items ≡ table (constraints_of p.now) (first_row p.now floor.now [])) }
{
    let mut rows = Vec::new(alloc);
    for constraint in 0..p.least.len() {
        rows.push(first_row(alloc, p, floor, constraint)?)?;
    }
    Ok(rows)
}

/// The row of a constraint: its slack is basic, or, where the constraint is short, its slack is turned and its helper basic.
fn first_row(
    alloc: Global,
    p: &Program,
    floor: &[u64],
    constraint: usize,
) -> Result<WholeRow, Memory>
    requires program { IsProgram p.now }
    requires floors { AreFloors p.now floor.now }
    requires own { constraint < constraints_of p.now }
    ensures { IfOk result (λ row. row ≡ first_row p.now floor.now [] constraint) }
{
    let left = left_of(p, floor, constraint);
    let numbers = first_numbers(alloc, p, constraint, left)?;
    if is_short_by(p, constraint, left) {
        return Ok(short_row(p, constraint, left, numbers));
    }
    Ok(WholeRow {
        numbers,
        basic: p.masks.len() + constraint,
    })
}

fn short_row(p: &Program, constraint: usize, left: i128, numbers: Vec<i128>) -> WholeRow
    requires program { IsProgram p.now }
    requires few { columns_of p.now < 2 ^ 32 }
    requires own { constraint < constraints_of p.now }
    requires fits { IsFit left }
    requires short { pos (slack_range p.now constraint) <ℤ left }
    requires sized { length numbers.items ≡ columns_of p.now + 1 }
    ensures { result ≡ short_row p.now constraint left numbers.items }
{
    let slack = p.masks.len() + constraint;
    let mut numbers = numbers;
    numbers[columns_of(p)] = left - slack_range(p, constraint) as i128;
    numbers[slack] = -1;
    WholeRow {
        numbers,
        basic: slack + p.least.len(),
    }
}

/// The numbers of a constraint that has so much left.
#[tactic(auto, using(pc_simplex_tableau::proofs::Tables::table_steps))]
fn first_numbers(
    alloc: Global,
    p: &Program,
    constraint: usize,
    left: i128,
) -> Result<Vec<i128>, Memory>
    requires program { IsProgram p.now }
    requires few { columns_of p.now < 2 ^ 32 }
    requires own { constraint < constraints_of p.now }
    requires fits { IsFit left }
    ensures { IfOk result (λ numbers. numbers.items ≡ table (columns_of p.now + 1) (number_at p.now constraint left)) }
{
    let mut numbers = Vec::new(alloc);
    for column in 0..columns_of(p) + 1 {
        numbers.push(number_at(p, constraint, left, column))?;
    }
    Ok(numbers)
}

fn number_at(p: &Program, constraint: usize, left: i128, column: usize) -> i128
    requires program { IsProgram p.now }
    requires few { columns_of p.now < 2 ^ 32 }
    requires own { constraint < constraints_of p.now }
    requires fits { IsFit left }
    ensures { result ≡ number_at p.now constraint left column }
{
    let masks = p.masks.as_slice();
    let slacks = masks.len();
    let helpers = slacks + p.least.len();
    if column < slacks {
        return bit_at(masks[column], constraint);
    }
    if column == slacks + constraint || column == helpers + constraint {
        return 1;
    }
    if column == columns_of(p) {
        return left;
    }
    0
}

fn bit_at(mask: u32, place: usize) -> i128
    requires few { place < 32 }
    ensures { result ≡ cond (has_bit mask place) (pos 1) (pos 0) }
{
    if has_bit(u128::from(mask), place) {
        return 1;
    }
    0
}

/// Whether a constraint that has so much left is short: its slack alone cannot meet it.
pub(crate) fn is_short_by(p: &Program, constraint: usize, left: i128) -> bool
    requires program { IsProgram p.now }
    requires own { constraint < constraints_of p.now }
    requires fits { IsFit left }
    ensures { result ≡ int_lt (pos (slack_range p.now constraint)) left }
{
    (slack_range(p, constraint) as i128) < left
}

fn is_short(p: &Program, floor: &[u64], constraint: usize) -> bool
    requires program { IsProgram p.now }
    requires floors { AreFloors p.now floor.now }
    requires own { constraint < constraints_of p.now }
    ensures { result ≡ is_short p.now floor.now constraint }
{
    is_short_by(p, constraint, left_of(p, floor, constraint))
}

/// Which columns start turned: the slacks of short constraints.
#[tactic(auto, using(pc_simplex_tableau::proofs::Tables::table_steps))]
pub(crate) fn first_turned(alloc: Global, p: &Program, floor: &[u64]) -> Result<Vec<bool>, Memory>
    requires program { IsProgram p.now }
    requires floors { AreFloors p.now floor.now }
    ensures { IfOk result (λ turned. turned.items ≡ table (columns_of p.now) (does_start_turned p.now floor.now)) }
{
    let mut turned = Vec::new(alloc);
    for column in 0..columns_of(p) {
        turned.push(starts_turned(p, floor, column))?;
    }
    Ok(turned)
}

fn starts_turned(p: &Program, floor: &[u64], column: usize) -> bool
    requires program { IsProgram p.now }
    requires floors { AreFloors p.now floor.now }
    ensures { result ≡ does_start_turned p.now floor.now column }
{
    let slacks = p.masks.len();
    if column < slacks {
        return false;
    }
    if column >= slacks + p.least.len() {
        return false;
    }
    is_short(p, floor, column - slacks)
}

/// The first objective row: the helpers of short constraints lose one.
#[tactic(auto, using(pc_simplex_tableau::proofs::Tables::table_steps))]
pub(crate) fn first_aim(alloc: Global, p: &Program, floor: &[u64]) -> Result<Vec<i128>, Memory>
    requires program { IsProgram p.now }
    requires floors { AreFloors p.now floor.now }
    ensures { IfOk result (λ aim. aim.items ≡ table (columns_of p.now) (gain_one p.now floor.now)) }
{
    let mut aim = Vec::new(alloc);
    for column in 0..columns_of(p) {
        aim.push(first_gain(p, floor, column))?;
    }
    Ok(aim)
}

fn first_gain(p: &Program, floor: &[u64], column: usize) -> i128
    requires program { IsProgram p.now }
    requires floors { AreFloors p.now floor.now }
    requires own { column < columns_of p.now }
    ensures { result ≡ gain_one p.now floor.now column }
{
    let helpers = p.masks.len() + p.least.len();
    if column < helpers {
        return 0;
    }
    if is_short(p, floor, column - helpers) {
        return -1;
    }
    0
}
