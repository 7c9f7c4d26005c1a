//! How far numbers pass a number, and the programs of how far lost rows can.
ghost use Rattle.std.specs.Prelude.{◌≡◌, ◌≤◌, ◌^◌, ◌*ℤ◌, ◌≤ℤ◌, nat_abs, pos, int_lt, length, cond, IfOk};
ghost use Rattle.pc_program_bound.specs.Allocation.{IsProgram};
ghost use Rattle.pc_branch.specs.Ends.{HasSmallGains};
ghost use Rattle.pc_branch.specs.Outcome.{IsEasyProgram};
ghost use Rattle.pc_simplex_tableau.specs.Numbers.{table};
ghost use Rattle.pc_agg_search.specs.Ends.{signed};
ghost use Rattle.pc_agg_search.specs.Posed.{keys_of};
ghost use Rattle.pc_agg_search.specs.Problem.{IsEasyFor};
ghost use Rattle.pc_quantile.specs.Measure.{IsMeasured, cells_for};
ghost use Rattle.pc_quantile.specs.Passing.{inner_gain, outer_gain, passing_gain, IsShare};
ghost use Rattle.pc_quantile.specs.Past.{least_past, program_past, sum_past};
ghost use Rattle.pc_quantile.specs.Quantile.{at_most, below};
ghost use Rattle.pc_quantile.specs.Sums.{first_of, second_of};

use crate::measure::Measure;
use pc_agg_search::{Extreme, gained_program};
use pc_cells::Cell;
use pc_lang::Quantile;
use pc_list::Seq;
use pc_num::Memory;
use pc_program_bound::Program;
use std::alloc::Global;

/// More than the number of any rows.
const WEIGHT: i128 = 1 << 36;

/// The program of how far lost rows pass the number of a key, by the keys of their cells.
pub(crate) fn program_past(
    alloc: Global,
    measure: &Measure<'_>,
    extreme: Extreme,
    keys: &[i128],
    key: i128,
) -> Result<Program, Memory>
    requires measured { IsMeasured measure.now }
    requires keyed { keys.now ≡ keys_of measure.now.problem extreme }
    ensures program { IfOk result (λ p. p ≡ program_past (cells_for measure.now) extreme measure.now.asked.now (signed extreme key)) }
    ensures is_program { IfOk result IsProgram }
    ensures small { IfOk result HasSmallGains }
    ensures nested { IsEasyFor measure.now.problem → IfOk result IsEasyProgram }
{
    let cells = measure.problem.cells.cells.as_slice();
    let gains = gains_past(alloc, measure.asked, extreme, cells, keys, key)?;
    gained_program(alloc, &measure.problem, gains)
}

#[tactic(auto, using(pc_simplex_tableau::proofs::Tables::table_steps))]
fn gains_past(
    alloc: Global,
    asked: &Quantile,
    extreme: Extreme,
    cells: &[Cell],
    keys: &[i128],
    key: i128,
) -> Result<Seq<i128>, Memory>
    requires share { IsShare asked.now }
    requires keyed { length keys.now ≡ length cells.now }
    ensures { IfOk result (λ gains. gains ≡ table (length cells.now) (passing_gain asked.now extreme cells.now keys.now key)) }
{
    let mut gains = Seq::new(alloc);
    for cell in 0..cells.len() {
        gains.push(gain_at(asked, extreme, cells[cell].chosen, keys[cell], key))?;
    }
    Ok(gains)
}

fn gain_at(asked: &Quantile, extreme: Extreme, chosen: bool, own: i128, key: i128) -> i128
    requires share { IsShare asked.now }
    ensures { result ≡ cond chosen (cond (int_lt key own) (outer_gain asked.now extreme) (inner_gain asked.now extreme)) (pos 0) }
{
    if !chosen {
        return 0;
    }
    if key < own {
        return outer_gain(asked, extreme);
    }
    inner_gain(asked, extreme)
}

/// What a row adds that can pass a number.
fn outer_gain(asked: &Quantile, extreme: Extreme) -> i128
    requires share { IsShare asked.now }
    ensures { result ≡ outer_gain asked.now extreme }
{
    let (p, q) = (i128::from(asked.p), i128::from(asked.q));
    match extreme {
        Extreme::Low => WEIGHT * (q - p) + 1,
        Extreme::High => p,
    }
}

/// What a row adds that cannot.
fn inner_gain(asked: &Quantile, extreme: Extreme) -> i128
    requires share { IsShare asked.now }
    ensures { result ≡ inner_gain asked.now extreme }
{
    let (p, q) = (i128::from(asked.p), i128::from(asked.q));
    match extreme {
        Extreme::Low => 1 - WEIGHT * p,
        Extreme::High => p - q,
    }
}

/// The least worth of counts that pass a number with the observed ones.
pub(crate) fn least_past(measure: &Measure<'_>, extreme: Extreme, number: i128) -> i128
    requires measured { IsMeasured measure.now }
    ensures { result ≡ least_past extreme measure.now.asked.now number measure.now.seen.now }
{
    1 - sum_past(measure.asked, extreme, number, measure.seen)
}

/// How far the numbers pass this one.
fn sum_past(asked: &Quantile, extreme: Extreme, number: i128, seen: &[i64]) -> i128
    requires share { IsShare asked.now }
    requires few { length seen.now ≤ 1_000_000 }
    ensures sum { result ≡ sum_past extreme asked.now number seen.now }
    ensures small { nat_abs result ≤ 2 ^ 70 }
{
    match extreme {
        Extreme::Low => second_of(asked, number, seen),
        Extreme::High => first_of(asked, number, seen),
    }
}

/// How far those at most this number fall short of the share.
fn first_of(asked: &Quantile, number: i128, seen: &[i64]) -> i128
    requires share { IsShare asked.now }
    requires few { length seen.now ≤ 1_000_000 }
    ensures sum { result ≡ first_of asked.now.p asked.now.q number seen.now }
    ensures small { nat_abs result ≤ 2 ^ 70 }
{
    times(asked.p, seen.len()) - times(asked.q, count_upto(seen, number))
}

/// How far those below this number pass the share.
fn second_of(asked: &Quantile, number: i128, seen: &[i64]) -> i128
    requires share { IsShare asked.now }
    requires few { length seen.now ≤ 1_000_000 }
    ensures sum { result ≡ second_of asked.now.p asked.now.q number seen.now }
    ensures small { nat_abs result ≤ 2 ^ 70 }
{
    let past = times(asked.q, count_below(seen, number)) - times(asked.p, seen.len());
    WEIGHT * past + seen.len() as i128
}

fn times(part: u32, rows: usize) -> i128
    requires part { part ≤ 1000 }
    requires few { rows ≤ 1_000_000 }
    ensures product { result ≡ (pos part *ℤ pos rows) }
    ensures from { pos 0 ≤ℤ result }
    ensures upto { result ≤ℤ pos (10 ^ 9) }
{
    i128::from(part) * rows as i128
}

/// How many of the numbers are at most this one.
fn count_upto(seen: &[i64], number: i128) -> usize
    ensures { result ≡ at_most number seen.now }
{
    seen.iter()
        .filter(|each| i128::from(**each) <= number)
        .count()
}

/// How many of the numbers are below this one.
fn count_below(seen: &[i64], number: i128) -> usize
    ensures { result ≡ below number seen.now }
{
    seen.iter()
        .filter(|each| i128::from(**each) < number)
        .count()
}
