ghost use Rattle.std.specs.Prelude.{◌≡◌, ◌≤◌, All, IfOk, IfSome, None, length};
ghost use Rattle.pc_model.specs.Accepted.{frequency_limit};
ghost use Rattle.pc_model.specs.WellFormed.{IsWellFormed};
ghost use Rattle.pc_rows.specs.Stored.{row_limit};
ghost use Rattle.pc_desk_history.specs.Draft.{AreFew, IsPast, IsWish, counts_gaps, from_none, numbers_for, numbers_from, numbers_of, numbers_with, or_none};
ghost use Rattle.pc_desk_history.specs.Periods.{HavePeriods, periods_of, rows_in};

use crate::counting::counts_of;
use crate::periods::{is_gapped, periods_of};
use crate::widening::widened_numbers;
use crate::wish::Wish;
use indexmap::IndexSet;
use pc_model::{Area, Schema};
use pc_num::Memory;
use pc_rows::Rows;
use std::alloc::Global;

/// Between how many rows there are.
#[derive(Clone, Copy, Debug)]
pub(crate) struct Numbers {
    pub least: u64,
    pub most: u64,
}

/// The periods that chosen rows have, how many of the rows each has, and whether there are periods that have none and count.
#[derive(Drop)]
pub(crate) struct Past {
    pub periods: IndexSet<i64>,
    pub totals: Vec<u64>,
    pub gapped: bool,
}

/// What is known of the past of a table beside its rows.
pub(crate) fn past_of(
    alloc: Global,
    schema: &Schema,
    rows: &Rows,
    chosen: &Area,
    wish: &Wish,
) -> Result<Past, Memory>
    requires well_formed { IsWellFormed schema.now }
    requires numbered { HavePeriods wish.now.per rows.now }
    ensures { IfOk result (IsPast schema.now wish.now (rows_in chosen.now rows.now)) }
{
    let periods = periods_of(alloc, rows, chosen, wish.per)?;
    let totals = counts_of(alloc, rows, chosen, wish.per, &periods)?;
    let gapped = counts_gaps(schema, rows, chosen, wish, periods.len())?;
    Ok(Past {
        periods,
        totals,
        gapped,
    })
}

fn counts_gaps(
    schema: &Schema,
    rows: &Rows,
    chosen: &Area,
    wish: &Wish,
    count: usize,
) -> Result<bool, Memory>
    requires well_formed { IsWellFormed schema.now }
    requires numbered { HavePeriods wish.now.per rows.now }
    requires counted { count ≡ length (periods_of wish.now.per (rows_in chosen.now rows.now)) }
    ensures { IfOk result (λ counts. counts ≡ counts_gaps schema.now wish.now (rows_in chosen.now rows.now)) }
{
    match wish.lost {
        Some(_) => Ok(false),
        None => is_gapped(schema, rows, chosen, wish.per, count),
    }
}

/// How many rows of a cell may be lost.
pub(crate) fn numbers_of(
    alloc: Global,
    schema: &Schema,
    rows: &Rows,
    chosen: &Area,
    cell: &Area,
    wish: &Wish,
    past: &Past,
) -> Result<Numbers, Memory>
    requires wish { IsWish schema.now wish.now }
    requires numbered { HavePeriods wish.now.per rows.now }
    requires past { IsPast schema.now wish.now (rows_in chosen.now rows.now) past.now }
    ensures { IfOk result (λ numbers. numbers ≡ numbers_of schema.now wish.now (rows_in chosen.now rows.now) (rows_in cell.now rows.now)) }
{
    let counts = counts_of(alloc, rows, cell, wish.per, &past.periods)?;
    let numbers = numbers_from(wish.lost, counts.as_slice(), past.totals.as_slice());
    let numbers = from_none(past.gapped, or_none(numbers));
    Ok(widened_numbers(wish.widen, numbers))
}

/// What holds of all periods, of which each has so many rows of the cell and so many in all.
#[tactic(auto, using(crate::proofs::Steps::number_steps))]
fn numbers_from(lost: Option<u64>, counts: &[u64], totals: &[u64]) -> Option<Numbers>
    requires long { length counts.now ≡ length totals.now }
    requires counts { All (λ count. count ≤ row_limit) counts.now }
    requires lost { IfSome lost (λ lost. lost ≤ frequency_limit) }
    ensures value { result ≡ numbers_from lost counts.now totals.now None }
    ensures few { IfSome result AreFew }
{
    let mut numbers = None;
    for place in 0..counts.len() {
        numbers = numbers_with(numbers, numbers_for(lost, counts[place], totals[place]));
    }
    numbers
}

fn numbers_for(lost: Option<u64>, count: u64, total: u64) -> Numbers
    requires few { count ≤ row_limit }
    requires lost { IfSome lost (λ lost. lost ≤ frequency_limit) }
    ensures value { result ≡ numbers_for lost count total }
    ensures few { AreFew result }
{
    match lost {
        None => Numbers {
            least: count,
            most: count,
        },
        Some(lost) => Numbers {
            least: lost.min(lost * count / total.max(1)),
            most: lost.min((lost * count).div_ceil(total.max(1))),
        },
    }
}

fn numbers_with(before: Option<Numbers>, numbers: Numbers) -> Option<Numbers>
    requires before { IfSome before AreFew }
    requires few { AreFew numbers }
    ensures value { result ≡ numbers_with before numbers }
    ensures few { IfSome result AreFew }
{
    match before {
        None => Some(numbers),
        Some(before) => Some(Numbers {
            least: before.least.min(numbers.least),
            most: before.most.max(numbers.most),
        }),
    }
}

fn or_none(numbers: Option<Numbers>) -> Numbers
    requires few { IfSome numbers AreFew }
    ensures value { result ≡ or_none numbers }
    ensures few { AreFew result }
{
    match numbers {
        None => Numbers { least: 0, most: 0 },
        Some(numbers) => numbers,
    }
}

/// The numbers, where a period without rows counts as well.
fn from_none(gapped: bool, numbers: Numbers) -> Numbers
    requires few { AreFew numbers }
    ensures value { result ≡ from_none gapped numbers }
    ensures few { AreFew result }
{
    if !gapped {
        return numbers;
    }
    Numbers {
        least: 0,
        most: numbers.most,
    }
}
