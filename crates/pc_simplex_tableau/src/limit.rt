ghost use Rattle.std.specs.Prelude.{◌≡◌, ◌<◌, ◌<ℤ◌, ◌-ℤ◌, ◌*ℤ◌, ◌&&◌, pos, length, All, IsTrue, IfSome, SomeIff, int_lt};
ghost use Rattle.std.specs.Ordering.{int_cmp};
ghost use Rattle.pc_program_bound.specs.Sums.{int_at};
ghost use Rattle.pc_program_bound.specs.Bound.{IsFit};
ghost use Rattle.pc_program_bound.specs.Bound.{IsFit};
ghost use Rattle.pc_simplex_tableau.specs.Numbers.{does_fit};
ghost use Rattle.pc_simplex_tableau.specs.Tableau.{is_after, lesser, lower_limit, upper_limit, with_row, does_limit_fit};
ghost use Rattle.pc_simplex_tableau.specs.Conditions.{IsSizedRow, IsFitRow};
ghost use Rattle.pc_simplex_tableau.specs.Limits.{IsSoundFraction, does_upper_fit, does_upper_limit_fit, with_upper_limit, own_limit};

use crate::columns::Columns;
use crate::row::{WholeRow, negative};
use pc_num::{compare_fractions, fit_mul, fit_sub};
use std::cmp::Ordering;
use std::marker::Model;

/// What a step does: it turns the entering column, or pivots in a row, or turns the row's basic column and then pivots there.
#[derive(Clone, Copy, Drop)]
pub enum Way {
    Turning,
    Pivoting(usize),
    TurningAndPivoting(usize),
}

/// A limit of the entering column: the column that it belongs to, and a fraction.
#[derive(Drop)]
pub struct Limit {
    pub column: usize,
    pub over: i128,
    pub under: i128,
    pub way: Way,
}

impl Model for Limit {
    ghost use Rattle.pc_simplex_tableau.specs.Tableau.{Limit};
    ghost use Rattle.pc_simplex_tableau.specs.Ways.{way_of};

    ghost Value = { Limit };

    ghost view = { λ l. record { column = l.column; over = l.over; under = l.under; way = way_of l.way } };
}

fn is_after(a: &Limit, b: &Limit) -> bool
    requires a { IsSoundFraction a.now }
    requires b { IsSoundFraction b.now }
    ensures { result ≡ is_after a.now b.now }
{
    match compare(a, b) {
        Ordering::Greater => true,
        Ordering::Equal => b.column < a.column,
        Ordering::Less => false,
    }
}

/// Compares two limits, by products where these fit.
fn compare(a: &Limit, b: &Limit) -> Ordering
    requires a { IsSoundFraction a.now }
    requires b { IsSoundFraction b.now }
    ensures { result ≡ int_cmp (a.now.over *ℤ b.now.under) (b.now.over *ℤ a.now.under) }
{
    match compare_products(a.over, a.under, b.over, b.under) {
        Some(order) => order,
        None => compare_fractions(a.over, a.under, b.over, b.under),
    }
}

fn compare_products(a: i128, b: i128, c: i128, d: i128) -> Option<Ordering>
    requires a_fits { IsFit a }
    requires b_fits { IsFit b }
    requires c_fits { IsFit c }
    requires d_fits { IsFit d }
    ensures { IfSome result (λ order. order ≡ int_cmp (a *ℤ d) (c *ℤ b)) }
{
    let one = fit_mul(a, d)?;
    let other = fit_mul(c, b)?;
    Some(one.cmp(&other))
}

/// The lesser of two limits; of equal ones that of the lesser column.
pub fn lesser(a: Limit, b: Limit) -> Limit
    requires a { IsSoundFraction a }
    requires b { IsSoundFraction b }
    ensures value { result ≡ lesser a b }
    ensures sound { IsSoundFraction result }
{
    if is_after(&a, &b) { b } else { a }
}

fn lower_limit(columns: &Columns, column: usize, at: usize, row: &WholeRow) -> Limit
    requires sized { IsSizedRow columns.now row.now }
    requires fits { IsFitRow row.now }
    requires column { column < columns.now.count }
    requires positive { pos 0 <ℤ int_at row.now.numbers column }
    ensures value { result ≡ lower_limit columns.now column at row.now }
    ensures sound { IsSoundFraction result }
{
    Limit {
        column: row.basic,
        over: row.numbers[columns.count],
        under: row.numbers[column],
        way: Way::Pivoting(at),
    }
}

fn upper_limit(
    columns: &Columns,
    column: usize,
    range: u64,
    at: usize,
    row: &WholeRow,
) -> Option<Limit>
    requires sized { IsSizedRow columns.now row.now }
    requires fits { IsFitRow row.now }
    requires column { column < columns.now.count }
    requires negative { int_at row.now.numbers column <ℤ pos 0 }
    ensures value { SomeIff result (IsTrue (does_upper_fit columns.now range row.now)) (upper_limit columns.now column range at row.now) }
    ensures sound { IfSome result IsSoundFraction }
{
    match room_above(row.numbers[row.basic], range, row.numbers[columns.count]) {
        Some(over) => Some(Limit {
            column: row.basic,
            over,
            under: negative(row.numbers[column]),
            way: Way::TurningAndPivoting(at),
        }),
        None => None,
    }
}

// How far a value is below the end of a range, both times the entry.
fn room_above(entry: i128, range: u64, value: i128) -> Option<i128>
    ensures value { SomeIff result (IsTrue (does_fit (entry *ℤ pos range) && does_fit (entry *ℤ pos range -ℤ value))) (entry *ℤ pos range -ℤ value) }
    ensures fits { IfSome result IsFit }
{
    let end = fit_mul(entry, i128::from(range))?;
    fit_sub(end, value)
}

/// The limit of the entering column's own range.
pub fn own_limit(columns: &Columns, column: usize) -> Limit
    requires { column < length columns.now.ranges }
    ensures value { result ≡ own_limit columns.now column }
    ensures sound { IsSoundFraction result }
{
    let ranges = columns.ranges.as_slice();
    Limit {
        column,
        over: i128::from(ranges[column]),
        under: 1,
        way: Way::Turning,
    }
}

/// A limit, or that of the row where it has one that is less; or none where a number of the row's limit does not fit.
pub(crate) fn with_row(
    columns: &Columns,
    column: usize,
    at: usize,
    row: &WholeRow,
    best: Limit,
) -> Option<Limit>
    requires sized { IsSizedRow columns.now row.now }
    requires fits { IsFitRow row.now }
    requires column { column < columns.now.count }
    requires best { IsSoundFraction best }
    ensures value { SomeIff result (IsTrue (does_limit_fit columns.now column row.now)) (with_row columns.now column at row.now best) }
    ensures sound { IfSome result IsSoundFraction }
{
    let numbers = row.numbers.as_slice();
    let entry = numbers[column];
    if entry > 0 {
        return Some(lesser(best, lower_limit(columns, column, at, row)));
    }
    if entry < 0 {
        return with_upper_limit(columns, column, at, row, best);
    }
    Some(best)
}

fn with_upper_limit(
    columns: &Columns,
    column: usize,
    at: usize,
    row: &WholeRow,
    best: Limit,
) -> Option<Limit>
    requires sized { IsSizedRow columns.now row.now }
    requires fits { IsFitRow row.now }
    requires column { column < columns.now.count }
    requires negative { int_at row.now.numbers column <ℤ pos 0 }
    requires best { IsSoundFraction best }
    ensures value { SomeIff result (IsTrue (does_upper_limit_fit columns.now row.now)) (with_upper_limit columns.now column at row.now best) }
    ensures sound { IfSome result IsSoundFraction }
{
    match columns.range(row.basic) {
        Some(range) => match upper_limit(columns, column, range, at, row) {
            Some(upper) => Some(lesser(best, upper)),
            None => None,
        },
        None => Some(best),
    }
}
