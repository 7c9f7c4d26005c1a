ghost use Rattle.std.specs.Prelude.{◌≡◌, ◌+◌, ◌<◌, ◌&&◌, cond, length, not};
ghost use Rattle.pc_model.specs.Membership.{has, is_named, is_named_by_some, is_under};
ghost use Rattle.pc_model.specs.Possible.{is_covered};
ghost use Rattle.pc_rows.specs.Stored.{row_at, row_limit};
ghost use Rattle.pc_desk_try.specs.Trials.{counts_of, counts_with, first_with, under_none};

use pc_model::{Constraint, When};
use pc_rows::Rows;

/// The record of the first row.
const FIRST_RECORD: u64 = 2;

/// How many rows a constraint speaks of, how many of them its values do not have, and the record of the first of those in a
/// file, whose first is the header.
#[derive(Clone, Copy, Debug)]
pub struct Counts {
    pub rows: u64,
    pub broken: u64,
    pub first: Option<u64>,
}

/// What a constraint comes to over rows, as one of these.
pub(crate) fn counts_of(constraints: &[Constraint], constraint: &Constraint, rows: &Rows) -> Counts
    ensures { result ≡ counts_of constraints.now constraint.now rows.now }
{
    let mut counts = Counts {
        rows: 0,
        broken: 0,
        first: None,
    };
    for place in 0..rows.count() as usize {
        let under = speaks_of(constraints, constraint, rows, place);
        let broken = is_broken(under, constraint, rows, place);
        counts = counts_with(counts, under, broken, place as u64 + FIRST_RECORD);
    }
    counts
}

fn is_broken(under: bool, constraint: &Constraint, rows: &Rows, place: usize) -> bool
    requires { place < length rows.now }
    ensures { result ≡ (under && not (has constraint.now.values (row_at rows.now place))) }
{
    under && !rows.is_in_box(&constraint.values, place)
}

/// The counts with the row of a record as well.
fn counts_with(counts: Counts, under: bool, broken: bool, number: u64) -> Counts
    requires { (counts.rows < row_limit) × (counts.broken < row_limit) }
    ensures { result ≡ counts_with under broken number counts }
{
    Counts {
        rows: with_one(counts.rows, under),
        broken: with_one(counts.broken, broken),
        first: first_with(counts.first, broken, number),
    }
}

fn with_one(count: u64, more: bool) -> u64
    requires { count < row_limit }
    ensures { result ≡ count + cond more 1 0 }
{
    if more { count + 1 } else { count }
}

fn first_with(first: Option<u64>, broken: bool, number: u64) -> Option<u64>
    ensures { result ≡ first_with broken number first }
{
    match first {
        Some(number) => Some(number),
        None if broken => Some(number),
        None => None,
    }
}

/// How many rows none of the constraints speaks of.
pub(crate) fn under_none(constraints: &[Constraint], rows: &Rows) -> u64
    ensures { result ≡ under_none constraints.now rows.now }
{
    let mut count = 0;
    for place in 0..rows.count() as usize {
        let none = !is_covered(constraints, rows, place);
        count = with_one(count, none);
    }
    count
}

fn is_covered(constraints: &[Constraint], rows: &Rows, place: usize) -> bool
    requires { place < length rows.now }
    ensures { result ≡ is_covered constraints.now (row_at rows.now place) }
{
    constraints.iter().any(|constraint| speaks_of(constraints, constraint, rows, place))
}

/// Whether a constraint speaks of the row at a place, as one of these.
fn speaks_of(constraints: &[Constraint], constraint: &Constraint, rows: &Rows, place: usize) -> bool
    requires { place < length rows.now }
    ensures { result ≡ is_under constraints.now constraint.now (row_at rows.now place) }
{
    match &constraint.when {
        When::Boxes(area) => rows.has_row(area, place),
        When::Outside => !is_named_by_some(constraints, rows, place),
    }
}

fn is_named_by_some(constraints: &[Constraint], rows: &Rows, place: usize) -> bool
    requires { place < length rows.now }
    ensures { result ≡ is_named_by_some constraints.now (row_at rows.now place) }
{
    constraints
        .iter()
        .any(|constraint| is_named(&constraint.when, rows, place))
}

fn is_named(when: &When, rows: &Rows, place: usize) -> bool
    requires { place < length rows.now }
    ensures { result ≡ is_named when.now (row_at rows.now place) }
{
    match when {
        When::Boxes(area) => rows.has_row(area, place),
        When::Outside => false,
    }
}
