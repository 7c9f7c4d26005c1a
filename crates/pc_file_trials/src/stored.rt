ghost use Rattle.std.specs.Prelude.{◌≡◌, ◌<◌, length, IfOk, All};
ghost use Rattle.pc_model.specs.WellFormed.{HaveFewNames};
ghost use Rattle.pc_rows.specs.Stored.{row_limit};

use crate::rows::column;
use crate::rows::folds::{ANY, Fold, folds_to};
use pc_list::Seq;
use pc_model::{Kind, Schema};
use pc_rows::{Rows, read_rows};
use std::alloc::{AllocError, Global};
use std::process::Abort;
use std::test::Fail;

pub(crate) const LEAST: i64 = -2_147_483_648;

pub(crate) const GREATEST: i64 = 2_147_483_647;

// Two columns, the second with its numbers in hundredths.
fn schema(alloc: Global, low: i64, high: i64) -> Result<Schema, AllocError>
    ensures few { IfOk result (λ schema. HaveFewNames schema.columns) }
    ensures two { IfOk result (λ schema. length schema.columns ≡ 2) }
{
    let mut columns = Seq::new(alloc);
    columns.push(column(alloc, "a", Kind::Int { low, high })?)?;
    columns.push(column(
        alloc,
        "b",
        Kind::Dec {
            scale: 2,
            low,
            high,
        },
    )?)?;
    Ok(Schema { columns })
}

// The numbers of rows of two, row by row.
pub(crate) fn numbers(alloc: Global, rows: &Rows) -> Result<Vec<i64>, AllocError>
    requires { All (λ row. length row.cells ≡ 2) rows.now }
{
    let mut numbers = Vec::new(alloc);
    for place in 0..rows.count() {
        numbers.push(rows.cell(place, 0))?;
        numbers.push(rows.cell(place, 1))?;
    }
    Ok(numbers)
}

// The rows of a file of two columns whose numbers are from `low` to `high`.
pub(crate) fn rows_within(alloc: Global, low: i64, high: i64, text: &str) -> Result<Rows, Fail>
    ensures { IfOk result (λ rows. All (λ row. length row.cells ≡ 2) rows) }
{
    let schema = schema(alloc, low, high)?;
    Ok(read_rows(alloc, &schema, text.as_bytes())?)
}

// Adds a row of two numbers.
pub(crate) fn with_pair(
    rt: &impl Abort,
    mut rows: Rows,
    first: i64,
    second: i64,
) -> Result<Rows, Fail>
    requires { All (λ row. length row.cells ≡ 2) rows }
    ensures { IfOk result (λ rows. All (λ row. length row.cells ≡ 2) rows) }
{
    assert!(rt; rows.count() < 9);
    rows.push_cells(&[first, second])?;
    Ok(rows)
}

// Four rows of two numbers, of which the second has a number that does not fit four bytes. Four bytes serve the
// numbers that the columns of the first allow.
fn widened(rt: &impl Abort, alloc: Global) -> Result<Rows, Fail>
    ensures { IfOk result (λ rows. All (λ row. length row.cells ≡ 2) rows) }
{
    let text = "a,b\n-2147483648,21474836.47\n";
    let rows = rows_within(alloc, LEAST, GREATEST, text)?;
    let rows = with_pair(rt, rows, 3, GREATEST + 1)?;
    let rows = with_pair(rt, rows, i64::MIN, i64::MAX)?;
    with_pair(rt, rows, 5, 6)
}

static WIDENED: [i64; 8] = [LEAST, GREATEST, 3, GREATEST + 1, i64::MIN, i64::MAX, 5, 6];

static FOLDS: [(Option<u8>, (i64, i64), Fold); 4] = [
    (
        Some(0),
        ANY,
        (4, -9_223_372_039_002_259_448, Some(i64::MIN), Some(5)),
    ),
    (
        Some(1),
        (LEAST, GREATEST),
        (2, 2_147_483_653, Some(6), Some(GREATEST)),
    ),
    (
        Some(1),
        (GREATEST + 1, i64::MAX),
        (
            2,
            9_223_372_039_002_259_455,
            Some(GREATEST + 1),
            Some(i64::MAX),
        ),
    ),
    (None, ANY, (4, 0, None, None)),
];

#[test]
fn rows_with_wide_numbers_after_narrow_ones(rt: HostRuntime) -> Result<(), Fail> {
    let alloc = rt.alloc();
    let rows = widened(&rt, alloc)?;
    assert!(rt; numbers(alloc, &rows)?.as_slice() == WIDENED.as_slice());
    for (number, (column, second, wanted)) in FOLDS.iter().enumerate() {
        let found = folds_to(alloc, &rows, *column, ANY, *second, *wanted)?;
        assert!(rt; found, "case {number}");
    }
    Ok(())
}
