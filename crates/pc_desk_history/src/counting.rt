ghost use Rattle.std.specs.Prelude.{◌≡◌, ◌<◌, ◌≤◌, All, IfOk, IfSome, length, position};
ghost use Rattle.std.specs.Ordering.{int_eq};
ghost use Rattle.pc_rows.specs.Stored.{row_at, row_limit};
ghost use Rattle.pc_desk_history.specs.Periods.{HavePeriods, counts_of, counts_with, rows_in, with_one, with_one_at};

use crate::periods::period_at;
use indexmap::IndexSet;
use pc_model::Area;
use pc_num::Memory;
use pc_rows::Rows;
use std::alloc::Global;

/// How many rows of an area each of some periods has, in one pass over the rows.
pub(crate) fn counts_of(
    alloc: Global,
    rows: &Rows,
    area: &Area,
    per: Option<usize>,
    periods: &IndexSet<i64>,
) -> Result<Vec<u64>, Memory>
    requires numbered { HavePeriods per rows.now }
    ensures value { IfOk result (λ counts. counts.items ≡ counts_of per periods.now.keys (rows_in area.now rows.now)) }
    ensures few { IfOk result (λ counts. All (λ count. count ≤ row_limit) counts.items) }
{
    let mut counts = vec![in alloc; 0u64; periods.len()]?;
    for place in 0..rows.count() as usize {
        counts = with_row(counts, rows, area, per, periods, place);
    }
    Ok(counts)
}

fn with_row(
    counts: Vec<u64>,
    rows: &Rows,
    area: &Area,
    per: Option<usize>,
    periods: &IndexSet<i64>,
    place: usize,
) -> Vec<u64>
    requires there { place < length rows.now }
    requires numbered { HavePeriods per rows.now }
    requires long { length counts.items ≡ length periods.now.keys }
    requires small { All (λ count. count < row_limit) counts.items }
    ensures { result.items ≡ counts_with per periods.now.keys area.now (row_at rows.now place) counts.items }
{
    if !rows.has_row(area, place) {
        return counts;
    }
    let at = place_of(periods, period_at(rows, per, place));
    with_one_at(counts, at)
}

/// Where a period stands among some.
fn place_of(periods: &IndexSet<i64>, period: i64) -> Option<usize>
    ensures place { result ≡ position (int_eq period) periods.now.keys }
    ensures inside { IfSome result (λ at. at < length periods.now.keys) }
{
    periods.get_index_of(&period)
}

fn with_one_at(counts: Vec<u64>, at: Option<usize>) -> Vec<u64>
    requires inside { IfSome at (λ at. at < length counts.items) }
    requires small { All (λ count. count < row_limit) counts.items }
    ensures { result.items ≡ with_one_at counts.items at }
{
    match at {
        None => counts,
        Some(at) => with_one(counts, at),
    }
}

/// One more at a place.
fn with_one(counts: Vec<u64>, at: usize) -> Vec<u64>
    requires inside { at < length counts.items }
    requires small { All (λ count. count < row_limit) counts.items }
    ensures { result.items ≡ with_one counts.items at }
{
    let mut counts = counts;
    counts[at] += 1;
    counts
}
