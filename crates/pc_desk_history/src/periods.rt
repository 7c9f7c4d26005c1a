ghost use Rattle.std.specs.Prelude.{◌≡◌, ◌<◌, ◌^◌, IfOk, Some, length};
ghost use Rattle.pc_model.specs.Aggregate.{number_at};
ghost use Rattle.pc_model.specs.WellFormed.{IsWellFormed};
ghost use Rattle.pc_rows.specs.Stored.{row_at};
ghost use Rattle.pc_desk_history.specs.Periods.{HaveNumbers, HavePeriods, has_gap, is_gapped, is_wider, period_of, periods_of, periods_with, rows_in};

use crate::extent::{Extent, extent_of};
use indexmap::IndexSet;
use pc_model::{Area, Kind, Schema};
use pc_num::Memory;
use pc_rows::Rows;
use std::alloc::Global;

/// The number by which the period of the row at a place is known.
pub(crate) fn period_at(rows: &Rows, per: Option<usize>, place: usize) -> i64
    requires there { place < length rows.now }
    requires numbered { HavePeriods per rows.now }
    ensures { result ≡ period_of per (row_at rows.now place) }
{
    match per {
        None => 0,
        Some(column) => number_at(rows, column, place),
    }
}

fn number_at(rows: &Rows, column: usize, place: usize) -> i64
    requires there { place < length rows.now }
    requires numbered { HaveNumbers column rows.now }
    ensures { result ≡ number_at (row_at rows.now place) column }
{
    rows.cell(place as u64, column as u8)
}

/// The periods that rows of an area have.
#[tactic(auto, using(crate::proofs::Steps::period_steps))]
pub(crate) fn periods_of(
    alloc: Global,
    rows: &Rows,
    area: &Area,
    per: Option<usize>,
) -> Result<IndexSet<i64>, Memory>
    requires numbered { HavePeriods per rows.now }
    ensures { IfOk result (λ periods. periods.keys ≡ periods_of per (rows_in area.now rows.now)) }
{
    let mut periods = IndexSet::new(alloc);
    for place in 0..rows.count() as usize {
        periods = with_row(periods, rows, area, per, place)?;
    }
    Ok(periods)
}

fn with_row(
    periods: IndexSet<i64>,
    rows: &Rows,
    area: &Area,
    per: Option<usize>,
    place: usize,
) -> Result<IndexSet<i64>, Memory>
    requires there { place < length rows.now }
    requires numbered { HavePeriods per rows.now }
    ensures { IfOk result (λ more. more.keys ≡ periods_with per area.now (row_at rows.now place) periods.keys) }
{
    if !rows.has_row(area, place) {
        return Ok(periods);
    }
    let mut periods = periods;
    periods.insert_full(period_at(rows, per, place))?;
    Ok(periods)
}

/// Whether of the periods of an area's rows, of which so many have one, some have none.
pub(crate) fn is_gapped(
    schema: &Schema,
    rows: &Rows,
    area: &Area,
    per: Option<usize>,
    count: usize,
) -> Result<bool, Memory>
    requires well_formed { IsWellFormed schema.now }
    requires counted { count ≡ length (periods_of per (rows_in area.now rows.now)) }
    ensures { IfOk result (λ gapped. gapped ≡ is_gapped schema.now per (rows_in area.now rows.now)) }
{
    let Some(column) = per else {
        return Ok(false);
    };
    match schema.columns.as_slice().get(column) {
        None => Ok(false),
        Some(named) => has_gap(&named.kind, rows, area, column, count),
    }
}

fn has_gap(
    kind: &Kind,
    rows: &Rows,
    area: &Area,
    column: usize,
    count: usize,
) -> Result<bool, Memory>
    requires few { column < 2 ^ 8 }
    requires counted { count ≡ length (periods_of (Some column) (rows_in area.now rows.now)) }
    ensures { IfOk result (λ gap. gap ≡ has_gap column (rows_in area.now rows.now) kind.now) }
{
    match kind {
        Kind::Cat { .. } => Ok(false),
        Kind::Int { .. } | Kind::Dec { .. } => {
            let extent = extent_of(rows, column, area)?;
            Ok(is_wider(count, extent))
        }
    }
}

/// Whether an extent has more numbers than so many.
fn is_wider(count: usize, extent: Option<Extent>) -> bool
    ensures { result ≡ is_wider count extent }
{
    match extent {
        None => false,
        Some(extent) => count as i128 <= i128::from(extent.high) - i128::from(extent.low),
    }
}
