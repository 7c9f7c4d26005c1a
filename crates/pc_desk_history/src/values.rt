ghost use Rattle.std.specs.Prelude.{◌≡◌, ◌<◌, ◌≤◌, ◌^◌, IfOk};
ghost use Rattle.pc_model.specs.WellFormed.{HasFewNames, IsWellFormed};
ghost use Rattle.pc_desk_history.specs.Draft.{is_fixed, is_listed, is_per, ranged_side, side_of, side_within, values_of};
ghost use Rattle.pc_desk_history.specs.Periods.{extent_of, rows_in};
ghost use Rattle.pc_desk_history.specs.Widening.{percent_limit};

use crate::extent::{Extent, extent_of};
use crate::widening::widened_extent;
use crate::wish::Wish;
use pc_list::Seq;
use pc_model::{Area, Kind, Region, Schema, Side};
use pc_num::Memory;
use pc_rows::Rows;
use std::alloc::Global;

/// The values that the rows of a cell have, widened.
#[tactic(auto, using(crate::proofs::Steps::side_steps))]
pub(crate) fn values_of(
    alloc: Global,
    schema: &Schema,
    rows: &Rows,
    cell: &Area,
    wish: &Wish,
) -> Result<Region, Memory>
    requires well_formed { IsWellFormed schema.now }
    requires percent { wish.now.widen ≤ percent_limit }
    ensures { IfOk result (λ values. values ≡ values_of schema.now wish.now (rows_in cell.now rows.now)) }
{
    let columns = schema.columns.as_slice();
    let mut sides = Seq::new(alloc);
    for column in 0..columns.len() {
        sides.push(side_of(rows, cell, wish, column, &columns[column].kind)?)?;
    }
    Ok(Region { sides })
}

fn side_of(
    rows: &Rows,
    cell: &Area,
    wish: &Wish,
    column: usize,
    kind: &Kind,
) -> Result<Side, Memory>
    requires few { column < 2 ^ 8 }
    requires names { HasFewNames kind.now }
    requires percent { wish.now.widen ≤ percent_limit }
    ensures { IfOk result (λ side. side ≡ side_of wish.now (rows_in cell.now rows.now) column kind.now) }
{
    if is_fixed(wish, column) {
        return Ok(kind.whole_side());
    }
    ranged_side(wish.widen, rows, cell, column, kind)
}

/// Whether cells or periods are made by a column.
fn is_fixed(wish: &Wish, column: usize) -> bool
    ensures { result ≡ is_fixed wish.now column }
{
    is_listed(wish.divided.as_slice(), column) || is_per(wish.per, column)
}

fn is_listed(places: &[usize], column: usize) -> bool
    ensures { result ≡ is_listed places.now column }
{
    places.iter().any(|place| *place == column)
}

fn is_per(per: Option<usize>, column: usize) -> bool
    ensures { result ≡ is_per per column }
{
    match per {
        None => false,
        Some(place) => place == column,
    }
}

fn ranged_side(
    percent: u64,
    rows: &Rows,
    cell: &Area,
    column: usize,
    kind: &Kind,
) -> Result<Side, Memory>
    requires few { column < 2 ^ 8 }
    requires names { HasFewNames kind.now }
    requires percent { percent ≤ percent_limit }
    ensures { IfOk result (λ side. side ≡ ranged_side percent kind.now (extent_of column (rows_in cell.now rows.now))) }
{
    match kind {
        Kind::Int { low, high } => {
            let extent = extent_of(rows, column, cell)?;
            Ok(side_within(percent, *low, *high, extent))
        }
        Kind::Dec { low, high, .. } => {
            let extent = extent_of(rows, column, cell)?;
            Ok(side_within(percent, *low, *high, extent))
        }
        Kind::Cat { .. } => Ok(kind.whole_side()),
    }
}

fn side_within(percent: u64, low: i64, high: i64, extent: Option<Extent>) -> Side
    requires percent { percent ≤ percent_limit }
    ensures { result ≡ side_within percent low high extent }
{
    match extent {
        None => Side::Span { low, high },
        Some(extent) => {
            let wide = widened_extent(percent, low, high, extent);
            Side::Span {
                low: wide.low,
                high: wide.high,
            }
        }
    }
}
