ghost use Rattle.std.specs.Prelude.{◌≡◌, ◌<◌, true, length, IfOk, IfSome, slice_set};
ghost use Rattle.std.specs.Cmp.Lexicographic.{pointwise};
ghost use Rattle.std.specs.List.{AllZip};
ghost use Rattle.pc_model.specs.Membership.{has, holds};
ghost use Rattle.pc_model.specs.CutTrees.{side_at};
ghost use Rattle.pc_model.specs.Places.{is_place_of};
ghost use Rattle.pc_box.specs.Boxes.{are_like, IsBox};
ghost use Rattle.pc_cells.specs.Found.{IsFilled, cell_at, leaves_at, leaf_in, HasNumber, HoldsNumberIn};
ghost use Rattle.pc_cells.specs.Lowest.{IsBelowPlaces, IsLeastOf, IsLowestBut};

use crate::cells::Cells;
use pc_list::Seq;
use pc_model::{Region, Row, Side};
use pc_num::Memory;
use std::alloc::Global;

impl Cells {
    /// The lowest row of a leaf of a cell, but with this number in the column, if one is named.
    pub fn row_at(
        &self,
        alloc: Global,
        cell: usize,
        leaf: u32,
        column: Option<u8>,
        value: i64,
    ) -> Result<Row, Memory>
        requires there { cell < length self.now.cells }
        requires leaf_there { leaf < length (leaves_at self.now.cells cell) }
        requires filled { IsFilled (cell_at self.now.cells cell) }
        requires held { IfSome column (λ at. HoldsNumberIn self.now.cells cell leaf at value) }
        ensures row { IfOk result (λ row. has (leaf_in self.now.cells cell leaf) row ≡ true) }
        ensures number { IfOk result (HasNumber column value) }
        ensures lowest { IfOk result (IsLowestBut column (leaf_in self.now.cells cell leaf)) }
    {
        let leaves = self.leaves(cell);
        row_in(alloc, &leaves[leaf as usize], column, value)
    }
}

fn row_in(alloc: Global, region: &Region, column: Option<u8>, value: i64) -> Result<Row, Memory>
    requires filled { IsBox region.now }
    requires held { IfSome column (λ named. holds (side_at region.now named) value ≡ true) }
    ensures row { IfOk result (λ row. has region.now row ≡ true) }
    ensures number { IfOk result (HasNumber column value) }
    ensures lowest { IfOk result (IsLowestBut column region.now) }
{
    let cells = numbers_of(alloc, region.sides.as_slice())?;
    match column {
        None => Ok(row_of(cells)),
        Some(named) => Ok(row_of(with_number(cells, named as usize, value))),
    }
}

fn row_of(cells: Vec<i64>) -> Row
    ensures { result.cells ≡ cells.items }
{
    Row {
        cells: Seq::from_vec(cells),
    }
}

fn with_number(cells: Vec<i64>, column: usize, value: i64) -> Vec<i64>
    requires { column < length cells.items }
    ensures { result.items ≡ slice_set cells.items column value }
{
    let mut cells = cells;
    cells[column] = value;
    cells
}

/// The least number of each side.
#[tactic(auto, using(crate::proofs::Lowest::steps))]
fn numbers_of(alloc: Global, sides: &[Side]) -> Result<Vec<i64>, Memory>
    requires { pointwise are_like sides.now sides.now ≡ true }
    ensures held { IfOk result (λ cells. pointwise holds sides.now cells.items ≡ true) }
    ensures least { IfOk result (λ cells. AllZip IsLeastOf sides.now cells.items) }
{
    let mut cells = Vec::new(alloc);
    for side in sides {
        cells.push(number_of(side))?;
    }
    Ok(cells)
}

/// The least number of a side that is not empty.
fn number_of(side: &Side) -> i64
    requires { are_like side.now side.now ≡ true }
    ensures { IsLeastOf side.now result }
{
    match side {
        Side::Span { low, .. } => *low,
        Side::Names { bits } => lowest_place(*bits),
    }
}

#[tactic(auto, using(crate::proofs::Picks::lowest_is_place, crate::proofs::Lowest::below_places))]
fn lowest_place(bits: u128) -> i64
    requires { 0 < bits }
    ensures place { is_place_of bits result ≡ true }
    ensures lowest { IsBelowPlaces bits result }
{
    bits.trailing_zeros() as i64
}
