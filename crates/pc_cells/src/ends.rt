ghost use Rattle.std.specs.Prelude.{◌≡◌, ◌<◌, ◌^◌, true, false, length};
ghost use Rattle.pc_model.specs.Cells.{low_at, high_at, least_low, greatest_high};
ghost use Rattle.pc_cells.specs.Ends.{end_at, further_end, is_past, last_end, IsFirstAt};
ghost use Rattle.pc_cells.specs.Found.{IsFilled, cell_at, leaves_at, leaf_at, HaveAtLeast, HaveAtMost, HoldsNumberIn, HasNumbers};

use crate::cells::Cells;
use pc_model::{Region, Side};

/// The least and the greatest number of a column over a cell, and the first leaves that hold them.
#[derive(Clone, Copy, Debug, PartialEq, Eq)]
pub struct Ends {
    pub low: i64,
    pub high: i64,
    pub low_leaf: u32,
    pub high_leaf: u32,
}

impl Cells {
    /// The ends of a column of numbers over a cell.
    pub fn extreme(&self, cell: usize, column: u8) -> Ends
        requires there { cell < length self.now.cells }
        requires filled { IsFilled (cell_at self.now.cells cell) }
        requires numbers { HasNumbers column (cell_at self.now.cells cell) }
        ensures low { result.low ≡ least_low column (leaves_at self.now.cells cell) }
        ensures high { result.high ≡ greatest_high column (leaves_at self.now.cells cell) }
        ensures above_low { HaveAtLeast (leaves_at self.now.cells cell) column result.low }
        ensures below_high { HaveAtMost (leaves_at self.now.cells cell) column result.high }
        ensures low_leaf { HoldsNumberIn self.now.cells cell result.low_leaf column result.low }
        ensures high_leaf { HoldsNumberIn self.now.cells cell result.high_leaf column result.high }
        ensures low_first { IsFirstAt true column (leaves_at self.now.cells cell) result.low_leaf result.low }
        ensures high_first { IsFirstAt false column (leaves_at self.now.cells cell) result.high_leaf result.high }
    {
        ends_of(self.leaves(cell), column as usize)
    }
}

fn ends_of(leaves: &[Region], column: usize) -> Ends
    requires some { 0 < length leaves.now }
    requires few { length leaves.now < 2 ^ 32 }
    ensures low { result.low ≡ least_low column leaves.now }
    ensures high { result.high ≡ greatest_high column leaves.now }
    ensures low_there { result.low_leaf < length leaves.now }
    ensures low_held { result.low ≡ low_at column (leaf_at leaves.now result.low_leaf) }
    ensures high_there { result.high_leaf < length leaves.now }
    ensures high_held { result.high ≡ high_at column (leaf_at leaves.now result.high_leaf) }
    ensures low_first { IsFirstAt true column leaves.now result.low_leaf result.low }
    ensures high_first { IsFirstAt false column leaves.now result.high_leaf result.high }
{
    let low = end_of(leaves, column, true);
    let high = end_of(leaves, column, false);
    Ends {
        low: low.number,
        high: high.number,
        low_leaf: low.leaf as u32,
        high_leaf: high.leaf as u32,
    }
}

/// An end of a column, and the place of the first leaf that has it.
#[derive(Clone, Copy)]
struct End {
    number: i64,
    leaf: usize,
}

// The least low end of a column over leaves, or the greatest high end.
#[tactic(auto, using(crate::proofs::Extremes::steps))]
fn end_of(leaves: &[Region], column: usize, low: bool) -> End
    requires { 0 < length leaves.now }
    ensures last { result.number ≡ last_end low column leaves.now }
    ensures there { result.leaf < length leaves.now }
    ensures held { result.number ≡ end_at low column (leaf_at leaves.now result.leaf) }
    ensures first { IsFirstAt low column leaves.now result.leaf result.number }
{
    let mut end = End {
        number: end_at(&leaves[0], column, low),
        leaf: 0,
    };
    for (leaf, region) in leaves.iter().enumerate() {
        end = further_end(end, leaf, region, column, low);
    }
    end
}

fn further_end(end: End, leaf: usize, region: &Region, column: usize, low: bool) -> End
    ensures { result ≡ further_end end leaf region.now column low }
{
    let number = end_at(region, column, low);
    if is_past(number, end.number, low) {
        return End { number, leaf };
    }
    end
}

fn is_past(number: i64, other: i64, low: bool) -> bool
    ensures { result ≡ is_past low number other }
{
    if low {
        return number < other;
    }
    other < number
}

fn end_at(region: &Region, column: usize, low: bool) -> i64
    ensures { result ≡ end_at low column region.now }
{
    if low {
        return low_at(region, column);
    }
    high_at(region, column)
}

fn low_at(region: &Region, column: usize) -> i64
    ensures { result ≡ low_at column region.now }
{
    match region.sides.as_slice().get(column) {
        Some(Side::Span { low, .. }) => *low,
        _ => 0,
    }
}

fn high_at(region: &Region, column: usize) -> i64
    ensures { result ≡ high_at column region.now }
{
    match region.sides.as_slice().get(column) {
        Some(Side::Span { high, .. }) => *high,
        _ => 0,
    }
}
