ghost use Rattle.std.specs.Prelude.{◌≡◌, ◌<◌, ◌≤◌, List, [], ◌∷◌, ◌++◌, length, OnOk, OnErr, All, None, nat_abs, ◌^◌};
ghost use Rattle.std.specs.List.{remove};
ghost use Rattle.pc_model.specs.Aggregate.{number_at};
ghost use Rattle.pc_model.specs.Membership.{has, is_in, row_from as row};
ghost use Rattle.pc_model.specs.Folds.{IsFold};
ghost use Rattle.pc_rows.specs.Stored.{row_at, row_limit};

use crate::fold::{nothing, with_row};
use crate::numbers::Numbers;
use pc_model::{Area, Column, Folded, Kind, Query, Region, Row};
use pc_num::Memory;
use std::alloc::Global;
use std::marker::Model;

/// A list of rows, whose numbers stand in one piece of memory: row by row, and `width` to each.
#[derive(Debug, Drop)]
pub struct Rows {
    width: usize,
    count: usize,
    numbers: Numbers,
}

impl Model for Rows {
    ghost use Rattle.std.specs.Prelude.{List};
    ghost use Rattle.pc_model.specs.declared.row.Row.{Row};
    ghost use Rattle.pc_rows.specs.Stored.{rows_in, AreStored};

    ghost Value = { List Row };

    ghost view = { λ s. rows_in s.width s.count s.numbers };

    ghost invariant = { λ s. AreStored s.width s.count s.numbers };
}

impl Rows {
    /// The empty list, which takes no memory until a row is pushed.
    pub fn new(alloc: Global) -> Self
        ensures { result ≡ [] }
    {
        Rows {
            width: 0,
            count: 0,
            numbers: Numbers::wide(alloc),
        }
    }

    /// The empty list, for rows of these columns: where no number of theirs takes more, four bytes serve each.
    pub(crate) fn for_columns(alloc: Global, columns: &[Column]) -> Self
        ensures { result ≡ [] }
    {
        Rows {
            width: 0,
            count: 0,
            numbers: numbers_for(alloc, columns),
        }
    }

    /// Adds a row at the end.
    pub fn push(&mut self, row: Row) -> Result<(), Memory>
        requires few { length self.old < row_limit }
        requires alike { All (λ other. length other.cells ≡ length row.cells) self.old }
        ensures ok { OnOk result (self.new ≡ self.old ++ row ∷ []) }
        ensures err { OnErr result (self.new ≡ self.old) }
    {
        self.push_cells(row.cells.as_slice())
    }

    /// Adds a row of these numbers at the end.
    pub fn push_cells(&mut self, cells: &[i64]) -> Result<(), Memory>
        requires few { length self.old < row_limit }
        requires alike { All (λ other. length other.cells ≡ length cells.now) self.old }
        ensures ok { OnOk result (self.new ≡ self.old ++ row cells.now ∷ []) }
        ensures err { OnErr result (self.new ≡ self.old) }
    {
        self.numbers.extend(cells)?;
        self.width = cells.len();
        self.count += 1;
        Ok(())
    }

    /// Takes the row at a place, from 0, out of the list.
    pub fn remove(&mut self, at: u64)
        requires there { at < length self.old }
        ensures removed { self.new ≡ remove self.old at }
    {
        self.numbers.remove(at as usize * self.width, self.width);
        self.count -= 1;
    }

    pub fn count(&self) -> u64
        ensures counted { result ≡ length self.now }
        ensures few { result ≤ row_limit }
    {
        self.count as u64
    }

    /// The number of a row in a column, both counted from 0.
    pub fn cell(&self, row: u64, column: u8) -> i64
        requires row_in { row < length self.now }
        requires column_in { column < length (row_at self.now row).cells }
        ensures { result ≡ number_at (row_at self.now row) column }
    {
        self.number(row as usize, column as usize)
    }

    /// What the rows in the query's area come to. Where the query has no column, the sum is 0.
    pub fn fold(&self, query: &Query) -> Folded
        ensures folded { IsFold query.now None self.now result }
        ensures few { result.count ≤ row_limit }
        ensures small { nat_abs result.sum ≤ 2 ^ 83 }
    {
        let mut folded = nothing();
        for place in 0..self.count {
            if self.has_row(&query.chosen, place) {
                folded = with_row(folded, query.column, self, place);
            }
        }
        folded
    }

    /// The number of the row at a place in a column, and 0 past its numbers.
    pub(crate) fn number(&self, place: usize, column: usize) -> i64
        requires { place < length self.now }
        ensures { result ≡ number_at (row_at self.now place) column }
    {
        if self.width <= column {
            return 0;
        }
        self.numbers.get(place * self.width + column)
    }

    // How many numbers the row at a place has.
    fn row_len(&self, place: usize) -> usize
        requires { place < length self.now }
        ensures { result ≡ length (row_at self.now place).cells }
    {
        self.width
    }

    /// Whether some box of the area holds the row at a place, from 0.
    pub fn has_row(&self, area: &Area, place: usize) -> bool
        requires { place < length self.now }
        ensures { result ≡ is_in area.now (row_at self.now place) }
    {
        area.boxes
            .as_slice()
            .iter()
            .any(|region| self.is_in_box(region, place))
    }

    /// Whether a box holds the row at a place.
    #[tactic(auto, using(pc_model::proofs::Pairs::steps), unfolding(pc_model::specs::Membership::has))]
    pub fn is_in_box(&self, region: &Region, place: usize) -> bool
        requires { place < length self.now }
        ensures { result ≡ has region.now (row_at self.now place) }
    {
        let sides = region.sides.as_slice();
        if sides.len() != self.row_len(place) {
            return false;
        }
        for (column, side) in sides.iter().enumerate() {
            if !side.holds(self.number(place, column)) {
                return false;
            }
        }
        true
    }
}

fn numbers_for(alloc: Global, columns: &[Column]) -> Numbers
    ensures { result ≡ [] }
{
    if columns.iter().all(|column| is_narrow(&column.kind)) {
        return Numbers::narrow(alloc);
    }
    Numbers::wide(alloc)
}

// Whether each number of the kind fits four bytes. The place of a name does.
fn is_narrow(kind: &Kind) -> bool {
    match kind {
        Kind::Int { low, high } => are_narrow(*low, *high),
        Kind::Dec { low, high, .. } => are_narrow(*low, *high),
        Kind::Cat { .. } => true,
    }
}

fn are_narrow(low: i64, high: i64) -> bool {
    i64::from(i32::MIN) <= low && high <= i64::from(i32::MAX)
}
