ghost use Rattle.std.specs.Prelude.{◌↔◌, All, IsTrue};
ghost use Rattle.pc_model.specs.declared.region.Region.{Region};
ghost use Rattle.pc_model.specs.CutTrees.{side_at};
ghost use Rattle.pc_model.specs.Cells.{IsSpanned};
ghost use Rattle.pc_cells.specs.Found.{HasNumbers};

use crate::cells::{Cell, Cells};
use pc_model::{Region, Side};

impl Cells {
    /// Whether the sides of a column are spans of numbers in each leaf, as they are of a column of numbers.
    pub fn has_numbers(&self, column: u8) -> bool
        ensures { IsTrue result ↔ All (HasNumbers column) self.now.cells }
    {
        self.cells
            .as_slice()
            .iter()
            .all(|cell| cell_has_numbers(cell, column))
    }
}

fn cell_has_numbers(cell: &Cell, column: u8) -> bool
    ensures { IsTrue result ↔ HasNumbers column cell.now }
{
    cell.leaves
        .as_slice()
        .iter()
        .all(|leaf| is_spanned(leaf, column))
}

fn is_spanned(leaf: &Region, column: u8) -> bool
    ensures { IsTrue result ↔ IsSpanned (side_at leaf.now column) }
{
    match leaf.sides.as_slice().get(column as usize) {
        Some(Side::Span { .. }) => true,
        _ => false,
    }
}
