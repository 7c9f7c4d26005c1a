ghost use Rattle.std.specs.Prelude.{◌≡◌, ◌<◌, length, IfOk};
ghost use Rattle.pc_model.specs.CutTrees.{shape_of};
ghost use Rattle.pc_model.specs.Regions.{whole_region};
ghost use Rattle.pc_cells_tree.specs.Linked.{CanBeDivided};
ghost use Rattle.pc_cells_tree.specs.Straight.{AreNeeded};
ghost use Rattle.pc_cells.specs.Found.{AreCellsFor, leaves_at};

use crate::gather::gather;
use pc_cells_tree::{Growth, grown_tree};
use pc_list::Seq;
use pc_model::{Area, Constraint, CutTree, Region, Schema};
use pc_num::Memory;
use std::alloc::Global;

/// The rows that can be lost of one class: those that the constraints of `mask` speak of, bit j for constraint j,
/// and no other constraint, which the query chooses or not. They are the rows of its leaves.
#[derive(Debug, PartialEq, Eq, Drop)]
pub struct Cell {
    pub mask: u32,
    pub chosen: bool,
    pub leaves: Seq<Region>,
}

/// A settled tree of cuts, and its cells in order of their first leaf.
#[derive(Debug, PartialEq, Eq, Drop)]
pub struct Cells {
    pub tree: CutTree,
    pub cells: Seq<Cell>,
}

impl Cells {
    /// The leaves of a cell.
    pub(crate) fn leaves(&self, cell: usize) -> &[Region]
        requires { cell < length self.now.cells }
        ensures { result.now ≡ leaves_at self.now.cells cell }
    {
        self.cells.as_slice()[cell].leaves.as_slice()
    }
}

/// Divides the rows of the domain by which constraints speak of them and whether the query chooses them, with a
/// tree for them alone, which is grown straight away and has no cut that is not needed.
pub fn decompose(
    alloc: Global,
    schema: &Schema,
    constraints: &[Constraint],
    chosen: &Area,
) -> Result<Cells, Memory>
    requires asked { CanBeDivided schema.now constraints.now chosen.now }
    ensures found { IfOk result (AreCellsFor schema.now constraints.now chosen.now) }
    ensures needed { IfOk result (λ found. AreNeeded constraints.now chosen.now (whole_region schema.now) (shape_of found.tree.nodes)) }
{
    let Growth { nodes, leaves } = grown_tree(alloc, schema, constraints, chosen)?;
    let cells = gather(alloc, leaves)?;
    Ok(Cells {
        tree: CutTree { nodes },
        cells,
    })
}
