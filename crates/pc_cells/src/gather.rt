ghost use Rattle.std.specs.Prelude.{◌≡◌, ◌<◌, List, length, IfOk};
ghost use Rattle.pc_model.specs.declared.tree.Leaf.{Leaf};
ghost use Rattle.pc_cells.specs.Found.{cells_of};
ghost use Rattle.pc_cells.specs.Gathering.{IsGatheredFrom, HasGathered, leaf_of, with_cell, with_leaf_at};

use crate::cells::Cell;
use indexmap::IndexSet;
use pc_list::Seq;
use pc_model::{Leaf, LeafMark, Region};
use pc_num::Memory;
use std::alloc::Global;

/// A class of rows.
#[derive(Clone, Copy, Debug, PartialEq, Eq, Hash)]
struct ClassKey {
    mask: u32,
    chosen: bool,
}

/// The cells of the leaves so far, and their classes in the same order, by which they are found.
#[derive(Drop)]
struct Gathering {
    classes: IndexSet<ClassKey>,
    cells: Vec<Cell>,
}

/// The cells of leaves, in order of their first leaf.
pub(crate) fn gather(alloc: Global, leaves: Seq<Leaf>) -> Result<Seq<Cell>, Memory>
    ensures { IfOk result (λ cells. cells ≡ cells_of leaves) }
{
    let mut gathering = Gathering {
        classes: IndexSet::new(alloc),
        cells: Vec::new(alloc),
    };
    for leaf in leaves.into_vec() {
        gathering = with_leaf(alloc, gathering, leaf)?;
    }
    Ok(Seq::from_vec(gathering.cells))
}

fn with_leaf(alloc: Global, gathering: Gathering, leaf: Leaf) -> Result<Gathering, Memory>
    requires { (leaves : List Leaf) × IsGatheredFrom leaves gathering }
    ensures { IfOk result (HasGathered gathering leaf) }
{
    match leaf.mark {
        LeafMark::Barren => Ok(gathering),
        LeafMark::Class { mask, chosen } => {
            with_region(alloc, gathering, ClassKey { mask, chosen }, leaf.region)
        }
    }
}

fn with_region(
    alloc: Global,
    gathering: Gathering,
    class: ClassKey,
    region: Region,
) -> Result<Gathering, Memory>
    requires { (leaves : List Leaf) × IsGatheredFrom leaves gathering }
    ensures { IfOk result (HasGathered gathering (leaf_of class region)) }
{
    let Gathering { mut classes, cells } = gathering;
    let (place, is_new) = classes.insert_full(class)?;
    let cells = with_cell(alloc, cells, class, is_new)?;
    let cells = with_leaf_at(cells, place, region)?;
    Ok(Gathering { classes, cells })
}

/// The cells, and one more without leaves if the class is new.
fn with_cell(
    alloc: Global,
    cells: Vec<Cell>,
    class: ClassKey,
    is_new: bool,
) -> Result<Vec<Cell>, Memory>
    ensures { IfOk result (λ more. more.items ≡ with_cell cells.items class is_new) }
{
    if !is_new {
        return Ok(cells);
    }
    let mut cells = cells;
    cells.push(Cell {
        mask: class.mask,
        chosen: class.chosen,
        leaves: Seq::new(alloc),
    })?;
    Ok(cells)
}

fn with_leaf_at(cells: Vec<Cell>, place: usize, region: Region) -> Result<Vec<Cell>, Memory>
    requires { place < length cells.items }
    ensures { IfOk result (λ more. more.items ≡ with_leaf_at cells.items place region) }
{
    let mut cells = cells;
    cells[place].leaves.push(region)?;
    Ok(cells)
}
