ghost use Rattle.std.specs.Prelude.{◌≡◌, ◌<◌, List, length, map, All, IfOk, unwrap_or, false};
ghost use Rattle.pc_model.specs.declared.tree.Leaf.{Leaf};
ghost use Rattle.pc_model.specs.Cells.{classes_of, low_at, high_at};
ghost use Rattle.pc_check_rules.specs.Cells.{Gathers, class_leaf, class_of_cell, cells_from, HasEnds, IsGatheredFrom, cell_of_box, widened, with_box};

use indexmap::IndexSet;
use pc_list::Seq;
use pc_model::{Leaf, LeafMark, Region, Side};
use pc_num::Memory;
use std::alloc::Global;

/// A cell of the leaves of a tree: its class, and the least and the greatest number of a column over their boxes,
/// which are 0 for a column of names.
#[derive(Clone, Copy, Debug, PartialEq, Eq)]
pub struct GatheredCell {
    pub mask: u32,
    pub chosen: bool,
    pub low: i64,
    pub high: i64,
}

/// A class of rows.
#[derive(Clone, Copy, Debug, PartialEq, Eq, Hash)]
struct ClassKey {
    mask: u32,
    chosen: bool,
}

/// The cells of the leaves so far, and their classes in the same order, by which they are found.
#[derive(Drop)]
struct Gathering {
    classes: IndexSet<ClassKey>,
    cells: Vec<GatheredCell>,
}

/// The cells of leaves, in order of their first leaf. Without a column their ends are those of the first one.
#[tactic(auto, using(crate::proofs::Gathered::cell_laws))]
pub fn cells_of(
    alloc: Global,
    leaves: &[Leaf],
    column: Option<u8>,
) -> Result<Seq<GatheredCell>, Memory>
    ensures cells { IfOk result (λ cells. cells ≡ cells_from (unwrap_or column 0) leaves.now) }
    ensures classes { IfOk result (λ cells. map class_of_cell cells ≡ classes_of leaves.now) }
    ensures ends { IfOk result (All (HasEnds (unwrap_or column 0) leaves.now)) }
{
    let gathering = gather(alloc, leaves, column.unwrap_or(0) as usize)?;
    Ok(Seq::from_vec(gathering.cells))
}

fn gather(alloc: Global, leaves: &[Leaf], column: usize) -> Result<Gathering, Memory>
    ensures { IfOk result (IsGatheredFrom column leaves.now) }
{
    let mut gathering = Gathering {
        classes: IndexSet::new(alloc),
        cells: Vec::new(alloc),
    };
    for leaf in leaves {
        gathering = with_leaf(gathering, leaf, column)?;
    }
    Ok(gathering)
}

fn with_leaf(gathering: Gathering, leaf: &Leaf, column: usize) -> Result<Gathering, Memory>
    requires { (leaves : List Leaf) × IsGatheredFrom column leaves gathering }
    ensures { IfOk result (Gathers column gathering leaf.now) }
{
    match leaf.mark {
        LeafMark::Barren => Ok(gathering),
        LeafMark::Class { mask, chosen } => {
            with_region(gathering, ClassKey { mask, chosen }, &leaf.region, column)
        }
    }
}

fn with_region(
    gathering: Gathering,
    class: ClassKey,
    region: &Region,
    column: usize,
) -> Result<Gathering, Memory>
    requires { (leaves : List Leaf) × IsGatheredFrom column leaves gathering }
    ensures { IfOk result (Gathers column gathering (class_leaf region.now class)) }
{
    let Gathering { mut classes, cells } = gathering;
    let (place, is_new) = classes.insert_full(class)?;
    let cells = with_box(cells, cell_of_box(class, region, column), is_new, place)?;
    Ok(Gathering { classes, cells })
}

/// The cell of a class that has one box.
fn cell_of_box(class: ClassKey, region: &Region, column: usize) -> GatheredCell
    ensures { result ≡ cell_of_box column class region.now }
{
    GatheredCell {
        mask: class.mask,
        chosen: class.chosen,
        low: low_at(region, column),
        high: high_at(region, column),
    }
}

/// The cells with a new one, or with a box more in the cell at a place.
fn with_box(
    cells: Vec<GatheredCell>,
    cell: GatheredCell,
    is_new: bool,
    place: usize,
) -> Result<Vec<GatheredCell>, Memory>
    requires { is_new ≡ false → place < length cells.items }
    ensures { IfOk result (λ more. more.items ≡ with_box cells.items cell is_new place) }
{
    let mut cells = cells;
    if is_new {
        cells.push(cell)?;
        return Ok(cells);
    }
    let before = cells[place];
    cells[place] = widened(before, cell);
    Ok(cells)
}

/// A cell with the boxes of another one of its class.
fn widened(cell: GatheredCell, other: GatheredCell) -> GatheredCell
    ensures { result ≡ widened cell other }
{
    GatheredCell {
        mask: cell.mask,
        chosen: cell.chosen,
        low: cell.low.min(other.low),
        high: cell.high.max(other.high),
    }
}

fn low_at(region: &Region, column: usize) -> i64
    ensures { result ≡ low_at column region.now }
{
    match region.sides.as_slice().get(column) {
        Some(Side::Span { low, .. }) => *low,
        _ => 0,
    }
}

fn high_at(region: &Region, column: usize) -> i64
    ensures { result ≡ high_at column region.now }
{
    match region.sides.as_slice().get(column) {
        Some(Side::Span { high, .. }) => *high,
        _ => 0,
    }
}
