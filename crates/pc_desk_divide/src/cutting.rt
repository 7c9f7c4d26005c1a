//! Cells, cut by the pieces of one more column.
ghost use Rattle.std.specs.Prelude.{◌≡◌, ◌<◌, ◌∷◌, ◌++◌, [], IfOk, IfSome, length, slice_get};
ghost use Rattle.std.specs.List.{filter_map};
ghost use Rattle.pc_model.specs.CutTrees.{with_side};
ghost use Rattle.pc_desk_divide.specs.Cells.{common_if, cut_cell, cut_cells, listed, narrowed, narrowed_area, narrowed_boxes};

use crate::parting::Parting;
use pc_list::Seq;
use pc_model::{Area, Region, Side};
use pc_num::Memory;
use std::alloc::Global;

/// Each cell cut by each piece of a column.
#[tactic(auto, using(crate::proofs::Steps::cell_steps))]
pub(crate) fn cut_cells(
    alloc: Global,
    cells: Seq<Area>,
    parting: &Parting,
) -> Result<Seq<Area>, Memory>
    ensures { IfOk result (λ new. new ≡ cut_cells cells parting.now) }
{
    let mut new = Seq::new(alloc);
    for cell in cells.as_slice() {
        new = with_cut(alloc, new, parting, cell)?;
    }
    Ok(new)
}

#[tactic(auto, using(crate::proofs::Steps::piece_steps))]
fn with_cut(
    alloc: Global,
    cells: Seq<Area>,
    parting: &Parting,
    cell: &Area,
) -> Result<Seq<Area>, Memory>
    ensures { IfOk result (λ new. new ≡ cells ++ cut_cell parting.now cell.now) }
{
    let pieces = parting.pieces.as_slice();
    let column = parting.column;
    let mut new = cells;
    for piece in pieces {
        new = with_piece(alloc, new, column, cell, *piece)?;
    }
    Ok(new)
}

fn with_piece(
    alloc: Global,
    cells: Seq<Area>,
    column: usize,
    cell: &Area,
    piece: Side,
) -> Result<Seq<Area>, Memory>
    ensures { IfOk result (λ new. new ≡ cells ++ listed (narrowed_area column cell.now piece)) }
{
    let boxes = narrowed_boxes(alloc, column, piece, cell.boxes.as_slice())?;
    with_listed(cells, Area { boxes })
}

fn with_listed(cells: Seq<Area>, area: Area) -> Result<Seq<Area>, Memory>
    ensures { IfOk result (λ new. new ≡ cells ++ listed area) }
{
    if area.boxes.len() > 0 {
        let mut new = cells;
        new.push(area)?;
        return Ok(new);
    }
    Ok(cells)
}

#[tactic(auto, using(crate::proofs::Steps::box_steps))]
fn narrowed_boxes(
    alloc: Global,
    column: usize,
    piece: Side,
    boxes: &[Region],
) -> Result<Seq<Region>, Memory>
    ensures { IfOk result (λ new. new ≡ narrowed_boxes column piece boxes.now) }
{
    let mut new = Seq::new(alloc);
    for region in boxes {
        new = with_narrowed(alloc, new, column, piece, region)?;
    }
    Ok(new)
}

fn with_narrowed(
    alloc: Global,
    boxes: Seq<Region>,
    column: usize,
    piece: Side,
    region: &Region,
) -> Result<Seq<Region>, Memory>
    ensures { IfOk result (λ new. new ≡ boxes ++ filter_map (narrowed column piece) (region.now ∷ [])) }
{
    match common_at(region, column, piece) {
        Some(side) => {
            let mut new = boxes;
            new.push(with_side(alloc, region, column, side)?)?;
            Ok(new)
        }
        None => Ok(boxes),
    }
}

fn common_at(region: &Region, column: usize, piece: Side) -> Option<Side>
    ensures common { result ≡ common_if (slice_get region.now.sides column) piece }
    ensures there { IfSome result (λ side. column < length region.now.sides) }
{
    match region.sides.as_slice().get(column) {
        Some(side) => side.meet(piece),
        None => None,
    }
}

fn with_side(alloc: Global, region: &Region, column: usize, side: Side) -> Result<Region, Memory>
    requires { column < length region.now.sides }
    ensures { IfOk result (λ new. new ≡ with_side region.now column side) }
{
    let mut sides = Vec::from_slice(alloc, region.sides.as_slice())?;
    sides[column] = side;
    Ok(Region {
        sides: Seq::from_vec(sides),
    })
}
