//! The cells into which divisions cut an area.
ghost use Rattle.std.specs.Prelude.{◌≡◌, ◌∷◌, [], IfOk, fold, map};
ghost use Rattle.pc_model.specs.Boxes.{IsAreaOf};
ghost use Rattle.pc_model.specs.WellFormed.{IsWellFormed};
ghost use Rattle.pc_desk_divide.specs.Pieces.{AreDivisions};
ghost use Rattle.pc_desk_divide.specs.Cells.{AreCellsOf, cells_of, cells_unless_many, cells_with, choices, parting_of, times};

use crate::cutting::cut_cells;
use crate::division::Division;
use crate::parting::Parting;
use crate::pieces::pieces_of;
use pc_list::Seq;
use pc_model::{Area, Region, Schema};
use pc_num::Memory;
use std::alloc::Global;

/// An area has at most so many cells.
const CELL_LIMIT: u64 = 20;

/// What comes of divisions of an area.
#[derive(Debug, Drop)]
pub enum Cells {
    /// The cells, of which each has some box.
    Divided(Seq<Area>),
    /// So many choices of a piece in each column there are, and at most 20 are served.
    TooMany(u64),
}

/// The cells into which divisions cut an area of a schema.
#[tactic(auto, using(crate::proofs::CellLaws::cells_are_of), unfolding(crate::specs::Cells::cells_of))]
pub fn cells_of(
    alloc: Global,
    schema: &Schema,
    chosen: &Area,
    divisions: &[Division],
) -> Result<Cells, Memory>
    requires formed { IsWellFormed schema.now }
    requires area { IsAreaOf schema.now chosen.now }
    requires divided { AreDivisions schema.now divisions.now }
    ensures cells { IfOk result (λ cells. cells ≡ cells_of chosen.now divisions.now) }
    ensures areas { IfOk result (AreCellsOf schema.now) }
{
    let partings = partings_of(alloc, chosen.boxes.as_slice(), divisions)?;
    cells_unless_many(alloc, chosen, partings.as_slice())
}

#[tactic(auto, using(std::proofs::lemmas::List::map_more))]
fn partings_of(
    alloc: Global,
    boxes: &[Region],
    divisions: &[Division],
) -> Result<Seq<Parting>, Memory>
    ensures { IfOk result (λ partings. partings ≡ map (parting_of boxes.now) divisions.now) }
{
    let mut partings = Seq::new(alloc);
    for division in divisions {
        partings.push(parting_of(alloc, boxes, division)?)?;
    }
    Ok(partings)
}

fn parting_of(alloc: Global, boxes: &[Region], division: &Division) -> Result<Parting, Memory>
    ensures { IfOk result (λ parting. parting ≡ parting_of boxes.now division.now) }
{
    let pieces = pieces_of(alloc, boxes, division)?;
    Ok(Parting {
        column: division.column,
        pieces,
    })
}

fn cells_unless_many(alloc: Global, chosen: &Area, partings: &[Parting]) -> Result<Cells, Memory>
    ensures { IfOk result (λ cells. cells ≡ cells_unless_many chosen.now partings.now) }
{
    let count = choices(partings);
    if CELL_LIMIT < count {
        return Ok(Cells::TooMany(count));
    }
    Ok(Cells::Divided(cells_with(alloc, chosen, partings)?))
}

fn choices(partings: &[Parting]) -> u64
    ensures { result ≡ choices partings.now }
{
    let mut count = 1;
    for parting in partings {
        count = times(count, parting);
    }
    count
}

fn times(count: u64, parting: &Parting) -> u64
    ensures { result ≡ times count parting.now }
{
    count.saturating_mul(parting.pieces.len() as u64)
}

fn cells_with(alloc: Global, chosen: &Area, partings: &[Parting]) -> Result<Seq<Area>, Memory>
    ensures { IfOk result (λ cells. cells ≡ cells_with chosen.now partings.now) }
{
    let mut cells = one_cell(alloc, chosen)?;
    for parting in partings {
        cells = cut_cells(alloc, cells, parting)?;
    }
    Ok(cells)
}

fn one_cell(alloc: Global, chosen: &Area) -> Result<Seq<Area>, Memory>
    ensures { IfOk result (λ cells. cells ≡ chosen.now ∷ []) }
{
    let mut cells = Seq::new(alloc);
    cells.push(chosen.clone()?)?;
    Ok(cells)
}
