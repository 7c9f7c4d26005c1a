ghost use Rattle.std.specs.Prelude.{◌≡◌, ◌≤◌, ◌<◌, All, IfOk, length};
ghost use Rattle.pc_model.specs.Accepted.{AreConstraints, constraint_limit};
ghost use Rattle.pc_model.specs.WellFormed.{IsWellFormed};
ghost use Rattle.pc_cells.specs.Found.{IsFilled};
ghost use Rattle.pc_desk_try.specs.Openings.{AreOpenings, has_room, is_open, lets_lose, opening_of, openings_in};

use pc_cells::{Cell, decompose};
use pc_list::Seq;
use pc_model::{Constraint, Region, Schema, has_bit};
use pc_num::Memory;
use std::alloc::Global;

/// Rows that can be lost of which just these constraints speak, bit j for constraint j; a box of such rows, and of how many boxes
/// the class is.
#[derive(Debug, Drop)]
pub struct Opening {
    pub mask: u32,
    pub region: Region,
    pub boxes: usize,
}

/// The classes of rows that the constraints let be lost.
#[tactic(auto, using(pc_model::proofs::FewNames::have_few_names))]
pub fn openings(
    alloc: Global,
    schema: &Schema,
    constraints: &[Constraint],
) -> Result<Seq<Opening>, Memory>
    requires well_formed { IsWellFormed schema.now }
    requires accepted { AreConstraints schema.now constraints.now }
    ensures opens { IfOk result (AreOpenings schema.now constraints.now) }
{
    let whole = schema.whole_area(alloc)?;
    let found = decompose(alloc, schema, constraints, &whole)?;
    openings_of(alloc, constraints, found.cells.as_slice())
}

fn openings_of(
    alloc: Global,
    constraints: &[Constraint],
    cells: &[Cell],
) -> Result<Seq<Opening>, Memory>
    requires few { length constraints.now ≤ constraint_limit }
    requires filled { All IsFilled cells.now }
    ensures { IfOk result (λ openings. openings ≡ openings_in constraints.now cells.now) }
{
    let mut openings = Vec::new(alloc);
    for cell in cells {
        if is_open(constraints, cell.mask) {
            openings.push(opening_of(cell)?)?;
        }
    }
    Ok(Seq::from_vec(openings))
}

/// Whether each constraint of a class has room for a row.
fn is_open(constraints: &[Constraint], mask: u32) -> bool
    requires few { length constraints.now ≤ constraint_limit }
    ensures { result ≡ is_open constraints.now mask }
{
    for (place, constraint) in constraints.iter().enumerate() {
        if !lets_lose(mask, place, constraint) {
            return false;
        }
    }
    true
}

fn lets_lose(mask: u32, place: usize, constraint: &Constraint) -> bool
    requires { place < 128 }
    ensures { result ≡ lets_lose mask (place, constraint.now) }
{
    !has_bit(u128::from(mask), place) || 0 < constraint.most
}

fn opening_of(cell: &Cell) -> Result<Opening, Memory>
    requires { IsFilled cell.now }
    ensures { IfOk result (λ opening. opening ≡ opening_of cell.now) }
{
    let leaves = cell.leaves.as_slice();
    let region = leaves[0].clone()?;
    Ok(Opening {
        mask: cell.mask,
        region,
        boxes: leaves.len(),
    })
}
