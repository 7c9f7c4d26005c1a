ghost use Rattle.std.specs.Prelude.{◌≡◌, map, IfOk};
ghost use Rattle.pc_cells.specs.declared.cells.Cell.{Cell};
ghost use Rattle.pc_agg_search.specs.Targets.{cell_program};

use pc_cells::Cell;
use pc_list::Seq;
use pc_model::Constraint;
use pc_num::Memory;
use pc_program_bound::Program;
use std::alloc::Global;

/// The program of the counts of rows in the cells.
pub fn program_of(
    alloc: Global,
    constraints: &[Constraint],
    cells: &[Cell],
    gains: Seq<i128>,
) -> Result<Program, Memory>
    ensures { IfOk result (λ program. program ≡ cell_program constraints.now cells.now gains) }
{
    let masks = masks_of(alloc, cells)?;
    pc_proof::program_of(alloc, constraints, masks, gains)
}

fn masks_of(alloc: Global, cells: &[Cell]) -> Result<Seq<u32>, Memory>
    ensures { IfOk result (λ masks. masks ≡ map (λ (cell : Cell). cell.mask) cells.now) }
{
    let masks = cells.iter().map(|cell| cell.mask).collect(alloc)?;
    Ok(Seq::from_vec(masks))
}
