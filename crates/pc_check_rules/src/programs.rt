ghost use Rattle.std.specs.Prelude.{◌≡◌, length, map, IfOk};
ghost use Rattle.pc_program_bound.specs.Allocation.{IsProgram};
ghost use Rattle.pc_proof.specs.Table.{ratio_of};
ghost use Rattle.pc_check_rules.specs.declared.cells.GatheredCell.{GatheredCell};
ghost use Rattle.pc_check_rules.specs.Scene.{AreLimited};
ghost use Rattle.pc_check_rules.specs.Fractions.{IsMeasured};
ghost use Rattle.pc_check_rules.specs.Programs.{IsProgramIn, chosen_gain, chosen_program, end_program, even_program, gain_towards, open_caps, program_on, program_towards, with_closed};

use crate::cells::GatheredCell;
use crate::extreme::Extreme;
use crate::gains::{chosen_gain, gain_towards, open_cap};
use crate::scene::Scene;
use pc_list::Seq;
use pc_model::Agg;
use pc_num::{Frac, Memory};
use pc_program_bound::Program;
use pc_proof::program_of;
use std::alloc::Global;

/// The program of a search tree that shows a value to be an end.
pub fn program_towards(
    alloc: Global,
    scene: &Scene<'_>,
    extreme: Extreme,
    value: &Frac,
) -> Result<Program, Memory>
    requires limited { AreLimited scene.now.constraints.now }
    requires measured { IsMeasured value.now }
    ensures program { IfOk result (IsProgramIn scene.now (end_program extreme scene.now.agg value.now)) }
    ensures is_program { IfOk result IsProgram }
{
    made_towards(alloc, scene, extreme, value)
}

/// The same by what the cells alone say.
fn made_towards(
    alloc: Global,
    scene: &Scene<'_>,
    extreme: Extreme,
    value: &Frac,
) -> Result<Program, Memory>
    requires measured { IsMeasured value.now }
    ensures { IfOk result (λ p. p ≡ program_towards extreme scene.now.constraints.now scene.now.cells.now scene.now.agg (ratio_of value.now)) }
{
    let gains = gains_towards(alloc, scene, extreme, value)?;
    let whole = program_on(alloc, scene, gains)?;
    match (extreme, scene.agg) {
        (Extreme::High, Agg::Min) => with_closed(alloc, scene.cells, extreme, value, whole),
        (Extreme::Low, Agg::Max) => with_closed(alloc, scene.cells, extreme, value, whole),
        _ => Ok(whole),
    }
}

fn gains_towards(
    alloc: Global,
    scene: &Scene<'_>,
    extreme: Extreme,
    value: &Frac,
) -> Result<Seq<i128>, Memory>
    requires measured { IsMeasured value.now }
    ensures { IfOk result (λ gains. gains ≡ map (gain_towards extreme scene.now.agg (ratio_of value.now)) scene.now.cells.now) }
{
    let mut gains = Seq::new(alloc);
    for cell in scene.cells {
        gains.push(gain_towards(extreme, scene.agg, value, cell))?;
    }
    Ok(gains)
}

/// The program of the counts of rows in the cells, with these gains.
fn program_on(alloc: Global, scene: &Scene<'_>, gains: Seq<i128>) -> Result<Program, Memory>
    ensures { IfOk result (λ p. p ≡ program_on scene.now.constraints.now scene.now.cells.now gains) }
{
    let masks = masks_of(alloc, scene.cells)?;
    program_of(alloc, scene.constraints, masks, gains)
}

fn masks_of(alloc: Global, cells: &[GatheredCell]) -> Result<Seq<u32>, Memory>
    ensures { IfOk result (λ masks. masks ≡ map (λ (cell : GatheredCell). cell.mask) cells.now) }
{
    let masks = cells.iter().map(|cell| cell.mask).collect(alloc)?;
    Ok(Seq::from_vec(masks))
}

/// The program with no rows in the chosen cells that are closed.
fn with_closed(
    alloc: Global,
    cells: &[GatheredCell],
    extreme: Extreme,
    value: &Frac,
    whole: Program,
) -> Result<Program, Memory>
    requires measured { IsMeasured value.now }
    requires sized { length whole.cap ≡ length cells.now }
    ensures { IfOk result (λ p. p ≡ with_closed extreme (ratio_of value.now) cells.now whole) }
{
    let cap = open_caps(alloc, cells, extreme, value, whole.cap.as_slice())?;
    let mut program = whole;
    program.cap = cap;
    Ok(program)
}

fn open_caps(
    alloc: Global,
    cells: &[GatheredCell],
    extreme: Extreme,
    value: &Frac,
    caps: &[u64],
) -> Result<Seq<u64>, Memory>
    requires measured { IsMeasured value.now }
    requires sized { length caps.now ≡ length cells.now }
    ensures { IfOk result (λ left. left ≡ open_caps extreme (ratio_of value.now) cells.now caps.now) }
{
    let mut left = Seq::new(alloc);
    for (place, cell) in cells.iter().enumerate() {
        left.push(open_cap(extreme, value, cell, caps[place]))?;
    }
    Ok(left)
}

/// The program with the same gain for each cell.
pub fn even_program(alloc: Global, scene: &Scene<'_>, gain: i128) -> Result<Program, Memory>
    requires limited { AreLimited scene.now.constraints.now }
    ensures program { IfOk result (IsProgramIn scene.now (even_program gain)) }
    ensures is_program { IfOk result IsProgram }
{
    let gains = vec![in alloc; gain; scene.cells.len()]?;
    program_on(alloc, scene, Seq::from_vec(gains))
}

/// The program with a gain for each chosen cell.
pub fn chosen_program(alloc: Global, scene: &Scene<'_>, gain: i128) -> Result<Program, Memory>
    requires limited { AreLimited scene.now.constraints.now }
    ensures program { IfOk result (IsProgramIn scene.now (chosen_program gain)) }
    ensures is_program { IfOk result IsProgram }
{
    let gains = chosen_gains(alloc, scene.cells, gain)?;
    program_on(alloc, scene, gains)
}

fn chosen_gains(alloc: Global, cells: &[GatheredCell], gain: i128) -> Result<Seq<i128>, Memory>
    ensures { IfOk result (λ gains. gains ≡ map (chosen_gain gain) cells.now) }
{
    let mut gains = Seq::new(alloc);
    for cell in cells {
        gains.push(chosen_gain(gain, cell))?;
    }
    Ok(gains)
}
