ghost use Rattle.std.specs.Prelude.{◌≡◌, ◌↔◌, ◌≤ℤ◌, pos, length, All, IsTrue, IfOk};
ghost use Rattle.pc_program_bound.specs.Allocation.{IsProgram, IsBox, constraints_of};
ghost use Rattle.pc_program_bound.specs.Bound.{IsFit, HasFitWidth, without_gain};
ghost use Rattle.pc_simplex_tableau.specs.Relaxation.{ending, at_vertex, at_void, phase_two};
ghost use Rattle.pc_simplex_tableau.specs.Conditions.{IsSized, AreFitNumbers};
ghost use Rattle.pc_simplex_tableau.specs.Point.{IsRelaxation};
ghost use Rattle.pc_simplex.specs.Relaxed.{relaxation_of};
ghost use Rattle.pc_simplex.specs.Vertices.{IsShown, IsGreatest, AreFitMultipliers};

use crate::corner::Corner;
use crate::multipliers::multipliers;
use crate::phases::{Ended, take_both_phases};
use crate::point::point;
use pc_list::Seq;
use pc_model::Mult;
use pc_num::{Frac, Memory};
use pc_program_bound::{Program, dual_bound};
use pc_simplex_tableau::Step;
use std::alloc::Global;

/// The relaxation of a program over a box. The steps that were taken are kept where they end in nothing that can be said:
/// where a number does not fit, or there are too many of them.
#[derive(Drop)]
pub enum Relaxed {
    Vertex { point: Seq<Frac>, mult: Mult },
    Void { mult: Mult },
    Wide { steps: Seq<Step> },
    Stalled { steps: Seq<Step> },
}

/// The relaxation of a program over a box, by at most 20,000 steps.
pub fn relax(alloc: Global, p: &Program, floor: &[u64], cap: &[u64]) -> Result<Relaxed, Memory>
    requires program { IsProgram p.now }
    requires inside { IsBox p.now floor.now cap.now }
    requires gains { All IsFit p.now.gain }
    ensures relaxation { IfOk result (λ r. IsRelaxation p.now floor.now cap.now (relaxation_of r)) }
    ensures shown { IfOk result (λ r. IsShown p.now floor.now cap.now (relaxation_of r)) }
    ensures greatest { IfOk result (λ r. IsGreatest p.now floor.now cap.now (relaxation_of r)) }
    ensures fits { IfOk result (λ r. AreFitMultipliers (relaxation_of r)) }
{
    match take_both_phases(alloc, p, floor, cap)? {
        Ended::AtVertex(steps, tableau) => at_vertex(alloc, p, floor, cap, steps, &tableau),
        Ended::AtVoid(steps, mult) => at_void(alloc, p, floor, cap, steps, mult),
        Ended::AtWide(steps) => Ok(Relaxed::Wide { steps }),
        Ended::AtStall(steps) => Ok(Relaxed::Stalled { steps }),
    }
}

/// The point and the multipliers of a vertex, or that they are wide.
fn at_vertex(
    alloc: Global,
    p: &Program,
    floor: &[u64],
    cap: &[u64],
    steps: Seq<Step>,
    tableau: &Corner,
) -> Result<Relaxed, Memory>
    requires program { IsProgram p.now }
    requires inside { IsBox p.now floor.now cap.now }
    requires ending { ending p.now floor.now cap.now ≡ at_vertex steps tableau.now }
    requires sized { IsSized (phase_two p.now floor.now cap.now) tableau.now }
    requires fits { AreFitNumbers tableau.now }
    ensures relaxation { IfOk result (λ r. IsRelaxation p.now floor.now cap.now (relaxation_of r)) }
    ensures fits { IfOk result (λ r. AreFitMultipliers (relaxation_of r)) }
{
    let mult = multipliers(alloc, p, tableau, tableau.weight())?;
    if !fits_width(p, floor, cap, &mult) {
        return Ok(Relaxed::Wide { steps });
    }
    match point(alloc, p, floor, cap, tableau)? {
        Some(point) => Ok(Relaxed::Vertex { point, mult }),
        None => Ok(Relaxed::Wide { steps }),
    }
}

/// The multipliers of a void box, or that they are wide.
fn at_void(
    alloc: Global,
    p: &Program,
    floor: &[u64],
    cap: &[u64],
    steps: Seq<Step>,
    mult: Mult,
) -> Result<Relaxed, Memory>
    requires program { IsProgram p.now }
    requires inside { IsBox p.now floor.now cap.now }
    requires ending { ending p.now floor.now cap.now ≡ at_void steps mult }
    requires sized { length mult.by ≡ constraints_of p.now }
    requires fits { All IsFit mult.by }
    requires whole { mult.den ≡ pos 1 }
    ensures relaxation { IfOk result (λ r. IsRelaxation p.now floor.now cap.now (relaxation_of r)) }
    ensures fits { IfOk result (λ r. AreFitMultipliers (relaxation_of r)) }
{
    let plain = without_gain(alloc, p)?;
    if fits_width(&plain, floor, cap, &mult) {
        return Ok(Relaxed::Void { mult });
    }
    Ok(Relaxed::Wide { steps })
}

fn fits_width(p: &Program, floor: &[u64], cap: &[u64], mult: &Mult) -> bool
    requires program { IsProgram p.now }
    requires inside { IsBox p.now floor.now cap.now }
    requires sized { length mult.now.by ≡ constraints_of p.now }
    requires positive { pos 1 ≤ℤ mult.now.den }
    requires fits { All IsFit mult.now.by }
    ensures { IsTrue result ↔ HasFitWidth p.now mult.now }
{
    dual_bound(p, floor, cap, mult).is_some()
}

/// The program with gains of 0.
fn without_gain(alloc: Global, p: &Program) -> Result<Program, Memory>
    ensures { IfOk result (λ plain. plain ≡ without_gain p.now) }
{
    let gain = vec![in alloc; 0i128; p.masks.len()]?;
    Ok(Program {
        masks: p.masks.clone()?,
        least: p.least.clone()?,
        most: p.most.clone()?,
        floor: p.floor.clone()?,
        cap: p.cap.clone()?,
        gain: Seq::from_vec(gain),
    })
}
