ghost use Rattle.std.specs.Prelude.{◌≡◌, ◌≤ℤ◌, ◌<◌, ℤ, pos, length, All, MatchOption, IfOk};
ghost use Rattle.pc_model.specs.declared.tree.Mult.{Mult};
ghost use Rattle.std.specs.Int.{int_div_euclid};
ghost use Rattle.pc_program_bound.specs.Allocation.{IsProgram, IsBox};
ghost use Rattle.pc_program_bound.specs.Bound.{IsFit, IsMultiplier, bound_of};
ghost use Rattle.pc_simplex_tableau.specs.Point.{vertex, IsRelaxation};
ghost use Rattle.pc_simplex.specs.Vertices.{IsVertex, IsFitMult, count_at};
ghost use Rattle.pc_branch.specs.Grown.{IsVisited};
ghost use Rattle.pc_branch.specs.Visits.{HasCounts, IsPartingVisit};

use crate::point::{first_broken, rounded, whole_counts};
use crate::visited::{Known, Visited};
use pc_list::Seq;
use pc_model::Mult;
use pc_num::{Frac, Memory};
use pc_program_bound::{Program, dual_bound};
use pc_simplex::{Relaxed, relax};
use std::alloc::Global;

/// A node as its box was visited, with the counts of its point where that is whole.
#[derive(Debug, Drop)]
pub(crate) struct Visit {
    pub node: Visited,
    pub counts: Option<Seq<u64>>,
}

/// What the relaxation of a box says. Where its steps end in no point, the multipliers and the bound are those given.
pub(crate) fn visit_box(
    alloc: Global,
    p: &Program,
    floor: &[u64],
    cap: &[u64],
    above: &Mult,
    limit: i128,
) -> Result<Visit, Memory>
    requires program { IsProgram p.now }
    requires inside { IsBox p.now floor.now cap.now }
    requires gains { All IsFit p.now.gain }
    requires fits { IsFitMult above.now }
    ensures visited { IfOk result (λ v. IsVisited p.now above.now limit floor.now cap.now v.node) }
    ensures counts { IfOk result (λ v. HasCounts p.now floor.now cap.now v) }
{
    match relax(alloc, p, floor, cap)? {
        Relaxed::Vertex { point, mult } => at_vertex(alloc, p, floor, cap, point.as_slice(), mult),
        Relaxed::Void { mult } => Ok(visit_of(Known::Nothing, mult, 0, None)),
        Relaxed::Wide { steps: _ } => halted(above, limit),
        Relaxed::Stalled { steps: _ } => halted(above, limit),
    }
}

fn visit_of(known: Known, mult: Mult, bound: i128, counts: Option<Seq<u64>>) -> Visit
    ensures { result ≡ record { node = record { known = known; mult = mult; bound = bound }; counts = counts } }
{
    Visit {
        node: Visited { known, mult, bound },
        counts,
    }
}

/// What a box says whose steps end in no point.
fn halted(above: &Mult, limit: i128) -> Result<Visit, Memory>
    ensures { IfOk result (λ v. v ≡ record { node = record { known = Known.Stuck; mult = above.now; bound = limit }; counts = None }) }
{
    let mult = above.clone()?;
    Ok(visit_of(Known::Stuck, mult, limit, None))
}

/// What a box says whose steps end in a point.
fn at_vertex(
    alloc: Global,
    p: &Program,
    floor: &[u64],
    cap: &[u64],
    point: &[Frac],
    mult: Mult,
) -> Result<Visit, Memory>
    requires program { IsProgram p.now }
    requires inside { IsBox p.now floor.now cap.now }
    requires relaxed { IsRelaxation p.now floor.now cap.now (vertex point.now mult) }
    requires vertex { IsVertex p.now floor.now cap.now point.now mult }
    requires fits { IsFitMult mult }
    ensures visited { (above : Mult) (limit : ℤ) → IfOk result (λ v. IsVisited p.now above limit floor.now cap.now v.node) }
    ensures counts { IfOk result (λ v. HasCounts p.now floor.now cap.now v) }
{
    let bound = bound_of(p, floor, cap, &mult);
    let Some(cell) = first_broken(point) else {
        let counts = whole_counts(alloc, point)?;
        return Ok(visit_of(Known::Whole, mult, bound, Some(counts)));
    };
    parted(point, cell, mult, bound)
}

/// The bound of multipliers whose width fits.
pub(crate) fn bound_of(p: &Program, floor: &[u64], cap: &[u64], mult: &Mult) -> i128
    requires program { IsProgram p.now }
    requires inside { IsBox p.now floor.now cap.now }
    requires by { IsMultiplier p.now mult.now }
    requires fits { All IsFit mult.now.by }
    ensures { result ≡ bound_of p.now floor.now cap.now mult.now }
{
    match dual_bound(p, floor, cap, mult) {
        Some(bound) => bound,
        None => unreachable!(),
    }
}

/// What a box says whose point is not whole at a cell.
fn parted(point: &[Frac], cell: usize, mult: Mult, bound: i128) -> Result<Visit, Memory>
    requires there { cell < length point.now }
    requires positive { pos 1 ≤ℤ (count_at point.now cell).den }
    requires low { pos 0 ≤ℤ int_div_euclid (count_at point.now cell).num (count_at point.now cell).den }
    requires high { int_div_euclid (count_at point.now cell).num (count_at point.now cell).den ≤ℤ pos 1_000_000_000 }
    ensures { IfOk result (IsPartingVisit point.now cell mult bound) }
{
    let at = rounded(&point[cell]);
    let Ok(cell) = u32::try_from(cell) else {
        return Err(Memory);
    };
    Ok(visit_of(Known::Parted { cell, at }, mult, bound, None))
}
