ghost use Rattle.std.specs.Prelude.{◌≡◌, ◌↔◌, ◌≤◌, ◌<◌, ◌≤ℤ◌, pos, length, [], All, IfOk, IsTrue};
ghost use Rattle.pc_program_bound.specs.Allocation.{IsProgram, constraints_of};
ghost use Rattle.pc_program_bound.specs.Bound.{IsFit, HasFitWidth};
ghost use Rattle.pc_simplex.specs.Vertices.{IsFitMult};
ghost use Rattle.pc_branch.specs.Licence.{no_multipliers};
ghost use Rattle.pc_branch.specs.Steps.{budget_of, IsAt};
ghost use Rattle.pc_branch.specs.Visits.{rooted};

use crate::search::{Hand, Search};
use crate::visit::{Visit, bound_of, visit_box};
use pc_frontier::Frontier;
use pc_list::Seq;
use pc_model::Mult;
use pc_num::Memory;
use pc_program_bound::{Program, dual_bound};
use std::alloc::Global;

/// A search that has visited the start box, with the node to split next.
pub(crate) fn start(
    alloc: Global,
    p: &Program,
    nodes: u32,
) -> Result<(Search, Option<Hand>), Memory>
    requires program { IsProgram p.now }
    requires width { HasFitWidth p.now (no_multipliers p.now) }
    requires nodes { 1 ≤ nodes }
    ensures at { IfOk result (λ r. IsAt p.now r.0 r.1) }
    ensures budget { IfOk result (λ r. budget_of r.0 ≡ nodes) }
{
    let frontier = Frontier::reserve(alloc, nodes)?;
    let none = no_multipliers(alloc, p)?;
    let floor = p.floor.as_slice();
    let cap = p.cap.as_slice();
    let limit = bound_of(p, floor, cap, &none);
    let root = visit_box(alloc, p, floor, cap, &none, limit)?;
    let mut search = rooted(alloc, root, frontier)?;
    let hand = search.pick(0);
    Ok((search, hand))
}

/// Whether the gains are small enough for a search: each of them fits, and so do the running sums of their sizes times
/// the caps of their cells.
pub fn has_fit_gains(alloc: Global, p: &Program) -> Result<bool, Memory>
    requires program { IsProgram p.now }
    ensures { IfOk result (λ fits. IsTrue fits ↔ HasFitWidth p.now (no_multipliers p.now)) }
{
    let none = no_multipliers(alloc, p)?;
    Ok(fits_width(p, &none))
}

/// Whether the numbers of a bound of those multipliers fit.
fn fits_width(p: &Program, mult: &Mult) -> bool
    requires program { IsProgram p.now }
    requires sized { length mult.now.by ≡ constraints_of p.now }
    requires positive { pos 1 ≤ℤ mult.now.den }
    requires fits { All IsFit mult.now.by }
    ensures { IsTrue result ↔ HasFitWidth p.now mult.now }
{
    dual_bound(p, p.floor.as_slice(), p.cap.as_slice(), mult).is_some()
}

/// The multipliers that a leaf has without a parent.
fn no_multipliers(alloc: Global, p: &Program) -> Result<Mult, Memory>
    ensures value { IfOk result (λ mult. mult ≡ no_multipliers p.now) }
    ensures fits { IfOk result IsFitMult }
{
    let by = vec![in alloc; 0i128; p.least.len()]?;
    Ok(Mult {
        by: Seq::from_vec(by),
        den: 1,
    })
}

/// A search of the root alone, which is in hand.
fn rooted(alloc: Global, root: Visit, frontier: Frontier) -> Result<Search, Memory>
    requires none { frontier.nodes ≡ [] }
    requires room { 0 < frontier.room }
    ensures { IfOk result (λ s. s ≡ rooted root frontier) }
{
    let mut frontier = frontier;
    let Visit { node, counts } = root;
    let bound = node.bound;
    let _ = frontier.push_root();
    let mut visited = Seq::new(alloc);
    visited.push(node)?;
    let mut search = Search {
        frontier,
        visited,
        found: None,
        halted: None,
    };
    search.consider(counts, bound);
    Ok(search)
}
