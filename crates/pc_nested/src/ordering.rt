ghost use Rattle.std.specs.Prelude.{◌≡◌, ◌↔◌, IsTrue, ◌+◌, ◌<◌, ◌≤◌, pos, cond, IfOk};
ghost use Rattle.pc_program_bound.specs.Allocation.{cells_of, constraints_of, IsProgram};
ghost use Rattle.pc_program.specs.Settled.{is_in};
ghost use Rattle.pc_nested.specs.Nested.{IsNested};
ghost use Rattle.pc_nested.specs.Narrowed.{IsNarrowing, places_of};
ghost use Rattle.pc_nested.specs.Sized.{size_of, ArePast};
ghost use Rattle.pc_nested.specs.Ordered.{CanBeMet, IsNarrowedTo};

use crate::narrowing::{Narrowing, narrow};
use crate::places::is_in;
use pc_list::Seq;
use pc_num::Memory;
use pc_program_bound::{Program, total_of};
use std::alloc::Global;

/// The ends that all constraints leave, or those before the constraint at a place, which cannot be met.
#[derive(Debug, PartialEq, Eq, Drop)]
pub enum Narrowed {
    Whole { narrowing: Narrowing },
    Stopped { narrowing: Narrowing, place: usize },
}

/// Narrows the ends of all cells by one constraint after another, those with fewer cells first.
pub(crate) fn narrow_all(alloc: Global, p: &Program) -> Result<Narrowed, Memory>
    requires program { IsProgram p.now }
    requires nested { IsNested p.now }
    ensures { IfOk result (IsNarrowedTo p.now (cells_of p.now + 1) 0) }
{
    let mut narrowing = whole_ends(alloc, p)?;
    for size in 0..p.masks.len() + 1 {
        match narrow_sized(alloc, p, size, narrowing)? {
            Narrowed::Whole { narrowing: next } => narrowing = next,
            Narrowed::Stopped { narrowing, place } => {
                return Ok(Narrowed::Stopped { narrowing, place });
            }
        }
    }
    Ok(Narrowed::Whole { narrowing })
}

/// The ends before any step.
#[tactic(auto, using(crate::proofs::Ends::whole, crate::proofs::Sizes::no_places))]
fn whole_ends(alloc: Global, p: &Program) -> Result<Narrowing, Memory>
    requires program { IsProgram p.now }
    ensures narrowing { IfOk result (λ n. IsNarrowing p.now n.steps n.lows n.highs) }
    ensures past { IfOk result (λ n. ArePast p.now (places_of n.steps) 0 0) }
{
    Ok(Narrowing {
        lows: Seq::from_slice(alloc, p.floor.as_slice())?,
        highs: Seq::from_slice(alloc, p.cap.as_slice())?,
        steps: Seq::new(alloc),
    })
}

/// The same by those of one size.
#[tactic(auto, using(crate::proofs::Sizes::past_next))]
fn narrow_sized(
    alloc: Global,
    p: &Program,
    size: usize,
    narrowing: Narrowing,
) -> Result<Narrowed, Memory>
    requires program { IsProgram p.now }
    requires nested { IsNested p.now }
    requires narrowing { IsNarrowing p.now narrowing.steps narrowing.lows narrowing.highs }
    requires past { ArePast p.now (places_of narrowing.steps) size 0 }
    ensures { IfOk result (IsNarrowedTo p.now (size + 1) 0) }
{
    let mut narrowing = narrowing;
    for place in 0..p.least.len() {
        match narrow_at(alloc, p, size, place, narrowing)? {
            Narrowed::Whole { narrowing: next } => narrowing = next,
            Narrowed::Stopped { narrowing, place } => {
                return Ok(Narrowed::Stopped { narrowing, place });
            }
        }
    }
    Ok(Narrowed::Whole { narrowing })
}

/// The same by the constraint at a place, if it has that size.
#[tactic(auto, using(crate::proofs::Sizes::past_steps))]
fn narrow_at(
    alloc: Global,
    p: &Program,
    size: usize,
    place: usize,
    narrowing: Narrowing,
) -> Result<Narrowed, Memory>
    requires program { IsProgram p.now }
    requires nested { IsNested p.now }
    requires there { place < constraints_of p.now }
    requires narrowing { IsNarrowing p.now narrowing.steps narrowing.lows narrowing.highs }
    requires past { ArePast p.now (places_of narrowing.steps) size place }
    ensures { IfOk result (IsNarrowedTo p.now size (place + 1)) }
{
    if size_of(p, place) != size {
        return Ok(Narrowed::Whole { narrowing });
    }
    if !can_be_met(p, place, &narrowing) {
        return Ok(Narrowed::Stopped { narrowing, place });
    }
    let narrowing = narrow(alloc, p, place, narrowing)?;
    Ok(Narrowed::Whole { narrowing })
}

/// Whether some total between a constraint's ends is between those of its cells.
#[tactic(auto, using(crate::proofs::Ends::narrowed_ends, crate::proofs::Sizes::sizes_met))]
fn can_be_met(p: &Program, place: usize, narrowing: &Narrowing) -> bool
    requires program { IsProgram p.now }
    requires there { place < constraints_of p.now }
    requires narrowing { IsNarrowing p.now narrowing.now.steps narrowing.now.lows narrowing.now.highs }
    ensures { IsTrue result ↔ CanBeMet p.now place narrowing.now.lows narrowing.now.highs }
{
    let fewest = total_of(p, narrowing.lows.as_slice(), place);
    let most = total_of(p, narrowing.highs.as_slice(), place);
    u128::from(p.least.as_slice()[place]) <= most && fewest <= u128::from(p.most.as_slice()[place])
}

/// How many cells a constraint has.
#[tactic(auto, using(crate::proofs::Building::size_steps))]
fn size_of(p: &Program, place: usize) -> usize
    requires few { place < 32 }
    ensures { pos result ≡ size_of p.now place }
{
    let mut size = 0;
    for cell in 0..p.masks.len() {
        size += one_in(p, place, cell);
    }
    size
}

fn one_in(p: &Program, place: usize, cell: usize) -> usize
    requires few { place < 32 }
    requires cell { cell < cells_of p.now }
    ensures one { pos result ≡ cond (is_in p.now cell place) (pos 1) (pos 0) }
    ensures small { result ≤ 1 }
{
    if is_in(p, cell, place) {
        return 1;
    }
    0
}
