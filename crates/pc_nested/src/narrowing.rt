ghost use Rattle.std.specs.Prelude.{◌≡◌, ◌<◌, ◌≤◌, ◌≤ℤ◌, ◌∷◌, pos, length, All, IfOk, cond};
ghost use Rattle.pc_program_bound.specs.Sums.{nat_at};
ghost use Rattle.pc_program_bound.specs.Allocation.{cells_of, constraints_of, total, IsProgram};
ghost use Rattle.pc_program.specs.Settled.{is_in};
ghost use Rattle.pc_nested.specs.Filled.{AreSmall, AreBelow};
ghost use Rattle.pc_nested.specs.Narrowed.{ComesBefore, IsNarrowing, IsRaised, IsLowered, IsEmptied, places_of};

use crate::filling::fill;
use crate::places::is_in;
use pc_list::Seq;
use pc_num::Memory;
use pc_program_bound::{Program, total_of};
use std::alloc::Global;

/// A constraint that narrowed the ends of its cells: the price of the last row that it forced, and of the last one that it
/// let in, where it did so.
#[derive(Clone, Copy, Debug, PartialEq, Eq)]
pub struct Step {
    pub place: usize,
    pub raised: Option<i128>,
    pub lowered: Option<i128>,
}

/// The ends of all cells after some steps, of which the last one stands first.
#[derive(Debug, PartialEq, Eq, Drop)]
pub struct Narrowing {
    pub lows: Seq<u64>,
    pub highs: Seq<u64>,
    pub steps: Seq<Step>,
}

/// Low or high ends, with the price of the last row where they were moved.
#[derive(Debug, PartialEq, Eq, Drop)]
struct Ends {
    counts: Seq<u64>,
    price: Option<i128>,
}

/// Narrows the ends of a constraint's cells, so that its total is from its least to its most.
#[tactic(auto, using(crate::proofs::Ends::narrowing_steps))]
pub(crate) fn narrow(
    alloc: Global,
    p: &Program,
    place: usize,
    narrowing: Narrowing,
) -> Result<Narrowing, Memory>
    requires program { IsProgram p.now }
    requires gains { AreSmall p.now }
    requires there { place < constraints_of p.now }
    requires narrowing { IsNarrowing p.now narrowing.steps narrowing.lows narrowing.highs }
    requires order { All (λ step. ComesBefore p.now step.place place) narrowing.steps }
    requires enough { pos (nat_at p.now.least place) ≤ℤ total p.now narrowing.highs place }
    requires not_more { total p.now narrowing.lows place ≤ℤ pos (nat_at p.now.most place) }
    ensures narrowing { IfOk result (λ n. IsNarrowing p.now n.steps n.lows n.highs) }
    ensures places { IfOk result (λ n. places_of n.steps ≡ place ∷ places_of narrowing.steps) }
{
    let Narrowing { lows, highs, steps } = narrowing;
    let raised = raise(p, place, lows, highs.as_slice());
    let lowered = lower(alloc, p, place, raised.counts.as_slice(), highs)?;
    let mut steps = steps;
    steps.push_front(Step {
        place,
        raised: raised.price,
        lowered: lowered.price,
    })?;
    Ok(Narrowing {
        lows: raised.counts,
        highs: lowered.counts,
        steps,
    })
}

/// Raises low ends by the dearest rows, where they are too few.
#[tactic(auto, using(crate::proofs::Ends::raising))]
fn raise(p: &Program, place: usize, lows: Seq<u64>, highs: &[u64]) -> Ends
    requires program { IsProgram p.now }
    requires gains { AreSmall p.now }
    requires there { place < constraints_of p.now }
    requires sized { length lows ≡ cells_of p.now }
    requires sized_highs { length highs.now ≡ cells_of p.now }
    requires ordered { AreBelow p.now lows highs.now }
    requires enough { pos (nat_at p.now.least place) ≤ℤ total p.now highs.now place }
    ensures { IsRaised p.now place lows highs.now result.counts result.price }
{
    let least = p.least.as_slice()[place];
    if total_of(p, lows.as_slice(), place) >= u128::from(least) {
        return Ends {
            counts: lows,
            price: None,
        };
    }
    let filled = fill(p, place, lows, highs, least);
    Ends {
        counts: filled.counts,
        price: Some(filled.price),
    }
}

/// Lowers high ends where they are too many, so that the dearest rows are left.
#[tactic(auto, using(crate::proofs::Ends::lowering))]
fn lower(
    alloc: Global,
    p: &Program,
    place: usize,
    lows: &[u64],
    highs: Seq<u64>,
) -> Result<Ends, Memory>
    requires program { IsProgram p.now }
    requires gains { AreSmall p.now }
    requires there { place < constraints_of p.now }
    requires sized { length lows.now ≡ cells_of p.now }
    requires sized_highs { length highs ≡ cells_of p.now }
    requires ordered { AreBelow p.now lows.now highs }
    requires not_more { total p.now lows.now place ≤ℤ pos (nat_at p.now.most place) }
    ensures { IfOk result (λ ends. IsLowered p.now place lows.now highs ends.counts ends.price) }
{
    let most = p.most.as_slice()[place];
    if total_of(p, highs.as_slice(), place) <= u128::from(most) {
        return Ok(Ends {
            counts: highs,
            price: None,
        });
    }
    let emptied = emptied(alloc, p, place, lows, highs.as_slice())?;
    let filled = fill(p, place, emptied, highs.as_slice(), most);
    Ok(Ends {
        counts: filled.counts,
        price: Some(filled.price),
    })
}

/// The low ends of a constraint's cells, and the high ends of the others.
#[tactic(auto, using(crate::proofs::Building::emptied_steps))]
fn emptied(
    alloc: Global,
    p: &Program,
    place: usize,
    lows: &[u64],
    highs: &[u64],
) -> Result<Seq<u64>, Memory>
    requires few { place < 32 }
    requires sized { length lows.now ≡ cells_of p.now }
    requires sized_highs { length highs.now ≡ cells_of p.now }
    ensures { IfOk result (IsEmptied p.now place lows.now highs.now (cells_of p.now)) }
{
    let mut ends = Seq::new(alloc);
    for cell in 0..p.masks.len() {
        ends.push(end_of(p, place, lows, highs, cell))?;
    }
    Ok(ends)
}

fn end_of(p: &Program, place: usize, lows: &[u64], highs: &[u64], cell: usize) -> u64
    requires few { place < 32 }
    requires sized { length lows.now ≡ cells_of p.now }
    requires sized_highs { length highs.now ≡ cells_of p.now }
    requires cell { cell < cells_of p.now }
    ensures { result ≡ cond (is_in p.now cell place) (nat_at lows.now cell) (nat_at highs.now cell) }
{
    if is_in(p, cell, place) {
        return lows[cell];
    }
    highs[cell]
}
