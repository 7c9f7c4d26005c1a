ghost use Rattle.std.specs.Prelude.{◌≡◌, ◌<◌, ◌≤◌, ◌<ℤ◌, ◌≤ℤ◌, ◌⊎◌, pos, negsuc, map, replicate, slice_set, length, IfOk};
ghost use Rattle.pc_program_bound.specs.Sums.{nat_at};
ghost use Rattle.pc_program_bound.specs.Allocation.{cells_of, constraints_of, total, IsProgram};
ghost use Rattle.pc_nested.specs.Narrowed.{flat, flat_price};
ghost use Rattle.pc_nested.specs.Priced.{IsRepriced};

use crate::narrowing::Step;
use crate::pricing::{Pricing, with_price};
use pc_list::Seq;
use pc_num::Memory;
use pc_program_bound::{Program, total_of};
use std::alloc::Global;

/// No constraint has a multiplier yet.
pub(crate) fn no_prices(alloc: Global, p: &Program) -> Result<Pricing, Memory>
    ensures by { IfOk result (λ start. start.by ≡ replicate (constraints_of p.now) (pos 0)) }
    ensures prices { IfOk result (λ start. start.prices ≡ replicate (cells_of p.now) (pos 0)) }
{
    Ok(Pricing {
        by: Seq::from_vec(vec![in alloc; 0; p.least.len()]?),
        prices: Seq::from_vec(vec![in alloc; 0; p.masks.len()]?),
    })
}

/// One constraint alone has a multiplier.
pub(crate) fn one_price(
    alloc: Global,
    p: &Program,
    place: usize,
    sign: i128,
) -> Result<Pricing, Memory>
    requires program { IsProgram p.now }
    requires there { place < constraints_of p.now }
    ensures by { IfOk result (λ start. start.by ≡ slice_set (replicate (constraints_of p.now) (pos 0)) place sign) }
    ensures prices { IfOk result (λ start. IsRepriced p.now place (replicate (cells_of p.now) (pos 0)) sign (cells_of p.now) start.prices) }
{
    let Pricing { by, prices } = no_prices(alloc, p)?;
    let mut by = by.into_vec();
    by[place] = sign;
    Ok(Pricing {
        by: Seq::from_vec(by),
        prices: with_price(p, place, prices, sign),
    })
}

/// The multiplier of a constraint that cannot be met: -1 where even full it has too few, and 1 where it has too many.
pub(crate) fn sign_of(p: &Program, place: usize, highs: &[u64]) -> i128
    requires program { IsProgram p.now }
    requires there { place < constraints_of p.now }
    requires sized { length highs.now ≡ cells_of p.now }
    ensures { ((total p.now highs.now place <ℤ pos (nat_at p.now.least place)) × (result ≡ negsuc 0)) ⊎ ((pos (nat_at p.now.least place) ≤ℤ total p.now highs.now place) × (result ≡ pos 1)) }
{
    if total_of(p, highs, place) < u128::from(p.least.as_slice()[place]) {
        return -1;
    }
    1
}

/// The steps as they would be if no row were worth anything.
pub(crate) fn without_prices(alloc: Global, steps: &[Step]) -> Result<Seq<Step>, Memory>
    ensures { IfOk result (λ changed. changed ≡ map flat steps.now) }
{
    let mut changed = Seq::new(alloc);
    for step in steps {
        changed.push(flat(*step))?;
    }
    Ok(changed)
}

fn flat(step: Step) -> Step
    ensures { result ≡ flat step }
{
    Step {
        place: step.place,
        raised: flat_price(step.raised),
        lowered: flat_price(step.lowered),
    }
}

fn flat_price(price: Option<i128>) -> Option<i128>
    ensures { result ≡ flat_price price }
{
    let Some(_price) = price else {
        return None;
    };
    Some(0)
}
