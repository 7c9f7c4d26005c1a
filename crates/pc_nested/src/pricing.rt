ghost use Rattle.std.specs.Prelude.{◌≡◌, ◌<◌, ◌≤◌, ◌^◌, ◌∷◌, [], ℕ, ℤ, List, All, IfOk, cond, length, nat_abs, MatchOption, ⊤};
ghost use Rattle.pc_program_bound.specs.Sums.{int_at};
ghost use Rattle.pc_program_bound.specs.Allocation.{cells_of, constraints_of, IsProgram};
ghost use Rattle.pc_program.specs.Settled.{is_in};
ghost use Rattle.pc_nested.specs.declared.narrowing.Step.{Step};
ghost use Rattle.pc_nested.specs.Narrowed.{IsSmallStep, price_at, at_least, at_most};
ghost use Rattle.pc_nested.specs.Priced.{ArePriced, AreUndone, HasPriceOf, IsRepriced};

use crate::narrowing::Step;
use crate::places::is_in;
use pc_list::Seq;
use pc_program_bound::Program;

/// The multipliers of all constraints, and the price of a row of each cell: the sum of its constraints' multipliers.
#[derive(Debug, PartialEq, Eq, Drop)]
pub(crate) struct Pricing {
    pub by: Seq<i128>,
    pub prices: Seq<i128>,
}

/// Gives the constraints of the steps their multipliers, the last step first.
pub(crate) fn undo_all(p: &Program, steps: &[Step], pricing: Pricing) -> Pricing
    requires program { IsProgram p.now }
    requires small { All (IsSmallStep p.now) steps.now }
    requires priced { ArePriced p.now pricing.by pricing.prices }
    ensures priced { ArePriced p.now result.by result.prices }
    ensures undone { (gains : List ℤ) (counts : List ℕ) (k : ℕ) (m : ℤ) → AreUndone (record p.now { gain = gains }) counts k m steps.now pricing.by pricing.prices → AreUndone (record p.now { gain = gains }) counts k m [] result.by result.prices }
{
    let mut pricing = pricing;
    for step in steps {
        pricing = undo(p, *step, pricing);
    }
    pricing
}

/// Gives the constraint of a step the multiplier that brings the price of its cells to what the step allows.
#[tactic(auto, using(crate::proofs::Prices::undoing))]
fn undo(p: &Program, step: Step, pricing: Pricing) -> Pricing
    requires program { IsProgram p.now }
    requires small { IsSmallStep p.now step }
    requires priced { ArePriced p.now pricing.by pricing.prices }
    ensures priced { ArePriced p.now result.by result.prices }
    ensures undone { (gains : List ℤ) (counts : List ℕ) (k : ℕ) (m : ℤ) (steps : List Step) → AreUndone (record p.now { gain = gains }) counts k m (step ∷ steps) pricing.by pricing.prices → AreUndone (record p.now { gain = gains }) counts k m steps result.by result.prices }
{
    let Pricing { by, prices } = pricing;
    let old = price_of(p, step.place, prices.as_slice());
    let new = price_at(step, old);
    let mut by = by.into_vec();
    by[step.place] = new - old;
    Pricing {
        by: Seq::from_vec(by),
        prices: with_price(p, step.place, prices, new),
    }
}

/// The price of a constraint's first cell, or 0 where it has none.
fn price_of(p: &Program, place: usize, prices: &[i128]) -> i128
    requires few { place < 32 }
    requires sized { length prices.now ≡ cells_of p.now }
    ensures { HasPriceOf p.now place prices.now result }
{
    for cell in 0..p.masks.len() {
        if is_in(p, cell, place) {
            return prices[cell];
        }
    }
    0
}

/// The price before a step, by the price after it.
fn price_at(step: Step, price: i128) -> i128
    ensures { result ≡ price_at step price }
{
    forced_price(step.raised, barred_price(step.lowered, price))
}

fn barred_price(bound: Option<i128>, price: i128) -> i128
    ensures { result ≡ at_least bound price }
{
    let Some(bound) = bound else {
        return price;
    };
    bound.max(price)
}

fn forced_price(bound: Option<i128>, price: i128) -> i128
    ensures { result ≡ at_most bound price }
{
    let Some(bound) = bound else {
        return price;
    };
    bound.min(price)
}

/// The prices with another one for a constraint's cells.
#[tactic(auto, using(crate::proofs::Building::repriced_steps))]
pub(crate) fn with_price(p: &Program, place: usize, prices: Seq<i128>, price: i128) -> Seq<i128>
    requires few { place < 32 }
    requires sized { length prices ≡ cells_of p.now }
    ensures { IsRepriced p.now place prices price (cells_of p.now) result }
{
    let mut prices = prices.into_vec();
    for cell in 0..p.masks.len() {
        prices[cell] = price_for(p, place, cell, prices[cell], price);
    }
    Seq::from_vec(prices)
}

fn price_for(p: &Program, place: usize, cell: usize, old: i128, new: i128) -> i128
    requires few { place < 32 }
    requires cell { cell < cells_of p.now }
    ensures { result ≡ cond (is_in p.now cell place) new old }
{
    if is_in(p, cell, place) {
        return new;
    }
    old
}
