ghost use Rattle.std.specs.Prelude.{◌≡◌, ◌<◌, ◌≤◌, ◌&&◌, ◌||◌, IfOk, length};
ghost use Rattle.pc_model.specs.Accepted.{AreConstraints, constraint_limit};
ghost use Rattle.pc_model.specs.WellFormed.{IsWellFormed};
ghost use Rattle.pc_desk_try.specs.Beside.{AreBeside, crosses, crosses_some, has_both, has_class, has_second, is_alone, is_as_alone, opens_beside, truths_below};

use crate::opening::{Opening, openings};
use pc_list::Seq;
use pc_model::{Constraint, Schema, has_bit};
use pc_num::Memory;
use std::alloc::Global;

/// For each constraint whether it lets rows be lost that no other speaks of, beside constraints that it crosses.
pub fn opening_beside(
    alloc: Global,
    schema: &Schema,
    constraints: &[Constraint],
) -> Result<Seq<bool>, Memory>
    requires well_formed { IsWellFormed schema.now }
    requires accepted { AreConstraints schema.now constraints.now }
    ensures beside { IfOk result (AreBeside schema.now constraints.now) }
{
    let openings = openings(alloc, schema, constraints)?;
    truths_for(alloc, openings.as_slice(), constraints.len())
}

#[tactic(auto, using(crate::proofs::Crossing::truths_more))]
fn truths_for(alloc: Global, openings: &[Opening], count: usize) -> Result<Seq<bool>, Memory>
    requires few { count ≤ constraint_limit }
    ensures { IfOk result (λ truths. truths ≡ truths_below openings.now count count) }
{
    let mut truths = Vec::new(alloc);
    for place in 0..count {
        truths.push(opens_beside(openings, count, place))?;
    }
    Ok(Seq::from_vec(truths))
}

fn opens_beside(openings: &[Opening], count: usize, place: usize) -> bool
    requires few { count ≤ constraint_limit }
    requires inside { place < count }
    ensures { result ≡ opens_beside openings.now count place }
{
    has_alone(openings, count, place) && crosses_some(openings, place, count)
}

fn has_alone(openings: &[Opening], count: usize, place: usize) -> bool
    requires few { count ≤ constraint_limit }
    ensures { result ≡ has_class (is_alone count place) openings.now }
{
    openings
        .iter()
        .any(|opening| is_alone(count, place, opening.mask))
}

/// Whether of so many constraints just the one at a place speaks of the rows of a class.
#[tactic(auto, using(crate::proofs::Crossing::alone_more))]
fn is_alone(count: usize, place: usize, mask: u32) -> bool
    requires few { count ≤ constraint_limit }
    ensures { result ≡ is_alone count place mask }
{
    let mut alone = true;
    for k in 0..count {
        alone = both(alone, is_as_alone(place, mask, k));
    }
    alone
}

fn is_as_alone(place: usize, mask: u32, k: usize) -> bool
    requires { k < constraint_limit }
    ensures { result ≡ is_as_alone place mask k }
{
    if k == place {
        return has_bit(u128::from(mask), k);
    }
    !has_bit(u128::from(mask), k)
}

fn both(first: bool, second: bool) -> bool
    ensures { result ≡ (first && second) }
{
    first && second
}

fn either(first: bool, second: bool) -> bool
    ensures { result ≡ (first || second) }
{
    first || second
}

#[tactic(auto, using(crate::proofs::Crossing::crosses_more))]
fn crosses_some(openings: &[Opening], place: usize, count: usize) -> bool
    requires few { count ≤ constraint_limit }
    requires inside { place < count }
    ensures { result ≡ crosses_some openings.now place count }
{
    let mut crosses_one = false;
    for other in 0..count {
        crosses_one = either(crosses_one, crosses(openings, place, other));
    }
    crosses_one
}

fn crosses(openings: &[Opening], place: usize, other: usize) -> bool
    requires { (place < constraint_limit) × (other < constraint_limit) }
    ensures { result ≡ crosses openings.now place other }
{
    both(
        some_has_both(openings, place, other),
        some_has_second(openings, place, other),
    )
}

fn some_has_both(openings: &[Opening], place: usize, other: usize) -> bool
    requires { (place < constraint_limit) × (other < constraint_limit) }
    ensures { result ≡ has_class (has_both place other) openings.now }
{
    openings
        .iter()
        .any(|opening| has_both(place, other, opening.mask))
}

fn some_has_second(openings: &[Opening], place: usize, other: usize) -> bool
    requires { (place < constraint_limit) × (other < constraint_limit) }
    ensures { result ≡ has_class (has_second place other) openings.now }
{
    openings
        .iter()
        .any(|opening| has_second(place, other, opening.mask))
}

fn has_both(place: usize, other: usize, mask: u32) -> bool
    requires { (place < constraint_limit) × (other < constraint_limit) }
    ensures { result ≡ has_both place other mask }
{
    let mask = u128::from(mask);
    has_bit(mask, place) && has_bit(mask, other)
}

fn has_second(place: usize, other: usize, mask: u32) -> bool
    requires { (place < constraint_limit) × (other < constraint_limit) }
    ensures { result ≡ has_second place other mask }
{
    let mask = u128::from(mask);
    !has_bit(mask, place) && has_bit(mask, other)
}
