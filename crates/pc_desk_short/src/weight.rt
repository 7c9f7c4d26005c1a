ghost use Rattle.std.specs.Prelude.{◌≡◌, ◌<◌, ◌≤◌, cond, int_le, pos, length, true};
ghost use Rattle.std.specs.List.{list_all};
ghost use Rattle.pc_model.specs.Accepted.{constraint_limit};
ghost use Rattle.pc_model.specs.Places.{has_bit};
ghost use Rattle.pc_desk_short.specs.Shortage.{are_sized, class_weight, is_served, is_small};

use pc_desk_try::Opening;
use pc_model::{Constraint, has_bit};

const WEIGHT_LIMIT: u128 = 1 << 60;

/// Whether there are as many weights as constraints, and each is small.
pub(crate) fn are_sized(constraints: &[Constraint], weights: &[i128]) -> bool
    ensures { result ≡ are_sized constraints.now weights.now }
{
    if weights.len() != constraints.len() {
        return false;
    }
    are_small(weights)
}

fn are_small(weights: &[i128]) -> bool
    ensures { result ≡ list_all is_small weights.now }
{
    weights.iter().all(|weight| is_small(*weight))
}

fn is_small(weight: i128) -> bool
    ensures { result ≡ is_small weight }
{
    weight.unsigned_abs() <= WEIGHT_LIMIT
}

/// Whether each class takes as much room as it serves needs.
pub(crate) fn are_served(openings: &[Opening], weights: &[i128]) -> bool
    requires few { length weights.now ≤ constraint_limit }
    requires small { list_all is_small weights.now ≡ true }
    ensures { result ≡ list_all (is_served weights.now) openings.now }
{
    openings
        .iter()
        .all(|opening| is_served(weights, opening.mask))
}

fn is_served(weights: &[i128], mask: u32) -> bool
    requires few { length weights.now ≤ constraint_limit }
    requires small { list_all is_small weights.now ≡ true }
    ensures { result ≡ int_le (pos 0) (class_weight mask weights.now) }
{
    class_weight(mask, weights) >= 0
}

/// What the weights of a class's constraints come to.
pub(crate) fn class_weight(mask: u32, weights: &[i128]) -> i128
    requires few { length weights.now ≤ constraint_limit }
    requires small { list_all is_small weights.now ≡ true }
    ensures { result ≡ class_weight mask weights.now }
{
    let mut total = 0;
    for (place, weight) in weights.iter().enumerate() {
        total += taken(mask, place, *weight);
    }
    total
}

fn taken(mask: u32, place: usize, weight: i128) -> i128
    requires { place < 32 }
    ensures { result ≡ cond (has_bit mask place) weight (pos 0) }
{
    if has_bit(u128::from(mask), place) {
        weight
    } else {
        0
    }
}
