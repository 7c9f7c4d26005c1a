ghost use Rattle.std.specs.Prelude.{◌≡◌, ◌≤◌, ◌*◌, ◌^◌, ◌↔◌, ◌+ℤ◌, ◌-ℤ◌, ◌≤ℤ◌, nat_abs, pos, IfSome, IsTrue};
ghost use Rattle.pc_model.specs.Aggregate.{whole, IsAtMost};
ghost use Rattle.pc_proof.specs.Table.{ratio_of};
ghost use Rattle.pc_check_rules.specs.Fractions.{IsMeasured};
ghost use Rattle.pc_check_rules.specs.Shown.{IsSmall, counted, rest_over};

use crate::fractions::{is_at_least, is_at_most};
use pc_num::Frac;

// No bound of a tree may be above this, and one below the negative of it counts as that.
const LIMIT: i128 = 10_000_000_000_000_000_000_000_000_000_000_000_000;

/// Whether a bound is no number above the limit.
pub(crate) fn is_small(most: Option<i128>) -> bool
    ensures { IsTrue result ↔ IsSmall most }
{
    match most {
        Some(bound) => bound <= LIMIT,
        None => true,
    }
}

/// What a bound counts as: the negative of the limit in place of a number below it.
pub(crate) fn counted(most: Option<i128>) -> Option<i128>
    requires { IsSmall most }
    ensures bound { result ≡ counted most }
    ensures small { IfSome result (λ k. nat_abs k ≤ 10 ^ 37) }
{
    match most {
        Some(bound) => Some(bound.max(-LIMIT)),
        None => None,
    }
}

/// Whether what was observed and a bound are together at most a value.
pub(crate) fn is_total_within(before: i128, bound: Option<i128>, value: &Frac) -> bool
    requires before { nat_abs before ≤ 10 ^ 38 }
    requires small { IfSome bound (λ k. nat_abs k ≤ 10 ^ 37) }
    requires measured { IsMeasured value.now }
    ensures { IsTrue result ↔ IfSome bound (λ k. IsAtMost (whole (before +ℤ k)) (ratio_of value.now)) }
{
    match bound {
        Some(number) => is_at_most(before + number, 1, value),
        None => true,
    }
}

/// Whether what was observed is at least a value, also less a bound.
pub(crate) fn is_total_from(before: i128, bound: Option<i128>, value: &Frac) -> bool
    requires before { nat_abs before ≤ 10 ^ 38 }
    requires small { IfSome bound (λ k. nat_abs k ≤ 10 ^ 37) }
    requires measured { IsMeasured value.now }
    ensures { IsTrue result ↔ IfSome bound (λ k. IsAtMost (ratio_of value.now) (whole (before -ℤ k))) }
{
    match bound {
        Some(number) => is_at_least(before - number, 1, value),
        None => true,
    }
}

/// Whether a bound is at most a number.
pub(crate) fn is_under(number: i128, bound: Option<i128>) -> bool
    ensures { IsTrue result ↔ IfSome bound (λ k. k ≤ℤ number) }
{
    match bound {
        Some(most) => most <= number,
        None => true,
    }
}

/// Whether what was observed and a bound are together at most 0.
pub(crate) fn is_none_over(before: i128, bound: Option<i128>) -> bool
    requires before { nat_abs before ≤ 10 ^ 38 }
    requires small { IfSome bound (λ k. nat_abs k ≤ 10 ^ 37) }
    ensures { IsTrue result ↔ IfSome bound (λ k. (before +ℤ k) ≤ℤ pos 0) }
{
    match bound {
        Some(number) => before + number <= 0,
        None => true,
    }
}

/// Whether a bound is at most what was observed.
pub(crate) fn is_none_left(before: i128, bound: Option<i128>) -> bool
    requires before { nat_abs before ≤ 10 ^ 38 }
    requires small { IfSome bound (λ k. nat_abs k ≤ 10 ^ 37) }
    ensures { IsTrue result ↔ IfSome bound (λ k. (k -ℤ before) ≤ℤ pos 0) }
{
    match bound {
        Some(number) => number - before <= 0,
        None => true,
    }
}

/// Whether no row was observed and a bound allows none.
pub(crate) fn is_forced(count: u64, bound: Option<i128>) -> bool
    ensures { IsTrue result ↔ IfSome bound (λ k. (pos count ≡ pos 0) × (k ≤ℤ pos 0)) }
{
    match bound {
        Some(most) => count == 0 && most <= 0,
        None => true,
    }
}

/// What is left over of what was observed and a bound, and nothing where no list is possible.
pub(crate) fn rest_over(before: i128, bound: Option<i128>) -> i128
    requires before { nat_abs before ≤ 10 ^ 38 }
    requires small { IfSome bound (λ k. nat_abs k ≤ 10 ^ 37) }
    ensures rest { result ≡ rest_over before bound }
    ensures some { pos 0 ≤ℤ result }
    ensures small { result ≤ℤ pos (110 * 10 ^ 36) }
{
    match bound {
        Some(number) => (before + number).max(0),
        None => 0,
    }
}
