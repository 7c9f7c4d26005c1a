ghost use Rattle.std.specs.Prelude.{◌≡◌, ◌*ℤ◌, IfSome};
ghost use Rattle.std.specs.Ordering.{int_cmp};
ghost use Rattle.pc_program_bound.specs.Bound.{IsFit};
ghost use Rattle.pc_simplex_tableau.specs.Tableau.{is_after, lesser};
ghost use Rattle.pc_simplex_tableau.specs.Limits.{IsSoundFraction};

use crate::word::{product, word};
use pc_simplex_tableau::{Limit, lesser};
use std::cmp::Ordering;

/// The lesser of two limits; of equal ones that of the lesser column. Most fractions are made of numbers of 64 bits, whose
/// products always fit.
pub(crate) fn lesser_limit(a: Limit, b: Limit) -> Limit
    requires a { IsSoundFraction a }
    requires b { IsSoundFraction b }
    ensures value { result ≡ lesser a b }
    ensures sound { IsSoundFraction result }
{
    match is_after(&a, &b) {
        Some(true) => b,
        Some(false) => a,
        None => lesser(a, b),
    }
}

/// Whether the first limit is the greater one, or equal and of the greater column; none where a number is wide.
fn is_after(a: &Limit, b: &Limit) -> Option<bool>
    ensures { IfSome result (λ after. after ≡ is_after a.now b.now) }
{
    match compare(a.over, a.under, b.over, b.under)? {
        Ordering::Greater => Some(true),
        Ordering::Equal => Some(b.column < a.column),
        Ordering::Less => Some(false),
    }
}

fn compare(a: i128, b: i128, c: i128, d: i128) -> Option<Ordering>
    ensures { IfSome result (λ order. order ≡ int_cmp (a *ℤ d) (c *ℤ b)) }
{
    let one = short_product(a, d)?;
    let other = short_product(c, b)?;
    Some(one.cmp(&other))
}

/// The product of two numbers of 64 bits; none where one of them is wider.
fn short_product(a: i128, b: i128) -> Option<i128>
    ensures value { IfSome result (λ product. product ≡ a *ℤ b) }
    ensures fits { IfSome result IsFit }
{
    Some(product(word(a)?, word(b)?))
}
