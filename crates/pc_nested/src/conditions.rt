ghost use Rattle.std.specs.Prelude.{◌≡◌, ◌↔◌, IsTrue, ℕ, ◌<◌, ◌^◌, true, nat_abs, length};
ghost use Rattle.pc_program_bound.specs.Sums.{int_at};
ghost use Rattle.pc_program_bound.specs.Allocation.{cells_of, constraints_of, IsProgram};
ghost use Rattle.pc_program.specs.Settled.{is_in, HasOneBits};
ghost use Rattle.pc_nested.specs.Nested.{AreApart, IsInside, AreNestedPair, AreNestedPairs, IsNested};

use crate::places::is_in;
use pc_program_bound::Program;

/// Whether any two constraints share no cell or one is inside the other, there are at most 40 cells, and each gain has
/// fewer than 88 bits.
#[tactic(auto, using(crate::proofs::Shared::conditions))]
pub fn is_nested(p: &Program) -> bool
    requires program { IsProgram p.now }
    ensures { IsTrue result ↔ IsNested p.now }
{
    if p.masks.len() > 40 {
        return false;
    }
    if !are_small(p.gain.as_slice()) {
        return false;
    }
    are_nested_pairs(p)
}

fn are_small(gains: &[i128]) -> bool
    ensures { IsTrue result ↔ ((i : ℕ) → i < length gains.now → nat_abs (int_at gains.now i) < 2 ^ 87) }
{
    for gain in gains {
        if !is_small(*gain) {
            return false;
        }
    }
    true
}

fn is_small(gain: i128) -> bool
    ensures { IsTrue result ↔ (nat_abs gain < 2 ^ 87) }
{
    gain.unsigned_abs() < 1 << 87
}

fn are_nested_pairs(p: &Program) -> bool
    requires program { IsProgram p.now }
    ensures { IsTrue result ↔ AreNestedPairs p.now }
{
    for constraint in 0..p.least.len() {
        if !is_nested_with_all(p, constraint) {
            return false;
        }
    }
    true
}

fn is_nested_with_all(p: &Program, constraint: usize) -> bool
    requires program { IsProgram p.now }
    requires there { constraint < constraints_of p.now }
    ensures { IsTrue result ↔ ((k : ℕ) → k < constraints_of p.now → AreNestedPair p.now constraint k) }
{
    for other in 0..p.least.len() {
        if !is_nested_pair(p, constraint, other) {
            return false;
        }
    }
    true
}

fn is_nested_pair(p: &Program, first: usize, second: usize) -> bool
    requires first { first < 32 }
    requires second { second < 32 }
    ensures { IsTrue result ↔ AreNestedPair p.now first second }
{
    if are_apart(p, first, second) {
        return true;
    }
    if is_inside(p, first, second) {
        return true;
    }
    is_inside(p, second, first)
}

fn are_apart(p: &Program, first: usize, second: usize) -> bool
    requires first { first < 32 }
    requires second { second < 32 }
    ensures { IsTrue result ↔ AreApart p.now first second }
{
    for cell in 0..p.masks.len() {
        if is_shared(p, cell, first, second) {
            return false;
        }
    }
    true
}

fn is_shared(p: &Program, cell: usize, first: usize, second: usize) -> bool
    requires there { cell < cells_of p.now }
    requires first { first < 32 }
    requires second { second < 32 }
    ensures { IsTrue result ↔ ((is_in p.now cell first ≡ true) × (is_in p.now cell second ≡ true)) }
{
    is_in(p, cell, first) && is_in(p, cell, second)
}

/// Whether each cell of the first constraint is in the second.
fn is_inside(p: &Program, first: usize, second: usize) -> bool
    requires first { first < 32 }
    requires second { second < 32 }
    ensures { IsTrue result ↔ IsInside p.now first second }
{
    for cell in 0..p.masks.len() {
        if !is_kept(p, cell, first, second) {
            return false;
        }
    }
    true
}

fn is_kept(p: &Program, cell: usize, first: usize, second: usize) -> bool
    requires there { cell < cells_of p.now }
    requires first { first < 32 }
    requires second { second < 32 }
    ensures { IsTrue result ↔ (is_in p.now cell first ≡ true → is_in p.now cell second ≡ true) }
{
    !is_in(p, cell, first) || is_in(p, cell, second)
}
