ghost use Rattle.std.specs.Prelude.{◌≡◌, ◌↔◌, IsTrue, ℕ, ◌<◌, ◌≤◌, ◌^◌, ⊤, nat_abs, length, MatchOption};
ghost use Rattle.pc_program_bound.specs.Sums.{nat_at, int_at};
ghost use Rattle.pc_program_bound.specs.Allocation.{cells_of, constraints_of, IsProgram};
ghost use Rattle.pc_model.specs.Places.{has_bit};
ghost use Rattle.pc_program.specs.Settled.{HasOneBits, IsFirstFrom, HasNoneFrom};
ghost use Rattle.pc_program.specs.Conditions.{IsFirstBit, HasNoBitFrom, HasOneBit, HasAtMostTwo};

use pc_model::has_bit;
use pc_program_bound::Program;

/// Whether there are at most 40 cells, each in one constraint, with a floor of 0 and a gain of fewer than 88 bits,
/// and at most two to a constraint.
pub fn has_one_bits(p: &Program) -> bool
    requires program { IsProgram p.now }
    ensures { IsTrue result ↔ HasOneBits p.now }
{
    if p.masks.len() > 40 {
        return false;
    }
    if !have_one_bit(p.masks.as_slice(), p.least.len()) {
        return false;
    }
    if !are_none(p.floor.as_slice()) {
        return false;
    }
    if !are_small(p.gain.as_slice()) {
        return false;
    }
    have_two_at_most(p)
}

/// Whether each mask has one bit, and it is that of one of the constraints.
fn have_one_bit(masks: &[u32], constraints: usize) -> bool
    ensures { IsTrue result ↔ ((i : ℕ) → i < length masks.now → HasOneBit (nat_at masks.now i) constraints) }
{
    for mask in masks {
        if !has_one_bit(*mask, constraints) {
            return false;
        }
    }
    true
}

fn has_one_bit(mask: u32, constraints: usize) -> bool
    ensures { IsTrue result ↔ HasOneBit mask constraints }
{
    let Some(first) = first_bit(mask, 0) else {
        return false;
    };
    if first >= constraints {
        return false;
    }
    first_bit(mask, first + 1).is_none()
}

/// The first bit of a mask from a place on.
#[tactic(auto, using(crate::proofs::OneBits::no_bit_above))]
fn first_bit(mask: u32, from: usize) -> Option<usize>
    requires { from ≤ 32 }
    ensures found { MatchOption result (HasNoBitFrom mask from) (IsFirstBit mask from) }
    ensures few { MatchOption result ⊤ (λ k. k < 32) }
{
    for place in from..32 {
        if has_bit(u128::from(mask), place) {
            return Some(place);
        }
    }
    None
}

fn are_none(floors: &[u64]) -> bool
    ensures { IsTrue result ↔ ((i : ℕ) → i < length floors.now → nat_at floors.now i ≡ 0) }
{
    for floor in floors {
        if *floor != 0 {
            return false;
        }
    }
    true
}

fn are_small(gains: &[i128]) -> bool
    ensures { IsTrue result ↔ ((i : ℕ) → i < length gains.now → nat_abs (int_at gains.now i) < 2 ^ 87) }
{
    for gain in gains {
        if !is_small(*gain) {
            return false;
        }
    }
    true
}

fn is_small(gain: i128) -> bool
    ensures { IsTrue result ↔ (nat_abs gain < 2 ^ 87) }
{
    gain.unsigned_abs() < 1 << 87
}

fn have_two_at_most(p: &Program) -> bool
    requires program { IsProgram p.now }
    requires short { cells_of p.now ≤ 40 }
    ensures { IsTrue result ↔ ((k : ℕ) → k < constraints_of p.now → HasAtMostTwo p.now k) }
{
    for constraint in 0..p.least.len() {
        if !has_two_at_most(p, constraint) {
            return false;
        }
    }
    true
}

/// Whether the constraint has at most two cells.
fn has_two_at_most(p: &Program, constraint: usize) -> bool
    requires few { constraint < 32 }
    requires short { cells_of p.now ≤ 40 }
    ensures { IsTrue result ↔ HasAtMostTwo p.now constraint }
{
    let Some(first) = first_from(p, constraint, 0) else {
        return true;
    };
    let Some(second) = first_from(p, constraint, first + 1) else {
        return true;
    };
    first_from(p, constraint, second + 1).is_none()
}

/// The first cell of a constraint from a place on.
fn first_from(p: &Program, constraint: usize, from: usize) -> Option<usize>
    requires few { constraint < 32 }
    requires start { from ≤ cells_of p.now }
    ensures { MatchOption result (HasNoneFrom p.now constraint from) (IsFirstFrom p.now constraint from) }
{
    let masks = p.masks.as_slice();
    for cell in from..masks.len() {
        if has_bit(u128::from(masks[cell]), constraint) {
            return Some(cell);
        }
    }
    None
}
