ghost use Rattle.std.specs.Prelude.{◌≡◌, ◌↔◌, IsTrue, ℕ, ◌<◌, ◌≤◌, ◌≤ℤ◌, pos, cond, length};
ghost use Rattle.pc_model.specs.Places.{has_bit};
ghost use Rattle.pc_program_bound.specs.Sums.{nat_at};
ghost use Rattle.pc_program_bound.specs.Allocation.{cells_of, constraints_of, total, IsProgram, IsAllocation};

use crate::program::Program;
use pc_model::has_bit;

/// Whether the program allows the counts: each from the floor to the cap of its cell, and the total of each
/// constraint from its least to its most.
pub fn lawful(p: &Program, counts: &[u64]) -> bool
    requires program { IsProgram p.now }
    requires sized { length counts.now ≡ cells_of p.now }
    ensures { IsTrue result ↔ IsAllocation p.now p.now.floor p.now.cap counts.now }
{
    are_within(p, counts) && are_met(p, counts)
}

/// Whether each count is from the floor to the cap of its cell.
fn are_within(p: &Program, counts: &[u64]) -> bool
    requires program { IsProgram p.now }
    requires sized { length counts.now ≡ cells_of p.now }
    ensures { IsTrue result ↔ ((i : ℕ) → i < cells_of p.now → (nat_at p.now.floor i ≤ nat_at counts.now i) × (nat_at counts.now i ≤ nat_at p.now.cap i)) }
{
    let floors = p.floor.as_slice();
    let caps = p.cap.as_slice();
    for (cell, count) in counts.iter().enumerate() {
        if !is_between(floors[cell] as u128, *count as u128, caps[cell] as u128) {
            return false;
        }
    }
    true
}

/// Whether the total of each constraint is from its least to its most.
fn are_met(p: &Program, counts: &[u64]) -> bool
    requires program { IsProgram p.now }
    requires sized { length counts.now ≡ cells_of p.now }
    ensures { IsTrue result ↔ ((j : ℕ) → j < constraints_of p.now → (pos (nat_at p.now.least j) ≤ℤ total p.now counts.now j) × (total p.now counts.now j ≤ℤ pos (nat_at p.now.most j))) }
{
    let mosts = p.most.as_slice();
    for (constraint, least) in p.least.as_slice().iter().enumerate() {
        let total = total_of(p, counts, constraint);
        if !is_between(*least as u128, total, mosts[constraint] as u128) {
            return false;
        }
    }
    true
}

fn is_between(low: u128, number: u128, high: u128) -> bool
    ensures { IsTrue result ↔ ((low ≤ number) × (number ≤ high)) }
{
    low <= number && number <= high
}

/// The sum of the counts of a constraint's cells. It fits, as there are fewer than 2^64 counts, each less than 2^64.
#[tactic(auto, using(crate::proofs::Totals::total_steps))]
pub fn total_of(p: &Program, counts: &[u64], constraint: usize) -> u128
    requires few { constraint < 32 }
    requires sized { length counts.now ≡ cells_of p.now }
    ensures { pos result ≡ total p.now counts.now constraint }
{
    let masks = p.masks.as_slice();
    let mut total = 0;
    for (cell, count) in counts.iter().enumerate() {
        total += count_in(masks[cell], *count, constraint) as u128;
    }
    total
}

/// The count of a cell, if it is in the constraint, and else 0.
fn count_in(mask: u32, count: u64, constraint: usize) -> u64
    requires few { constraint < 32 }
    ensures { pos result ≡ cond (has_bit mask constraint) (pos count) (pos 0) }
{
    if has_bit(u128::from(mask), constraint) {
        return count;
    }
    0
}
