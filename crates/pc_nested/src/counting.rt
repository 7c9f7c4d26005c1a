ghost use Rattle.std.specs.Prelude.{◌≡◌, ◌*◌, ◌<◌, ◌≤◌, ◌^◌, ◌*ℤ◌, ℕ, pos, cond, int_lt, nat_abs, length, IfOk};
ghost use Rattle.pc_program_bound.specs.Sums.{nat_at, int_at};
ghost use Rattle.pc_program_bound.specs.Allocation.{cells_of, worth, IsProgram};
ghost use Rattle.pc_nested.specs.Filled.{AreSmall, AreBelow, IsChosen};
ghost use Rattle.pc_nested.specs.Narrowed.{AreChosen};

use crate::places::gain_of;
use pc_list::Seq;
use pc_num::Memory;
use pc_program_bound::Program;
use std::alloc::Global;

/// The high end of each cell whose rows are worth something, and the low end of each other.
#[tactic(auto, using(crate::proofs::Building::chosen_steps))]
pub(crate) fn chosen(
    alloc: Global,
    p: &Program,
    lows: &[u64],
    highs: &[u64],
) -> Result<Seq<u64>, Memory>
    requires program { IsProgram p.now }
    requires sized { length lows.now ≡ cells_of p.now }
    requires sized_highs { length highs.now ≡ cells_of p.now }
    requires ordered { AreBelow p.now lows.now highs.now }
    ensures { IfOk result (AreChosen p.now lows.now highs.now (λ i. pos 0)) }
{
    let mut counts = Seq::new(alloc);
    for cell in 0..p.masks.len() {
        counts.push(chosen_end(p, lows, highs, cell))?;
    }
    Ok(counts)
}

#[tactic(auto, using(crate::proofs::Building::chosen_ends))]
fn chosen_end(p: &Program, lows: &[u64], highs: &[u64], cell: usize) -> u64
    requires program { IsProgram p.now }
    requires sized { length lows.now ≡ cells_of p.now }
    requires sized_highs { length highs.now ≡ cells_of p.now }
    requires ordered { AreBelow p.now lows.now highs.now }
    requires cell { cell < cells_of p.now }
    ensures chosen { IsChosen (int_at p.now.gain cell) (nat_at lows.now cell) (nat_at highs.now cell) (pos 0) result }
    ensures end { result ≡ cond (int_lt (pos 0) (int_at p.now.gain cell)) (nat_at highs.now cell) (nat_at lows.now cell) }
{
    if gain_of(p, cell) > 0 {
        return highs[cell];
    }
    lows[cell]
}

/// The worth of an allocation. It fits, as there are at most 40 cells.
#[tactic(auto, using(pc_program::proofs::Widths::worth_steps))]
pub(crate) fn worth_of(p: &Program, counts: &[u64]) -> i128
    requires program { IsProgram p.now }
    requires gains { AreSmall p.now }
    requires few { cells_of p.now ≤ 40 }
    requires sized { length counts.now ≡ cells_of p.now }
    requires small { (i : ℕ) → i < cells_of p.now → nat_at counts.now i ≤ 1_000_000_000 }
    ensures value { result ≡ worth p.now counts.now }
    ensures small { nat_abs result ≤ 40 * 2 ^ 117 }
{
    let gains = p.gain.as_slice();
    let mut worth = 0;
    for (cell, count) in counts.iter().enumerate() {
        worth += product(gains[cell], *count);
    }
    worth
}

#[tactic(auto, using(pc_program::proofs::Widths::product_size))]
fn product(gain: i128, count: u64) -> i128
    requires small { (nat_abs gain < 2 ^ 87) × (count ≤ 1_000_000_000) }
    ensures value { result ≡ gain *ℤ pos count }
    ensures small { nat_abs result ≤ 2 ^ 117 }
{
    gain * count as i128
}
