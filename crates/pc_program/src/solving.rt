ghost use Rattle.std.specs.Prelude.{◌≡◌, ◌*◌, ◌<◌, ◌≤◌, ◌^◌, length, IfOk, slice_set, replicate, pos, negsuc, ◌*ℤ◌, nat_abs};
ghost use Rattle.pc_program_bound.specs.Allocation.{cells_of, worth, IsProgram, IsAllocation};
ghost use Rattle.pc_program.specs.Settled.{HasOneBits};
ghost use Rattle.pc_program.specs.Solved.{IsSettling, IsSolved, IsSmall, AreFitMultipliers};

use crate::members::gather;
use crate::settling::settle;
use pc_list::Seq;
use pc_model::Mult;
use pc_num::Memory;
use pc_program_bound::Program;
use std::alloc::Global;

/// The allocation of greatest worth with multipliers that prove it, or multipliers that show that there is none.
#[derive(Debug, PartialEq, Eq, Drop)]
pub enum Solved {
    Best {
        counts: Seq<u64>,
        value: i128,
        mult: Mult,
    },
    Nothing {
        mult: Mult,
    },
}

/// The counts of all cells and the multipliers of all constraints, or the place of a constraint that is short.
#[derive(Debug, PartialEq, Eq, Drop)]
enum Settled {
    All {
        counts: Seq<u64>,
        multipliers: Seq<i128>,
    },
    Short {
        place: usize,
    },
}

/// The allocation of greatest worth of a program whose constraints share no cell, with multipliers that prove it, or
/// multipliers that show that there is none.
#[tactic(auto, using(crate::proofs::Optimal::solved))]
pub fn greedy(alloc: Global, p: &Program) -> Result<Solved, Memory>
    requires program { IsProgram p.now }
    requires one_bits { HasOneBits p.now }
    ensures solved { IfOk result (IsSolved p.now) }
    ensures small { IfOk result IsSmall }
    ensures fits { IfOk result AreFitMultipliers }
{
    match settle_all(alloc, p)? {
        Settled::All {
            counts,
            multipliers,
        } => {
            let value = worth_of(p, counts.as_slice());
            Ok(Solved::Best {
                counts,
                value,
                mult: Mult {
                    by: multipliers,
                    den: 1,
                },
            })
        }
        Settled::Short { place } => {
            let by = minus_one_at(alloc, place, p.least.len())?;
            Ok(Solved::Nothing {
                mult: Mult { by, den: 1 },
            })
        }
    }
}

/// Settles the constraints one after another, up to the first one that is short.
#[tactic(auto, using(crate::proofs::AllSettled::steps))]
fn settle_all(alloc: Global, p: &Program) -> Result<Settled, Memory>
    requires program { IsProgram p.now }
    requires one_bits { HasOneBits p.now }
    ensures { IfOk result (IsSettling p.now) }
{
    let members = gather(alloc, p)?;
    let mut counts = vec![in alloc; 0; p.masks.len()]?;
    let mut multipliers = Seq::new(alloc);
    for place in 0..p.least.len() {
        let Some(by) = settle(p, place, members[place], &mut counts) else {
            return Ok(Settled::Short { place });
        };
        multipliers.push(by)?;
    }
    Ok(Settled::All {
        counts: Seq::from_vec(counts),
        multipliers,
    })
}

/// The worth of an allocation. It fits, as there are at most 40 cells.
#[tactic(auto, using(crate::proofs::Widths::worth_steps))]
fn worth_of(p: &Program, counts: &[u64]) -> i128
    requires program { IsProgram p.now }
    requires one_bits { HasOneBits p.now }
    requires allowed { IsAllocation p.now p.now.floor p.now.cap counts.now }
    ensures value { result ≡ worth p.now counts.now }
    ensures small { nat_abs result ≤ 40 * 2 ^ 117 }
{
    let gains = p.gain.as_slice();
    let mut worth = 0;
    for (cell, count) in counts.iter().enumerate() {
        worth += product(gains[cell], *count);
    }
    worth
}

#[tactic(auto, using(crate::proofs::Widths::product_size))]
fn product(gain: i128, count: u64) -> i128
    requires small { (nat_abs gain < 2 ^ 87) × (count ≤ 1_000_000_000) }
    ensures value { result ≡ gain *ℤ pos count }
    ensures small { nat_abs result ≤ 2 ^ 117 }
{
    gain * count as i128
}

/// Multipliers that are 0 for all constraints but one, and -1 for this.
fn minus_one_at(alloc: Global, place: usize, count: usize) -> Result<Seq<i128>, Memory>
    requires there { place < count }
    ensures { IfOk result (λ by. by ≡ slice_set (replicate count (pos 0)) place (negsuc 0)) }
{
    let mut by = vec![in alloc; 0; count]?;
    by[place] = -1;
    Ok(Seq::from_vec(by))
}
