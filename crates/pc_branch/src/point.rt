ghost use Rattle.std.specs.Prelude.{◌≡◌, ◌≤ℤ◌, ◌<◌, ◌^◌, ℕ, pos, nat_abs, length, MatchOption, IfOk, IfSome};
ghost use Rattle.std.specs.Int.{int_div_euclid};
ghost use Rattle.pc_simplex.specs.Vertices.{count_at};
ghost use Rattle.pc_branch.specs.Licence.{IsWhole};
ghost use Rattle.pc_branch.specs.Ends.{whole_counts};
ghost use Rattle.pc_branch.specs.Visits.{AreWholeBelow, IsBroken};

use pc_list::Seq;
use pc_num::{Frac, Memory};
use std::alloc::Global;

/// The first cell whose count is not whole.
pub(crate) fn first_broken(point: &[Frac]) -> Option<usize>
    ensures broken { MatchOption result (IsWhole point.now) (IsBroken point.now) }
    ensures first { IfSome result (AreWholeBelow point.now) }
{
    for (cell, count) in point.iter().enumerate() {
        if count.den != 1 {
            return Some(cell);
        }
    }
    None
}

/// A count, rounded down.
pub(crate) fn rounded(count: &Frac) -> u64
    requires positive { pos 1 ≤ℤ count.now.den }
    requires low { pos 0 ≤ℤ int_div_euclid count.now.num count.now.den }
    requires high { int_div_euclid count.now.num count.now.den ≤ℤ pos 1_000_000_000 }
    ensures { pos result ≡ int_div_euclid count.now.num count.now.den }
{
    count.num.div_euclid(count.den) as u64
}

/// The counts of a whole point.
pub(crate) fn whole_counts(alloc: Global, point: &[Frac]) -> Result<Seq<u64>, Memory>
    requires { (i : ℕ) → i < length point.now → nat_abs (count_at point.now i).num < 2 ^ 64 }
    ensures { IfOk result (λ counts. counts ≡ whole_counts point.now) }
{
    let mut counts = Seq::new(alloc);
    for count in point {
        counts.push(whole(count))?;
    }
    Ok(counts)
}

fn whole(count: &Frac) -> u64
    requires { nat_abs count.now.num < 2 ^ 64 }
    ensures { result ≡ nat_abs count.now.num }
{
    count.num.unsigned_abs() as u64
}
