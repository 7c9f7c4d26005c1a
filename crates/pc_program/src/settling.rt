ghost use Rattle.std.specs.Prelude.{◌≡◌, ◌+◌, ℕ, ◌<◌, ◌≤◌, List, length, MatchOption};
ghost use Rattle.pc_program_bound.specs.Sums.{nat_at, int_at};
ghost use Rattle.pc_program_bound.specs.Allocation.{cells_of, constraints_of, IsProgram};
ghost use Rattle.pc_program.specs.Gathered.{AreFirstTwo};
ghost use Rattle.pc_program.specs.Sharing.{IsSharedOut};
ghost use Rattle.pc_program.specs.Settled.{HasOneBits, IsDone, IsShort, IsSettled, IsFirstFrom, HasNoneFrom};

use crate::members::Members;
use crate::sharing::{Shared, Supply, share_out};
use pc_program_bound::Program;

/// Gives a constraint's cells the counts that the greatest worth wants, and the multiplier that proves it; `None`
/// where even full they have too few.
pub(crate) fn settle(
    p: &Program,
    constraint: usize,
    members: Members,
    counts: &mut Vec<u64>,
) -> Option<i128>
    requires program { IsProgram p.now }
    requires one_bits { HasOneBits p.now }
    requires there { constraint < constraints_of p.now }
    requires members { AreFirstTwo p.now constraint (cells_of p.now) members }
    requires sized { length counts.old.items ≡ cells_of p.now }
    ensures { MatchOption result (IsShort p.now constraint) (λ by. IsSettled p.now counts.old.items counts.new.items by constraint) }
{
    let Some(first) = members.first else {
        return settle_none(p, constraint);
    };
    let Some(second) = members.second else {
        return settle_one(p, constraint, first, counts);
    };
    settle_two(p, constraint, first, second, counts)
}

/// A constraint with no cell.
#[tactic(auto, using(crate::proofs::FewCells::none))]
fn settle_none(p: &Program, constraint: usize) -> Option<i128>
    requires program { IsProgram p.now }
    requires there { constraint < constraints_of p.now }
    requires none { HasNoneFrom p.now constraint 0 }
    ensures { MatchOption result (IsShort p.now constraint) (λ by. (counts : List ℕ) → IsSettled p.now counts counts by constraint) }
{
    if p.least.as_slice()[constraint] > 0 {
        return None;
    }
    Some(0)
}

/// A constraint with one cell. It is shared out with a second cell that has no room.
fn settle_one(p: &Program, constraint: usize, first: usize, counts: &mut Vec<u64>) -> Option<i128>
    requires program { IsProgram p.now }
    requires one_bits { HasOneBits p.now }
    requires there { constraint < constraints_of p.now }
    requires sized { length counts.old.items ≡ cells_of p.now }
    requires first { IsFirstFrom p.now constraint 0 first }
    requires only { HasNoneFrom p.now constraint (first + 1) }
    ensures { MatchOption result (IsShort p.now constraint) (λ by. IsSettled p.now counts.old.items counts.new.items by constraint) }
{
    let supply = supply_of(p, first);
    let nothing = Supply {
        cap: 0,
        gain: supply.gain,
    };
    let Some(shared) = share(p, constraint, supply, nothing) else {
        return None;
    };
    let count = shared.first;
    counts[first] = count;
    Some(shared.by)
}

/// A constraint with two cells.
fn settle_two(
    p: &Program,
    constraint: usize,
    first: usize,
    second: usize,
    counts: &mut Vec<u64>,
) -> Option<i128>
    requires program { IsProgram p.now }
    requires one_bits { HasOneBits p.now }
    requires there { constraint < constraints_of p.now }
    requires sized { length counts.old.items ≡ cells_of p.now }
    requires first { IsFirstFrom p.now constraint 0 first }
    requires second { IsFirstFrom p.now constraint (first + 1) second }
    ensures { MatchOption result (IsShort p.now constraint) (λ by. IsSettled p.now counts.old.items counts.new.items by constraint) }
{
    let Some(shared) = share(p, constraint, supply_of(p, first), supply_of(p, second)) else {
        return None;
    };
    counts[first] = shared.first;
    counts[second] = shared.second;
    Some(shared.by)
}

/// How a constraint's rows are shared out, or `None` where even full its cells have too few.
fn share(p: &Program, constraint: usize, a: Supply, b: Supply) -> Option<Shared>
    requires program { IsProgram p.now }
    requires there { constraint < constraints_of p.now }
    requires small { (a.cap ≤ 1_000_000_000) × (b.cap ≤ 1_000_000_000) }
    ensures { MatchOption result (a.cap + b.cap < nat_at p.now.least constraint) (IsSharedOut (nat_at p.now.least constraint) (nat_at p.now.most constraint) a b) }
{
    let least = p.least.as_slice()[constraint];
    if a.cap + b.cap < least {
        return None;
    }
    Some(share_out(least, p.most.as_slice()[constraint], a, b))
}

/// What a cell can give.
fn supply_of(p: &Program, cell: usize) -> Supply
    requires program { IsProgram p.now }
    requires there { cell < cells_of p.now }
    ensures cap { result.cap ≡ nat_at p.now.cap cell }
    ensures gain { result.gain ≡ int_at p.now.gain cell }
    ensures small { result.cap ≤ 1_000_000_000 }
{
    Supply {
        cap: p.cap.as_slice()[cell],
        gain: p.gain.as_slice()[cell],
    }
}
