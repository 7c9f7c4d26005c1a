ghost use Rattle.std.specs.Prelude.{◌≡◌, ◌≤◌, pos, ◌+ℤ◌, ◌*ℤ◌, int_lt, cond, SomeIff, IfSome};
ghost use Rattle.std.specs.Int.{int_max};
ghost use Rattle.pc_program_bound.specs.Bound.{IsFit};
ghost use Rattle.pc_program_bound.specs.Parts.{IsAround, size_of};

use crate::width::{fit_size, times};
use pc_num::fit_add;

/// A sum of shares, and the sum of the sizes that they stay within.
#[derive(Clone, Copy)]
pub struct Running {
    pub share: i128,
    pub size: i128,
}

/// A constraint's share more: as many rows as its multiplier makes the most of.
pub fn with_constraint(running: Running, number: i128, least: u64, most: u64) -> Option<Running>
    requires around { IsAround running.share running.size }
    requires fits { IsFit number }
    requires ordered { least ≤ most }
    ensures value { SomeIff result (IsFit (size_of number most) × IsFit (running.size +ℤ size_of number most)) (record { share = running.share +ℤ (number *ℤ pos (cond (int_lt (pos 0) number) most least)); size = running.size +ℤ size_of number most }) }
    ensures around { IfSome result (λ r. IsAround r.share r.size) }
{
    let size = fit_size(number, most)?;
    let share = times(number, if number > 0 { most } else { least }, most);
    plus(running, share, size)
}

/// A cell's share more: as many rows of the ends as its rest makes the most of.
pub fn with_cell(running: Running, rest: i128, ends: (u64, u64), most: u64) -> Option<Running>
    requires around { IsAround running.share running.size }
    requires fits { IsFit rest }
    requires ordered { ends.0 ≤ ends.1 }
    requires within { ends.1 ≤ most }
    ensures value { SomeIff result (IsFit (size_of rest most) × IsFit (running.size +ℤ size_of rest most)) (record { share = running.share +ℤ int_max (rest *ℤ pos ends.0) (rest *ℤ pos ends.1); size = running.size +ℤ size_of rest most }) }
    ensures around { IfSome result (λ r. IsAround r.share r.size) }
{
    let size = fit_size(rest, most)?;
    let share = greatest(rest, ends, most);
    plus(running, share, size)
}

/// The greater of the rest's products with the ends.
#[tactic(auto, using(crate::proofs::Around::greatest))]
fn greatest(rest: i128, ends: (u64, u64), most: u64) -> i128
    requires first { ends.0 ≤ most }
    requires second { ends.1 ≤ most }
    requires fits { IsFit (size_of rest most) }
    ensures value { result ≡ int_max (rest *ℤ pos ends.0) (rest *ℤ pos ends.1) }
    ensures around { IsAround result (size_of rest most) }
{
    let at_floor = times(rest, ends.0, most);
    let at_cap = times(rest, ends.1, most);
    at_floor.max(at_cap)
}

/// A share more, which stays within its size.
#[tactic(auto, using(crate::proofs::Around::sums))]
fn plus(running: Running, share: i128, size: i128) -> Option<Running>
    requires around { IsAround running.share running.size }
    requires within { IsAround share size }
    ensures value { SomeIff result (IsFit (running.size +ℤ size)) (record { share = running.share +ℤ share; size = running.size +ℤ size }) }
    ensures around { IfSome result (λ r. IsAround r.share r.size) }
{
    let total = fit_add(running.size, size)?;
    Some(Running {
        share: running.share + share,
        size: total,
    })
}
