ghost use Rattle.std.specs.Prelude.{◌≡◌, ◌≤◌, ◌^◌, ◌+ℤ◌, length, nat_abs, IfOk};
ghost use Rattle.pc_program_bound.specs.Allocation.{IsProgram, cells_of, worth};
ghost use Rattle.pc_branch.specs.Ends.{HasSmallGains};
ghost use Rattle.pc_agg.specs.Answered.{CanEnd, IsEnd, AreAllowed};
ghost use Rattle.pc_agg_search.specs.Ends.{signed};
ghost use Rattle.pc_agg.specs.Marks.{IsMarked, IsEndOf, ShowsFirst};
ghost use Rattle.pc_agg.specs.Observed.{folded_value};

use crate::aim::Aim;
use pc_agg_search::{Extreme, Limit, find_worth};
use pc_list::Seq;
use pc_model::{Agg, Folded, Row};
use pc_num::{Frac, Memory};
use pc_proof::{End, Mark, Proof};
use pc_witness::rebuild;
use std::alloc::Global;

/// The end of an aim: what the observed rows come to with what the lost ones add, reached where some counts that were
/// found are worth the limit.
pub(crate) fn end_towards(
    alloc: Global,
    seen: &Folded,
    agg: Agg,
    extreme: Extreme,
    aim: Aim,
    found: &[Seq<u64>],
) -> Result<End, Memory>
    requires few_seen { seen.now.count ≤ 1_000_000 }
    requires small_seen { nat_abs seen.now.sum ≤ 2 ^ 83 }
    requires can { CanEnd found.now aim }
    ensures { IfOk result (IsEnd seen.now agg extreme found.now aim) }
{
    let Aim { limit, picks } = aim;
    let number = end_number(seen, agg, extreme, limit.most);
    end_of(alloc, number, limit, picks.as_slice(), found)
}

/// The end at a number, reached where some counts that were found are worth the limit.
fn end_of(
    alloc: Global,
    number: i128,
    limit: Limit,
    picks: &[Row],
    found: &[Seq<u64>],
) -> Result<End, Memory>
    requires program { IsProgram limit.program }
    requires small { HasSmallGains limit.program }
    requires allowed { AreAllowed limit.program found.now }
    requires picked { length picks.now ≡ cells_of limit.program }
    ensures { IfOk result (IsEndOf limit picks.now found.now number) }
{
    let mark = mark_of(alloc, &limit, picks, found)?;
    Ok(End {
        value: Frac {
            num: number,
            den: 1,
        },
        mark,
        proof: Proof::Tree(limit.tree),
    })
}

/// The runs of the first counts that are worth the limit.
fn mark_of(alloc: Global, limit: &Limit, picks: &[Row], found: &[Seq<u64>]) -> Result<Mark, Memory>
    requires program { IsProgram limit.now.program }
    requires small { HasSmallGains limit.now.program }
    requires allowed { AreAllowed limit.now.program found.now }
    requires picked { length picks.now ≡ cells_of limit.now.program }
    ensures marked { IfOk result (IsMarked limit.now.program limit.now.most picks.now found.now) }
    ensures first { IfOk result (ShowsFirst (λ counts. worth limit.now.program counts ≡ limit.now.most) picks.now found.now) }
{
    match find_worth(&limit.program, found, limit.most) {
        Some(place) => {
            let runs = rebuild(alloc, picks, found[place].as_slice())?;
            Ok(Mark::Exact(runs))
        }
        None => Ok(Mark::Outer),
    }
}

/// What the observed rows come to, with what the lost ones add at the end.
fn end_number(seen: &Folded, agg: Agg, extreme: Extreme, gained: i128) -> i128
    requires few_seen { seen.now.count ≤ 1_000_000 }
    requires small_seen { nat_abs seen.now.sum ≤ 2 ^ 83 }
    requires small { nat_abs gained ≤ 10 ^ 37 }
    ensures { result ≡ folded_value agg seen.now +ℤ signed extreme gained }
{
    let observed = folded_value(seen, agg);
    match extreme {
        Extreme::High => observed + gained,
        Extreme::Low => observed - gained,
    }
}

fn folded_value(seen: &Folded, agg: Agg) -> i128
    requires few_seen { seen.now.count ≤ 1_000_000 }
    requires small_seen { nat_abs seen.now.sum ≤ 2 ^ 83 }
    ensures value { result ≡ folded_value agg seen.now }
    ensures small { nat_abs result ≤ 2 ^ 83 }
{
    match agg {
        Agg::Count => seen.count as i128,
        Agg::Sum => seen.sum,
        _ => 0,
    }
}
