ghost use Rattle.std.specs.Prelude.{◌≡◌, ◌<◌, ◌≤◌, ◌*◌, nat_abs, pos, IfOk};
ghost use Rattle.pc_num.specs.Scaled.{greatest_size};
ghost use Rattle.pc_branch.specs.Outcome.{IsEasyProgram};
ghost use Rattle.pc_proof.specs.Setting.{on_chosen, program_for};
ghost use Rattle.pc_avg_ratio.specs.Fractional.{IsFractional};
ghost use Rattle.pc_agg_search.specs.Ends.{signed};
ghost use Rattle.pc_agg_search.specs.Keys.{key_of};
ghost use Rattle.pc_agg_search.specs.Problem.{IsEasyFor, IsPosed, setting_of};
ghost use Rattle.pc_agg_search.specs.Wants.{most_chosen};
ghost use Rattle.pc_agg_search.specs.Posed.{AreAtEnd, keys_of};

use pc_agg_search::{Extreme, Problem, chosen_program, gained_program};
use pc_avg_ratio::Fractional;
use pc_list::Seq;
use pc_model::{Folded, Row};
use pc_num::Memory;
use std::alloc::Global;

/// The sum of the numbers of the chosen rows to how many they are, over the observed rows.
pub(crate) fn fraction_of(
    alloc: Global,
    problem: &Problem<'_>,
    seen: &Folded,
    extreme: Extreme,
    keys: Seq<i128>,
    picks: &[Row],
) -> Result<Fractional, Memory>
    requires posed { IsPosed problem.now }
    requires few_seen { seen.now.count ≤ 1_000_000 }
    requires small_seen { nat_abs seen.now.sum ≤ 1_000_000 * greatest_size }
    requires keyed { keys ≡ keys_of problem.now extreme }
    requires picked { AreAtEnd problem.now extreme picks.now }
    ensures fractional { IfOk result IsFractional }
    ensures rows { IfOk result (λ f. f.rows ≡ most_chosen (setting_of problem.now)) }
    ensures sums { IfOk result (λ f. f.sums ≡ program_for (setting_of problem.now) (on_chosen (key_of (setting_of problem.now) extreme))) }
    ensures count { IfOk result (λ f. f.count ≡ seen.now.count) }
    ensures sum { IfOk result (λ f. 0 < seen.now.count → f.sum ≡ signed extreme seen.now.sum) }
    ensures nested { IsEasyFor problem.now → IfOk result (λ f. IsEasyProgram f.rows) }
{
    let rows = chosen_program(alloc, problem, 1)?;
    let sums = gained_program(alloc, problem, keys)?;
    Ok(Fractional {
        rows,
        sums,
        count: seen.count,
        sum: seen_sum(seen, extreme),
    })
}

/// The sum of the observed numbers, turned at a low end. It is 0 where no row was observed.
fn seen_sum(seen: &Folded, extreme: Extreme) -> i128
    requires small_seen { nat_abs seen.now.sum ≤ 1_000_000 * greatest_size }
    ensures some { 0 < seen.now.count → result ≡ signed extreme seen.now.sum }
    ensures none { seen.now.count ≡ 0 → result ≡ pos 0 }
    ensures small { nat_abs result ≤ 1_000_000 * greatest_size }
{
    if seen.count == 0 {
        return 0;
    }
    match extreme {
        Extreme::Low => -seen.sum,
        Extreme::High => seen.sum,
    }
}
