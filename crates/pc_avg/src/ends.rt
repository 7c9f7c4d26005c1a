ghost use Rattle.std.specs.Prelude.{◌≡◌, ◌<◌, ◌≤◌, ◌*◌, ◌^◌, nat_abs, [], length, All, IfOk, slice_index_or};
ghost use Rattle.pc_num.specs.Scaled.{greatest_size};
ghost use Rattle.pc_num.specs.Signs.{Fits};
ghost use Rattle.pc_model.specs.declared.query.Folded.{Folded};
ghost use Rattle.pc_branch.specs.Outcome.{IsEasyProgram};
ghost use Rattle.pc_proof.specs.Setting.{Setting};
ghost use Rattle.pc_branch_licences.specs.Pools.{AreLawful};
ghost use Rattle.pc_agg_search.specs.Problem.{IsEasyFor, IsPosed, setting_of};
ghost use Rattle.pc_avg.specs.Ends.{end_by_values, end_of, turned, CanTurn, IsEndIfAny, IsEndSurely};
ghost use Rattle.pc_avg.specs.Sides.{IsSide};
ghost use Rattle.pc_agg_search.specs.Posed.{AsksNumbers};

use crate::sides::{Side, side_of};
use pc_agg_search::{Extreme, Problem};
use pc_avg_ratio::{Highest, greatest_ratio, highest_of};
use pc_list::Seq;
use pc_model::{Folded, Row};
use pc_num::{Frac, Memory};
use pc_proof::{End, Mark, Proof};
use pc_witness::rebuild;
use std::alloc::Global;

/// An end of an average, from the greatest ratio of the counts that were found on; none where no row can have a number.
pub(crate) fn search_end(
    alloc: Global,
    problem: &Problem<'_>,
    seen: &Folded,
    extreme: Extreme,
    found: &[Seq<u64>],
) -> Result<Option<End>, Memory>
    requires posed { IsPosed problem.now }
    requires numbers { AsksNumbers problem.now }
    requires few_seen { seen.now.count ≤ 1_000_000 }
    requires small_seen { nat_abs seen.now.sum ≤ 1_000_000 * greatest_size }
    requires lawful { All (AreLawful (setting_of problem.now)) found.now }
    ensures end { IfOk result (IsEndIfAny (setting_of problem.now) seen.now problem.now.nodes extreme found.now) }
    ensures nested { IsEasyFor problem.now → IfOk result (IsEndSurely (setting_of problem.now) seen.now extreme found.now) }
{
    let side = side_of(alloc, problem, seen, extreme)?;
    end_on(alloc, extreme, &side, found, problem.nodes)
}

/// The end of a side; none where no row can have a number.
fn end_on(
    alloc: Global,
    extreme: Extreme,
    side: &Side,
    found: &[Seq<u64>],
    nodes: u32,
) -> Result<Option<End>, Memory>
    requires side { (u : Setting) × (seen : Folded) × IsSide u seen extreme side.now × All (AreLawful u) found.now }
    requires nodes { (1 ≤ nodes) × (nodes ≤ 100_000) }
    ensures end { (u : Setting) (seen : Folded) → IsSide u seen extreme side.now → IfOk result (IsEndIfAny u seen nodes extreme found.now) }
    ensures nested { (u : Setting) (seen : Folded) → IsSide u seen extreme side.now → IsEasyProgram side.now.fraction.rows → IfOk result (IsEndSurely u seen extreme found.now) }
{
    let Some(outermost) = side.outermost else {
        return Ok(None);
    };
    let Some(place) = highest_of(&side.fraction, found) else {
        return Ok(Some(end_by_values(extreme, outermost)));
    };
    let start = counts_at(found, place)?;
    let highest = greatest_ratio(alloc, &side.fraction, outermost, start, nodes)?;
    let end = end_of(alloc, extreme, side.picks.as_slice(), highest)?;
    Ok(Some(end))
}

fn counts_at(found: &[Seq<u64>], place: usize) -> Result<Seq<u64>, Memory>
    requires inside { place < length found.now }
    ensures { IfOk result (λ counts. counts ≡ slice_index_or found.now place []) }
{
    let counts = found[place].clone()?;
    Ok(counts)
}

/// The end that the steps end in.
fn end_of(alloc: Global, extreme: Extreme, picks: &[Row], highest: Highest) -> Result<End, Memory>
    requires { CanTurn (length picks.now) highest }
    ensures { IfOk result (λ end. end ≡ end_of extreme picks.now highest) }
{
    match highest {
        Highest::Reached {
            ratio,
            counts,
            tree,
        } => Ok(End {
            value: turned(extreme, ratio),
            mark: Mark::Exact(rebuild(alloc, picks, counts.as_slice())?),
            proof: Proof::Tree(tree),
        }),
        Highest::Above {
            ratio,
            counts: _,
            tree,
            value,
        } => Ok(End {
            value: turned(extreme, value),
            mark: Mark::Outer,
            proof: Proof::At(turned(extreme, ratio), tree),
        }),
    }
}

/// The end by the numbers that rows can have.
fn end_by_values(extreme: Extreme, outermost: i128) -> End
    requires { nat_abs outermost ≤ 2 ^ 63 }
    ensures { result ≡ end_by_values extreme outermost }
{
    let value = Frac {
        num: outermost,
        den: 1,
    };
    End {
        value: turned(extreme, value),
        mark: Mark::Outer,
        proof: Proof::Values,
    }
}

/// A fraction, with its sign turned back at a low end.
fn turned(extreme: Extreme, value: Frac) -> Frac
    requires { Fits value.num }
    ensures { result ≡ turned extreme value }
{
    match extreme {
        Extreme::Low => Frac {
            num: -value.num,
            den: value.den,
        },
        Extreme::High => value,
    }
}
