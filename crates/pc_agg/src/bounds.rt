ghost use Rattle.std.specs.Prelude.{◌≡◌, ◌≤◌, ◌^◌, ◌++◌, nat_abs, true, IfOk};
ghost use Rattle.pc_model.specs.declared.query.Agg.TheVariants as aggs;
ghost use Rattle.pc_model.specs.Right.{always_has_value};
ghost use Rattle.pc_proof.specs.Unbroken.{IsDecided};
ghost use Rattle.pc_agg_search.specs.declared.extreme.Extreme.TheVariants.{Low, High};
ghost use Rattle.pc_agg.specs.Answered.{answer_between, answer_over, bounded_by, impossible_by, is_open, CanEnd, IsAnswer, IsEnd};
ghost use Rattle.pc_agg.specs.Marks.{IsAmong};
ghost use Rattle.pc_agg.specs.Settling.{IsListedByLow, IsSettled};
ghost use Rattle.pc_agg_search.specs.Limits.{found_of};
ghost use Rattle.pc_agg_search.specs.Asked.{AreAsked};
ghost use Rattle.pc_agg_search.specs.Problem.{IsEasyFor, IsPosed, setting_of};
ghost use Rattle.pc_agg_search.specs.Posing.{IsAsked};
ghost use Rattle.pc_agg.specs.Calls.{OwesCall, OwesProblem, ShowsRows};
ghost use Rattle.pc_agg.specs.ShownRows.{HasShownRows};
ghost use Rattle.pc_agg.specs.Posed.{AreAimsOf, AreAimsReachedOf};

use crate::aim::{Aims, BothAimed, aim_at_both};
use crate::ends::end_towards;
use crate::settling::{Settled, listed, settle_open};
use pc_agg_search::{Extreme, FoundCounts, Limit, Problem};
use pc_cells::Cells;
use pc_list::Seq;
use pc_model::{Agg, Constraint, Folded, Query, Schema};
use pc_num::Memory;
use pc_proof::{Answer, Bounded, End, Lack, Relation, Why};
use std::alloc::Global;

/// The range of the number of rows that the query chooses, where those observed come to `seen`, by searches of at most
/// so many nodes each.
pub fn bound_count(
    alloc: Global,
    schema: &Schema,
    seen: &Folded,
    constraints: &[Constraint],
    cells: &Cells,
    query: &Query,
    nodes: u32,
) -> Result<Answer, Memory>
    requires asked { AreAsked schema.now seen.now constraints.now cells.now query.now nodes }
    requires counts { query.now.agg ≡ aggs.Count }
    ensures owes { OwesCall schema.now seen.now constraints.now cells.now query.now nodes result }
    ensures rows { IfOk result (ShowsRows schema.now constraints.now cells.now query.now) }
{
    let problem = Problem {
        schema,
        constraints,
        query,
        cells,
        nodes,
    };
    bound(alloc, &problem, seen)
}

/// The range of the sum of a column over the rows that the query chooses, where those observed come to `seen`, by searches
/// of at most so many nodes each.
pub fn bound_sum(
    alloc: Global,
    schema: &Schema,
    seen: &Folded,
    constraints: &[Constraint],
    cells: &Cells,
    query: &Query,
    nodes: u32,
) -> Result<Answer, Memory>
    requires asked { AreAsked schema.now seen.now constraints.now cells.now query.now nodes }
    requires sums { query.now.agg ≡ aggs.Sum }
    ensures owes { OwesCall schema.now seen.now constraints.now cells.now query.now nodes result }
    ensures rows { IfOk result (ShowsRows schema.now constraints.now cells.now query.now) }
{
    let problem = Problem {
        schema,
        constraints,
        query,
        cells,
        nodes,
    };
    bound(alloc, &problem, seen)
}

fn bound(alloc: Global, problem: &Problem<'_>, seen: &Folded) -> Result<Answer, Memory>
    requires asked { IsAsked problem.now seen.now }
    requires has_value { always_has_value problem.now.query.now.agg ≡ true }
    ensures owes { IfOk result (OwesProblem problem.now seen.now) }
    ensures rows { IfOk result (HasShownRows (setting_of problem.now)) }
{
    match aim_at_both(alloc, problem)? {
        BothAimed::At(aims) => {
            let settled = settle_over(alloc, problem, &aims)?;
            between(alloc, seen, problem.query.agg, settled, aims)
        }
        BothAimed::Nothing(tree) => Ok(impossible_by(Why::Void(tree))),
    }
}

/// A list of the first counts that were found, or the relation by the totals where nothing was.
fn settle_over(alloc: Global, problem: &Problem<'_>, aims: &Aims) -> Result<Settled, Memory>
    requires posed { IsPosed problem.now }
    requires aims { AreAimsOf problem.now aims.now }
    requires reached { IsEasyFor problem.now → AreAimsReachedOf problem.now aims.now }
    ensures settled { IfOk result (IsSettled (setting_of problem.now) problem.now.nodes) }
    ensures low { IfOk result (λ settled. IsAmong settled.found aims.now.low.limit) }
    ensures high { IfOk result (λ settled. IsAmong settled.found aims.now.high.limit) }
    ensures nested { IsEasyFor problem.now → IfOk result (λ settled. IsDecided settled.relation) }
    ensures listed { IfOk result (IsListedByLow aims.now) }
{
    let found = found_by(alloc, &aims.low.limit, &aims.high.limit)?;
    if !found.is_empty() {
        return listed(alloc, aims.low.picks.as_slice(), found);
    }
    settle_open(alloc, problem, &aims.low.limit, &aims.high.limit)
}

/// What the searches of both ends found.
fn found_by(alloc: Global, low: &Limit, high: &Limit) -> Result<FoundCounts, Memory>
    ensures { IfOk result (λ found. found ≡ found_of low.now.found ++ found_of high.now.found) }
{
    let found = with_found(Seq::new(alloc), &low.found)?;
    with_found(found, &high.found)
}

fn with_found(found: FoundCounts, more: &Option<Seq<u64>>) -> Result<FoundCounts, Memory>
    ensures { IfOk result (λ all. all ≡ found ++ found_of more.now) }
{
    let Some(counts) = more else {
        return Ok(found);
    };
    let mut all = found;
    all.push(counts.clone()?)?;
    Ok(all)
}

/// The answer over what was settled. Where that is impossible nothing was found, so that the ends cost no memory.
fn between(
    alloc: Global,
    seen: &Folded,
    agg: Agg,
    settled: Settled,
    aims: Aims,
) -> Result<Answer, Memory>
    requires few_seen { seen.now.count ≤ 1_000_000 }
    requires small_seen { nat_abs seen.now.sum ≤ 2 ^ 83 }
    requires low { CanEnd settled.found aims.low }
    requires high { CanEnd settled.found aims.high }
    ensures { IfOk result (IsAnswer seen.now agg settled.relation settled.found aims.low aims.high) }
{
    let (relation, found) = without_lack(settled);
    let (low, high) = both_ends(alloc, seen, agg, aims, found.as_slice())?;
    Ok(answer_over(relation, low, high))
}

fn without_lack(settled: Settled) -> (Relation, FoundCounts)
    ensures { result ≡ (settled.relation, settled.found) }
{
    (settled.relation, settled.found)
}

fn both_ends(
    alloc: Global,
    seen: &Folded,
    agg: Agg,
    aims: Aims,
    found: &[Seq<u64>],
) -> Result<(End, End), Memory>
    requires few_seen { seen.now.count ≤ 1_000_000 }
    requires small_seen { nat_abs seen.now.sum ≤ 2 ^ 83 }
    requires low { CanEnd found.now aims.low }
    requires high { CanEnd found.now aims.high }
    ensures low { IfOk result (λ ends. IsEnd seen.now agg Low found.now aims.low ends.0) }
    ensures high { IfOk result (λ ends. IsEnd seen.now agg High found.now aims.high ends.1) }
{
    let Aims { low, high } = aims;
    let low = end_towards(alloc, seen, agg, Extreme::Low, low, found)?;
    let high = end_towards(alloc, seen, agg, Extreme::High, high, found)?;
    Ok((low, high))
}

/// Nothing where that is impossible, and else both ends.
fn answer_over(relation: Relation, low: End, high: End) -> Answer
    ensures { result ≡ answer_over relation low high }
{
    if let Relation::Impossible(why) = relation {
        return impossible_by(why);
    }
    answer_between(relation, low, high)
}

fn answer_between(relation: Relation, low: End, high: End) -> Answer
    ensures { result ≡ answer_between relation low high }
{
    if is_open(&relation) && high.value.num < low.value.num {
        return impossible_by(Why::Ends(bounded_by(low), bounded_by(high)));
    }
    Answer {
        relation,
        lack: Lack::Silent,
        ends: Some((low, high)),
    }
}

fn is_open(relation: &Relation) -> bool
    ensures { result ≡ is_open relation.now }
{
    match relation {
        Relation::Possible(_) | Relation::Impossible(_) => false,
        Relation::Undecided => true,
    }
}

pub(crate) fn bounded_by(end: End) -> Bounded
    ensures { result ≡ bounded_by end }
{
    Bounded {
        value: end.value,
        proof: end.proof,
    }
}

pub(crate) fn impossible_by(why: Why) -> Answer
    ensures { result ≡ impossible_by why }
{
    Answer {
        relation: Relation::Impossible(why),
        lack: Lack::Silent,
        ends: None,
    }
}
