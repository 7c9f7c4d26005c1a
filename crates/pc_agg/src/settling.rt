ghost use Rattle.std.specs.Prelude.{◌≡◌, ℕ, ◌<◌, ◌≤◌, ◌^◌, ◌⊎◌, pos, neg_ℤ, nat_abs, length, [], ◌∷◌, slice_index_or, true, None, All, IsTrue, IfOk, IfSome};
ghost use Rattle.pc_cells.specs.Found.{IsFilled};
ghost use Rattle.pc_proof.specs.declared.answer.Relation.TheVariants as relations;
ghost use Rattle.pc_proof.specs.declared.answer.Lack.TheVariants as lacks;
ghost use Rattle.pc_proof.specs.Unbroken.{IsDecided};
ghost use Rattle.pc_branch_licences.specs.Pools.{AreLawful};
ghost use Rattle.pc_agg_search.specs.Problem.{IsEasyFor, IsPosed, setting_of};
ghost use Rattle.pc_agg_search.specs.declared.limit.Limit.{Limit};
ghost use Rattle.pc_agg.specs.declared.settling.Total.TheVariants as totals;
ghost use Rattle.pc_agg.specs.Settling.{AreOpenTotals, IsLimitOfGain, IsSettled, IsTotalDecided, IsTotalOf, impossible, left_open, listed, settled_after};
ghost use Rattle.pc_agg.specs.Posed.{IsTotalAt};
ghost use Rattle.pc_agg_search.specs.Targets.{AreRowsIn};

use pc_agg_search::{FoundCounts, Limit, Problem, Sought, equal_gains, seek};
use pc_cells::Cells;
use pc_list::Seq;
use pc_model::{Row, Tree};
use pc_num::Memory;
use pc_proof::{Lack, Relation, Why};
use pc_witness::rebuild;
use std::alloc::Global;

/// Whether lost rows can meet the constraints, whether the aggregate can lack a value, and the counts of rows in the
/// cells that were found for it.
#[derive(Debug, PartialEq, Eq, Drop)]
pub struct Settled {
    pub relation: Relation,
    pub lack: Lack,
    pub found: FoundCounts,
}

/// What the search for the most or the fewest rows comes to: the relation, or a bound below which nothing was found.
#[derive(Drop)]
enum Total {
    Settled(Settled),
    Open(Limit),
}

/// The relation where the searches of both ends were cut short with nothing found. Where a lost row gains one towards the high
/// end and loses one towards the low, their programs are those of the totals, which are not searched again.
pub(crate) fn settle_open(
    alloc: Global,
    problem: &Problem<'_>,
    low: &Limit,
    high: &Limit,
) -> Result<Settled, Memory>
    requires posed { IsPosed problem.now }
    requires low { IsLimitOfGain (setting_of problem.now) problem.now.nodes low.now }
    requires high { IsLimitOfGain (setting_of problem.now) problem.now.nodes high.now }
    requires closed { IsEasyFor problem.now → low.now.found ≡ None → ⊥ }
    ensures settled { IfOk result (IsSettled (setting_of problem.now) problem.now.nodes) }
    ensures nested { IsEasyFor problem.now → IfOk result (λ settled. IsDecided settled.relation) }
{
    if are_open_totals(low, high) {
        return Ok(undecided(alloc));
    }
    settle_totals(alloc, problem)
}

/// Whether the limits are those of the totals, with nothing found under them, and do not cross.
fn are_open_totals(low: &Limit, high: &Limit) -> bool
    requires { nat_abs low.now.most ≤ 10 ^ 37 }
    ensures { IsTrue result → AreOpenTotals low.now high.now }
{
    if low.found.is_some() || high.found.is_some() {
        return false;
    }
    if high.most < negated(low.most) {
        return false;
    }
    are_all(low.program.gain.as_slice(), -1) && are_all(high.program.gain.as_slice(), 1)
}

fn are_all(gains: &[i128], gain: i128) -> bool
    ensures { IsTrue result → All (λ g. g ≡ gain) gains.now }
{
    for each in gains {
        if *each != gain {
            return false;
        }
    }
    true
}

fn undecided(alloc: Global) -> Settled
    ensures { result ≡ record { relation = relations.Undecided; lack = lacks.Silent; found = [] } }
{
    Settled {
        relation: Relation::Undecided,
        lack: Lack::Silent,
        found: Seq::new(alloc),
    }
}

/// Settles the relation by the most and the fewest rows that can be lost.
pub(crate) fn settle_totals(alloc: Global, problem: &Problem<'_>) -> Result<Settled, Memory>
    requires posed { IsPosed problem.now }
    ensures settled { IfOk result (IsSettled (setting_of problem.now) problem.now.nodes) }
    ensures nested { IsEasyFor problem.now → IfOk result (λ settled. IsDecided settled.relation) }
{
    let most = match find_total(alloc, problem, 1)? {
        Total::Settled(settled) => return Ok(settled),
        Total::Open(limit) => limit,
    };
    let fewest = find_total(alloc, problem, -1)?;
    Ok(settled_after(alloc, most, fewest))
}

/// What the search for the fewest rows settles, or both bounds.
fn settled_after(alloc: Global, most: Limit, fewest: Total) -> Settled
    requires small_most { nat_abs most.most ≤ 10 ^ 37 }
    requires small_fewest { (limit : Limit) → fewest ≡ totals.Open limit → nat_abs limit.most ≤ 10 ^ 37 }
    ensures { result ≡ settled_after most fewest }
{
    match fewest {
        Total::Settled(settled) => settled,
        Total::Open(fewest) => left_open(alloc, most, fewest),
    }
}

/// The most rows that can be lost, by a gain of 1 for each, or the fewest, by a gain of -1.
fn find_total(alloc: Global, problem: &Problem<'_>, gain: i128) -> Result<Total, Memory>
    requires posed { IsPosed problem.now }
    requires one { (gain ≡ pos 1) ⊎ (gain ≡ neg_ℤ (pos 1)) }
    ensures total { IfOk result (IsTotalAt problem.now gain) }
    ensures nested { IsEasyFor problem.now → IfOk result IsTotalDecided }
{
    let gains = equal_gains(alloc, problem.cells.cells.len(), gain)?;
    match seek(alloc, problem, gains)? {
        Sought::Within(limit) => settled_within(alloc, problem, limit),
        Sought::Nothing(tree) => Ok(Total::Settled(impossible(alloc, Why::Void(tree)))),
    }
}

/// The relation where the search found something.
fn settled_within(alloc: Global, problem: &Problem<'_>, limit: Limit) -> Result<Total, Memory>
    requires posed { IsPosed problem.now }
    requires lawful { IfSome limit.found (AreLawful (setting_of problem.now)) }
    ensures total { IfOk result (IsTotalOf (setting_of problem.now) limit) }
{
    let Limit {
        program,
        most,
        tree,
        found,
    } = limit;
    match found {
        Some(counts) => {
            let settled = possible(alloc, problem, counts)?;
            Ok(Total::Settled(settled))
        }
        None => Ok(Total::Open(Limit {
            program,
            most,
            tree,
            found: None,
        })),
    }
}

/// A list with these counts.
fn possible(alloc: Global, problem: &Problem<'_>, counts: Seq<u64>) -> Result<Settled, Memory>
    requires posed { IsPosed problem.now }
    requires lawful { AreLawful (setting_of problem.now) counts }
    ensures settled { IfOk result (λ settled. (budget : ℕ) → IsSettled (setting_of problem.now) budget settled) }
    ensures decided { IfOk result (λ settled. IsDecided settled.relation) }
{
    let picks = rows_of_cells(alloc, problem.cells)?;
    let found = only(alloc, counts)?;
    listed(alloc, picks.as_slice(), found)
}

fn only(alloc: Global, counts: Seq<u64>) -> Result<FoundCounts, Memory>
    ensures { IfOk result (λ found. found ≡ counts ∷ []) }
{
    let mut found = Seq::new(alloc);
    found.push(counts)?;
    Ok(found)
}

/// A list with the first of these counts, by a row of each cell.
pub(crate) fn listed(alloc: Global, picks: &[Row], found: FoundCounts) -> Result<Settled, Memory>
    requires some { 0 < length found }
    requires sized { length picks.now ≡ length (slice_index_or found 0 []) }
    ensures { IfOk result (λ settled. settled ≡ listed picks.now found) }
{
    let runs = rebuild(alloc, picks, found.as_slice()[0].as_slice())?;
    Ok(Settled {
        relation: Relation::Possible(runs),
        lack: Lack::Silent,
        found,
    })
}

pub(crate) fn impossible(alloc: Global, why: Why) -> Settled
    ensures { result ≡ impossible why }
{
    Settled {
        relation: Relation::Impossible(why),
        lack: Lack::Silent,
        found: Seq::new(alloc),
    }
}

/// Where nothing was found: the most rows are fewer than the fewest, or neither is known.
fn left_open(alloc: Global, most: Limit, fewest: Limit) -> Settled
    requires small_most { nat_abs most.most ≤ 10 ^ 37 }
    requires small_fewest { nat_abs fewest.most ≤ 10 ^ 37 }
    ensures { result ≡ left_open most fewest }
{
    let are_crossed = most.most < negated(fewest.most);
    let most = tree_of(most);
    let fewest = tree_of(fewest);
    if are_crossed {
        return impossible(alloc, Why::Cross(most, fewest));
    }
    undecided(alloc)
}

fn tree_of(limit: Limit) -> Tree
    ensures { result ≡ limit.tree }
{
    limit.tree
}

fn negated(number: i128) -> i128
    requires { nat_abs number ≤ 10 ^ 37 }
    ensures { result ≡ neg_ℤ number }
{
    -number
}

/// The lowest row of the first leaf of each cell.
pub fn rows_of_cells(alloc: Global, cells: &Cells) -> Result<Seq<Row>, Memory>
    requires filled { All IsFilled cells.now.cells }
    ensures { IfOk result (λ picks. AreRowsIn cells.now.cells picks) }
{
    let mut picks = Seq::new(alloc);
    for place in 0..cells.cells.len() {
        let row = cells.row_at(alloc, place, 0, None, 0)?;
        picks.push(row)?;
    }
    Ok(picks)
}
