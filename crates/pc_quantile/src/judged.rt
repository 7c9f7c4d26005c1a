//! The answer where both ends stand, over all counts that were found.
ghost use Rattle.std.specs.Prelude.{◌≡◌, All, IfOk};
ghost use Rattle.pc_branch_licences.specs.Pools.{AreLawful};
ghost use Rattle.pc_agg_search.specs.declared.extreme.Extreme.TheVariants.{Low, High};
ghost use Rattle.pc_agg.specs.Marks.{ShowsFirst};
ghost use Rattle.pc_agg_search.specs.Wants.{IsFound};
ghost use Rattle.pc_quantile.specs.Answered.{CanEnd, CanMark, IsEndAt, IsJudged, IsJudgedOver, IsMarkedBy, always_as, judged, told_lack, told_relation};
ghost use Rattle.pc_quantile.specs.Measure.{IsMeasured, cells_for, has_numbers};

use crate::answer::{QuantileAnswer, QuantileEnd, QuantileLack, QuantileRelation};
use crate::bounds::impossible;
use crate::measure::{Measure, is_observed};
use crate::rungs::number_of;
use crate::stand::Stand;
use pc_agg::{Grounds, Settled, settle_found};
use pc_agg_search::{Extreme, find_wanted};
use pc_list::Seq;
use pc_num::Memory;
use pc_proof::{Lack, Mark, Relation};
use pc_witness::rebuild;
use std::alloc::Global;

/// A list of what was found, what is known of the lack, and both ends.
pub(crate) fn judge(
    alloc: Global,
    measure: &Measure<'_>,
    grounds: Grounds,
    low: Stand,
    high: Stand,
) -> Result<QuantileAnswer, Memory>
    requires measured { IsMeasured measure.now }
    requires lawful { All (AreLawful (cells_for measure.now)) grounds.found }
    requires low { CanEnd (cells_for measure.now) grounds.found low }
    requires high { CanEnd (cells_for measure.now) grounds.found high }
    ensures { IfOk result (IsJudged (cells_for measure.now) (has_numbers measure.now.seen.now) grounds low high) }
{
    let observed = is_observed(measure.seen);
    let settled = settle_found(alloc, &measure.problem, grounds, low.picks.as_slice())?;
    judge_settled(alloc, observed, settled, low, high)
}

/// The answer over what is settled.
fn judge_settled(
    alloc: Global,
    observed: bool,
    settled: Settled,
    low: Stand,
    high: Stand,
) -> Result<QuantileAnswer, Memory>
    requires low { CanMark settled.found low }
    requires high { CanMark settled.found high }
    ensures { IfOk result (IsJudgedOver observed settled low high) }
{
    let Settled {
        relation,
        lack,
        found,
    } = settled;
    let (low, high) = both_ends(alloc, low, high, found.as_slice())?;
    Ok(judged(
        observed,
        told_relation(relation),
        told_lack(lack),
        low,
        high,
    ))
}

fn both_ends(
    alloc: Global,
    low: Stand,
    high: Stand,
    found: &[Seq<u64>],
) -> Result<(QuantileEnd, QuantileEnd), Memory>
    requires low { CanMark found.now low }
    requires high { CanMark found.now high }
    ensures low { IfOk result (λ ends. IsEndAt Low low found.now ends.0) }
    ensures high { IfOk result (λ ends. IsEndAt High high found.now ends.1) }
{
    let low = end_at(alloc, Extreme::Low, low, found)?;
    let high = end_at(alloc, Extreme::High, high, found)?;
    Ok((low, high))
}

/// The end of a stand, reached where some counts that were found are wanted.
fn end_at(
    alloc: Global,
    extreme: Extreme,
    stand: Stand,
    found: &[Seq<u64>],
) -> Result<QuantileEnd, Memory>
    requires can { CanMark found.now stand }
    ensures { IfOk result (IsEndAt extreme stand found.now) }
{
    let mark = mark_at(alloc, &stand, found)?;
    let value = number_of(extreme, stand.key) as i64;
    Ok(QuantileEnd { value, mark })
}

fn mark_at(alloc: Global, stand: &Stand, found: &[Seq<u64>]) -> Result<Mark, Memory>
    requires can { CanMark found.now stand.now }
    ensures marked { IfOk result (IsMarkedBy stand.now found.now) }
    ensures first { IfOk result (ShowsFirst (IsFound stand.now.program stand.now.want) stand.now.picks found.now) }
{
    match find_wanted(&stand.program, stand.want, found) {
        Some(place) => {
            let runs = rebuild(alloc, stand.picks.as_slice(), found[place].as_slice())?;
            Ok(Mark::Exact(runs))
        }
        None => Ok(Mark::Outer),
    }
}

/// The relation, the lack and both ends, unless the ends cross: then nothing is possible where rows were observed, and
/// else no list has a row.
fn judged(
    observed: bool,
    relation: QuantileRelation,
    lack: QuantileLack,
    low: QuantileEnd,
    high: QuantileEnd,
) -> QuantileAnswer
    ensures { result ≡ judged observed relation lack low high }
{
    if low.value <= high.value {
        return QuantileAnswer {
            relation,
            lack,
            ends: Some((low, high)),
        };
    }
    if observed {
        return impossible();
    }
    always_as(relation)
}

pub(crate) fn always_as(relation: QuantileRelation) -> QuantileAnswer
    ensures { result ≡ always_as relation }
{
    QuantileAnswer {
        relation,
        lack: QuantileLack::Always,
        ends: None,
    }
}

/// The relation without what shows that nothing is possible.
pub(crate) fn told_relation(relation: Relation) -> QuantileRelation
    ensures { result ≡ told_relation relation }
{
    match relation {
        Relation::Possible(runs) => QuantileRelation::Possible(runs),
        Relation::Impossible(_) => QuantileRelation::Impossible,
        Relation::Undecided => QuantileRelation::Undecided,
    }
}

/// The lack without what shows it.
fn told_lack(lack: Lack) -> QuantileLack
    ensures { result ≡ told_lack lack }
{
    match lack {
        Lack::Silent => QuantileLack::Silent,
        Lack::Never(_) => QuantileLack::Never,
        Lack::Sometimes { without, with } => QuantileLack::Sometimes { without, with },
        Lack::Always(_) => QuantileLack::Always,
        Lack::Undecided => QuantileLack::Undecided,
    }
}
