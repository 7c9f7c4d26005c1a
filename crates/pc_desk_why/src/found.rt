//! What is found of an answer.
ghost use Rattle.std.specs.Prelude.{◌≡◌, IfOk};
ghost use Rattle.pc_model.specs.Right.{is_outer};
ghost use Rattle.pc_report.specs.Told.{answer_in, end_in, ends_in, lack_in, mark_in, relation_in};
ghost use Rattle.pc_desk_why.specs.Explained.{AreEndsMade, IsFound, IsMade, are_outer, is_open, is_undecided, is_unsettled};
ghost use Rattle.pc_desk_why.specs.Scopes.{AreReachable, IsAskable, IsReachable};

use crate::explained::{Found, MadeEnd};
use pc_desk_parts::{Asked, Reached, Side, parts_of};
use pc_num::Memory;
use pc_report::{Told, ToldEnd, ToldLack, ToldMark, ToldRelation};
use std::alloc::Global;

/// The parts of its ends, that there is no value, or that the constraints are impossible.
pub(crate) fn found_of(alloc: Global, ask: &Asked, told: &Told) -> Result<Found, Memory>
    requires askable { IsAskable ask.now }
    requires reachable { AreReachable ask.now (ends_in told.now.ends) }
    ensures { IfOk result (IsFound ask.now (answer_in told.now)) }
{
    if told.relation.is_impossible() {
        return Ok(Found::Impossible);
    }
    match &told.ends {
        Some((low, high)) => Ok(Found::Ends(
            made_end(alloc, ask, Side::Low, low)?,
            made_end(alloc, ask, Side::High, high)?,
        )),
        None => Ok(Found::NoValue),
    }
}

fn made_end(alloc: Global, ask: &Asked, side: Side, end: &ToldEnd) -> Result<MadeEnd, Memory>
    requires askable { IsAskable ask.now }
    requires reachable { IsReachable ask.now (end_in end.now) }
    ensures { IfOk result (IsMade ask.now side (end_in end.now).value (mark_in end.now.mark)) }
{
    match end.mark {
        ToldMark::Exact(runs) => {
            let reached = Reached {
                side,
                value: end.value,
                runs,
            };
            Ok(MadeEnd::Parts(parts_of(alloc, ask, &reached)?))
        }
        ToldMark::Outer => Ok(MadeEnd::NotReached),
    }
}

/// Whether something of an answer is not settled.
pub(crate) fn is_open(told: &Told) -> bool
    ensures { result ≡ is_open (answer_in told.now) }
{
    is_undecided(&told.relation) || is_unsettled(&told.lack) || are_outer(&told.ends)
}

fn is_undecided(relation: &ToldRelation) -> bool
    ensures { result ≡ is_undecided (relation_in relation.now) }
{
    match relation {
        ToldRelation::Undecided => true,
        ToldRelation::Possible(_) | ToldRelation::Impossible => false,
    }
}

fn is_unsettled(lack: &ToldLack) -> bool
    ensures { result ≡ is_unsettled (lack_in lack.now) }
{
    match lack {
        ToldLack::Undecided => true,
        ToldLack::Silent | ToldLack::Never | ToldLack::Sometimes { .. } | ToldLack::Always => false,
    }
}

fn are_outer(ends: &Option<(ToldEnd, ToldEnd)>) -> bool
    ensures { result ≡ are_outer (ends_in ends.now) }
{
    match ends {
        Some((low, high)) => is_outer(&low.mark) || is_outer(&high.mark),
        None => false,
    }
}

fn is_outer(mark: &ToldMark) -> bool
    ensures { result ≡ is_outer (mark_in mark.now) }
{
    match mark {
        ToldMark::Outer => true,
        ToldMark::Exact(_) => false,
    }
}
