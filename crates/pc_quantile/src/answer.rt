ghost use Rattle.std.specs.Prelude.{◌≡◌};
ghost use Rattle.pc_proof.specs.Unbroken.{plain_answer, plain_end, plain_ends, plain_lack, plain_relation};
ghost use Rattle.pc_report.specs.Told.{answer_in, end_in, ends_in, lack_in, relation_in};
ghost use Rattle.pc_quantile.specs.Shown.{shown, shown_end, shown_ends, shown_lack, shown_relation};

use pc_list::Seq;
use pc_model::Run;
use pc_num::Frac;
use pc_proof::Mark;
use pc_report::{Told, ToldEnd, ToldLack, ToldRelation, told_mark};

/// An end of the range of a quantile, in units of the last place of its column.
#[derive(Debug, PartialEq, Eq, Drop)]
pub struct QuantileEnd {
    pub value: i64,
    pub mark: Mark,
}

/// Whether lost rows can meet the constraints, with runs of such rows.
#[derive(Debug, PartialEq, Eq, Drop)]
pub enum QuantileRelation {
    Possible(Seq<Run>),
    Impossible,
    Undecided,
}

/// Whether there can be no row that the quantile is asked of. It is silent where no lost rows meet the constraints.
#[derive(Debug, PartialEq, Eq, Drop)]
pub enum QuantileLack {
    Silent,
    Never,
    Sometimes { without: Seq<Run>, with: Seq<Run> },
    Always,
    Undecided,
}

/// The answer to a quantile. There are no ends where the relation is impossible or no list has a row.
#[derive(Debug, PartialEq, Eq, Drop)]
pub struct QuantileAnswer {
    pub relation: QuantileRelation,
    pub lack: QuantileLack,
    pub ends: Option<(QuantileEnd, QuantileEnd)>,
}

impl QuantileAnswer {
    /// What is told of it, as of an answer to the least number of the same rows.
    pub fn told(&self) -> Told<'_>
        ensures { answer_in result ≡ plain_answer (shown self.now) }
    {
        Told {
            relation: told_relation(&self.relation),
            lack: told_lack(&self.lack),
            ends: told_ends(&self.ends),
        }
    }
}

fn told_relation(relation: &QuantileRelation) -> ToldRelation<'_>
    ensures { relation_in result ≡ plain_relation (shown_relation relation.now) }
{
    match relation {
        QuantileRelation::Possible(runs) => ToldRelation::Possible(runs.as_slice()),
        QuantileRelation::Impossible => ToldRelation::Impossible,
        QuantileRelation::Undecided => ToldRelation::Undecided,
    }
}

fn told_lack(lack: &QuantileLack) -> ToldLack<'_>
    ensures { lack_in result ≡ plain_lack (shown_lack lack.now) }
{
    match lack {
        QuantileLack::Silent => ToldLack::Silent,
        QuantileLack::Never => ToldLack::Never,
        QuantileLack::Sometimes { without, with } => ToldLack::Sometimes {
            without: without.as_slice(),
            with: with.as_slice(),
        },
        QuantileLack::Always => ToldLack::Always,
        QuantileLack::Undecided => ToldLack::Undecided,
    }
}

fn told_ends(ends: &Option<(QuantileEnd, QuantileEnd)>) -> Option<(ToldEnd<'_>, ToldEnd<'_>)>
    ensures { ends_in result ≡ plain_ends (shown_ends ends.now) }
{
    match ends {
        Some((low, high)) => Some((told_end(low), told_end(high))),
        None => None,
    }
}

fn told_end(end: &QuantileEnd) -> ToldEnd<'_>
    ensures { end_in result ≡ plain_end (shown_end end.now) }
{
    ToldEnd {
        value: Frac {
            num: i128::from(end.value),
            den: 1,
        },
        mark: told_mark(&end.mark),
    }
}
