ghost use Rattle.std.specs.Prelude.{◌≡◌};
ghost use Rattle.pc_model.specs.Right.{is_always, is_impossible};
ghost use Rattle.pc_proof.specs.Unbroken.{plain_answer, plain_ends, plain_lack, plain_mark, plain_relation};
ghost use Rattle.pc_report.specs.Told.{answer_in, ends_in, lack_in, mark_in, relation_in};

use pc_model::Run;
use pc_num::Frac;
use pc_proof::{Answer, End, Lack, Mark, Relation};

/// Whether lost rows can meet the constraints, with runs of such rows.
#[derive(Clone, Copy, Debug)]
pub enum ToldRelation<'a> {
    Possible(&'a [Run]),
    Impossible,
    Undecided,
}

impl ToldRelation<'_> {
    /// Whether it says that no lost rows can meet the constraints.
    pub fn is_impossible(&self) -> bool
        ensures { result ≡ is_impossible (relation_in self.now) }
    {
        match self {
            ToldRelation::Impossible => true,
            ToldRelation::Possible(_) | ToldRelation::Undecided => false,
        }
    }
}

/// Whether the aggregate can lack a value. An aggregate that always has one is silent of it.
#[derive(Clone, Copy, Debug)]
pub enum ToldLack<'a> {
    Silent,
    Never,
    Sometimes { without: &'a [Run], with: &'a [Run] },
    Always,
    Undecided,
}

impl ToldLack<'_> {
    /// Whether it says that the aggregate never has a value.
    pub fn is_always(&self) -> bool
        ensures { result ≡ is_always (lack_in self.now) }
    {
        match self {
            ToldLack::Always => true,
            ToldLack::Silent | ToldLack::Never | ToldLack::Sometimes { .. } | ToldLack::Undecided =>
                false,
        }
    }
}

/// Whether an end is reached, with runs of lost rows that reach it.
#[derive(Clone, Copy, Debug)]
pub enum ToldMark<'a> {
    Exact(&'a [Run]),
    Outer,
}

/// An end of a range, in units of the last place of the query's column.
#[derive(Clone, Copy, Debug)]
pub struct ToldEnd<'a> {
    pub value: Frac,
    pub mark: ToldMark<'a>,
}

/// What is told of a block: an answer that is lent, without what shows it.
#[derive(Clone, Copy, Debug)]
pub struct Told<'a> {
    pub relation: ToldRelation<'a>,
    pub lack: ToldLack<'a>,
    pub ends: Option<(ToldEnd<'a>, ToldEnd<'a>)>,
}

impl<'a> Told<'a> {
    /// What is told of an answer.
    pub fn of(answer: &'a Answer) -> Told<'a>
        ensures { answer_in result ≡ plain_answer answer.now }
    {
        Told {
            relation: told_relation(&answer.relation),
            lack: told_lack(&answer.lack),
            ends: told_ends(&answer.ends),
        }
    }
}

fn told_relation(relation: &Relation) -> ToldRelation<'_>
    ensures { relation_in result ≡ plain_relation relation.now }
{
    match relation {
        Relation::Possible(runs) => ToldRelation::Possible(runs.as_slice()),
        Relation::Impossible(_) => ToldRelation::Impossible,
        Relation::Undecided => ToldRelation::Undecided,
    }
}

fn told_lack(lack: &Lack) -> ToldLack<'_>
    ensures { lack_in result ≡ plain_lack lack.now }
{
    match lack {
        Lack::Silent => ToldLack::Silent,
        Lack::Never(_) => ToldLack::Never,
        Lack::Sometimes { without, with } => ToldLack::Sometimes {
            without: without.as_slice(),
            with: with.as_slice(),
        },
        Lack::Always(_) => ToldLack::Always,
        Lack::Undecided => ToldLack::Undecided,
    }
}

fn told_ends(ends: &Option<(End, End)>) -> Option<(ToldEnd<'_>, ToldEnd<'_>)>
    ensures { ends_in result ≡ plain_ends ends.now }
{
    match ends {
        Some((low, high)) => Some((told_end(low), told_end(high))),
        None => None,
    }
}

fn told_end(end: &End) -> ToldEnd<'_>
    ensures value { result.value ≡ end.now.value }
    ensures mark { mark_in result.mark ≡ plain_mark end.now.mark }
{
    ToldEnd {
        value: end.value,
        mark: told_mark(&end.mark),
    }
}

/// What is told of a mark.
pub fn told_mark(mark: &Mark) -> ToldMark<'_>
    ensures { mark_in result ≡ plain_mark mark.now }
{
    match mark {
        Mark::Exact(runs) => ToldMark::Exact(runs.as_slice()),
        Mark::Outer => ToldMark::Outer,
    }
}
