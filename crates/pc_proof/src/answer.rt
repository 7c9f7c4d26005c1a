ghost use Rattle.std.specs.Prelude.{◌≡◌};
ghost use Rattle.pc_model.specs.Right as plain;
ghost use Rattle.pc_proof.specs.Unbroken.{plain_lack, plain_relation};

use pc_list::Seq;
use pc_model::{Agg, Run, Tree};
use pc_num::Frac;

/// What shows that a value is an end: the observed rows, a search tree, a search tree at a ratio, or the values that
/// rows can have.
#[derive(Clone, Debug, PartialEq, Eq, Drop)]
pub enum Proof {
    Rows,
    Tree(Tree),
    At(Frac, Tree),
    Values,
}

/// A value that is not passed, with what shows it.
#[derive(Clone, Debug, PartialEq, Eq, Drop)]
pub struct Bounded {
    pub value: Frac,
    pub proof: Proof,
}

/// Why no lost rows meet the constraints: a tree whose leaves are void, a greatest number of lost rows that is below
/// the least one, or a low end above the high one.
#[derive(Debug, PartialEq, Eq, Drop)]
pub enum Why {
    Void(Tree),
    Cross(Tree, Tree),
    Ends(Bounded, Bounded),
}

/// Whether lost rows can meet the constraints, with runs of such rows.
#[derive(Debug, PartialEq, Eq, Drop)]
pub enum Relation {
    Possible(Seq<Run>),
    Impossible(Why),
    Undecided,
}

impl Relation {
    /// Whether it says that no lost rows can meet the constraints.
    pub fn is_impossible(&self) -> bool
        ensures { result ≡ plain.is_impossible (plain_relation self.now) }
    {
        matches!(self, Relation::Impossible(_))
    }
}

/// What shows that the aggregate always has a value.
#[derive(Clone, Debug, PartialEq, Eq, Drop)]
pub enum NeverBy {
    Rows,
    Tree(Tree),
}

/// What shows that the aggregate never has a value.
#[derive(Debug, PartialEq, Eq, Drop)]
pub enum AlwaysBy {
    Tree(Tree),
    Ends(Bounded, Bounded),
}

/// Whether the aggregate can lack a value. An aggregate that always has one is silent of it.
#[derive(Debug, PartialEq, Eq, Drop)]
pub enum Lack {
    Silent,
    Never(NeverBy),
    Sometimes { without: Seq<Run>, with: Seq<Run> },
    Always(AlwaysBy),
    Undecided,
}

impl Lack {
    /// Whether it says that the aggregate never has a value.
    pub fn is_always(&self) -> bool
        ensures { result ≡ plain.is_always (plain_lack self.now) }
    {
        matches!(self, Lack::Always(_))
    }
}

/// Whether an aggregate has a value over any rows, also over none.
pub fn always_has_value(agg: Agg) -> bool
    ensures { result ≡ plain.always_has_value agg }
{
    match agg {
        Agg::Count | Agg::Sum => true,
        Agg::Min | Agg::Max | Agg::Avg => false,
    }
}

/// Whether an end is reached, with runs of lost rows that reach it.
#[derive(Debug, PartialEq, Eq, Drop)]
pub enum Mark {
    Exact(Seq<Run>),
    Outer,
}

/// An end of a range, in units of the last place of the query's column.
#[derive(Debug, PartialEq, Eq, Drop)]
pub struct End {
    pub value: Frac,
    pub mark: Mark,
    pub proof: Proof,
}

/// The answer to a query. There are no ends where the relation is impossible or the aggregate never has a value.
#[derive(Debug, PartialEq, Eq, Drop)]
pub struct Answer {
    pub relation: Relation,
    pub lack: Lack,
    pub ends: Option<(End, End)>,
}
