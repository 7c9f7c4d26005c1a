use pc_list::{Seq, Text};

/// What an atom says of its column. Numbers are texts, which the column's scale gives their values.
#[derive(Debug, PartialEq, Eq, Drop)]
pub enum Claim {
    /// `= NUMBER`
    Number(Seq<u8>),
    /// `= NAME`
    Name(Text),
    /// `>= NUMBER`
    AtLeast(Seq<u8>),
    /// `<= NUMBER`
    AtMost(Seq<u8>),
    /// `> NUMBER`
    Above(Seq<u8>),
    /// `< NUMBER`
    Below(Seq<u8>),
    /// `in LOW..HIGH`
    Within { low: Seq<u8>, high: Seq<u8> },
    /// `in {FIRST, OTHER, ..}`
    Among { first: Text, others: Seq<Text> },
}

/// A condition on one column.
#[derive(Debug, PartialEq, Eq, Drop)]
pub struct Atom {
    pub column: Text,
    pub claim: Claim,
}

/// Atoms that all hold: joined by `and`, or `true` where there is none.
#[derive(Debug, PartialEq, Eq, Drop)]
pub struct Part {
    pub atoms: Seq<Atom>,
}

/// Parts of which some hold: joined by `or`. There is one at least, the first.
#[derive(Debug, PartialEq, Eq, Drop)]
pub struct Ways {
    pub first: Part,
    pub others: Seq<Part>,
}

/// Of which rows a line speaks: `NAME: WAYS`, or `outside`.
#[derive(Debug, PartialEq, Eq, Drop)]
pub enum Head {
    Named { name: Text, when: Ways },
    Outside,
}

/// A line of a constraint: `HEAD => VALUES, LEAST..MOST`.
#[derive(Debug, PartialEq, Eq, Drop)]
pub struct Line {
    pub head: Head,
    pub values: Part,
    pub least: Seq<u8>,
    pub most: Seq<u8>,
}

/// What a query measures. A number of rows is spelled `count` or `count(*)`.
#[derive(Debug, PartialEq, Eq, Drop)]
pub enum Measure {
    Count,
    CountOfAll,
    Sum(Text),
    Min(Text),
    Max(Text),
    Avg(Text),
}

/// A query: `MEASURE where WAYS group by COLUMN`, in which the last two may be left out.
#[derive(Debug, PartialEq, Eq, Drop)]
pub struct Question {
    pub measure: Measure,
    pub chosen: Option<Ways>,
    pub group: Option<Text>,
}

/// The query of a quantile: `quantile(P, Q, COLUMN) where WAYS`, in which the last may be left out.
#[derive(Debug, PartialEq, Eq, Drop)]
pub struct QuantileQuestion {
    pub p: Seq<u8>,
    pub q: Seq<u8>,
    pub column: Text,
    pub chosen: Option<Ways>,
}
