use pc_model::{Constraint, Folded, Query, Run, Schema};
use pc_num::Frac;

/// An end of an answer.
#[derive(Clone, Copy, Debug, PartialEq, Eq)]
pub enum Side {
    Low,
    High,
}

/// What was observed of the rows that a query speaks of: their fold, or of a quantile their numbers.
#[derive(Clone, Copy)]
pub enum Seen<'a> {
    Folded(Folded),
    Numbers(&'a [i64]),
}

/// What was asked, for one name where it is grouped. The query of a quantile is that of the least over the same rows.
#[derive(Clone, Copy)]
pub struct Asked<'a> {
    pub schema: &'a Schema,
    pub constraints: &'a [Constraint],
    pub query: &'a Query,
    pub name: Option<u32>,
    pub seen: Seen<'a>,
}

/// An end with its value, and with lost rows that reach it.
#[derive(Clone, Copy)]
pub struct Reached<'a> {
    pub side: Side,
    pub value: Frac,
    pub runs: &'a [Run],
}
