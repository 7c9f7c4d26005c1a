use crate::stands::Stand;
use pc_list::Seq;

/// What rows add to an end: an amount, or where their number stands to it.
#[derive(Clone, Copy, Debug, PartialEq, Eq)]
pub enum Adds {
    Nothing,
    Amount(i128),
    Stands(Stand),
}

/// What keeps rows from giving more: the limit of the constraint at a place, its values, its predicate, or the schema.
#[derive(Clone, Copy, Debug, PartialEq, Eq)]
pub enum Hold {
    Most(usize),
    Least(usize),
    Values(usize),
    When(usize),
    Schema,
}

/// Rows of an end that are alike: those observed, or a run of lost ones. The places are those of the constraints that speak of
/// the lost row, ascending; observed rows have none.
#[derive(Debug, Drop)]
pub struct Part {
    pub rows: u64,
    pub value: Option<i64>,
    pub adds: Adds,
    pub under: Option<Seq<usize>>,
    pub held: Seq<Hold>,
}
