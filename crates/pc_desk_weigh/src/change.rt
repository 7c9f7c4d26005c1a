/// A limit of a constraint: so many rows at least, so many at most, or any values that the schema has.
#[derive(Clone, Copy, Debug, PartialEq, Eq)]
pub enum Limit {
    Least(u64),
    Most(u64),
    Values,
}

/// A change of the constraint at a place: the limit that it gets.
#[derive(Clone, Copy, Debug, PartialEq, Eq)]
pub struct Change {
    pub place: usize,
    pub limit: Limit,
}
