/// Into which pieces the numbers of a column are cut: a name each, or as many ranges, but no more than it has numbers.
#[derive(Clone, Copy, Debug, PartialEq, Eq)]
pub enum Pieces {
    Names,
    Ranges(u64),
}

/// A column, by its place in the schema, and the pieces into which it is cut.
#[derive(Clone, Copy, Debug, PartialEq, Eq)]
pub struct Division {
    pub column: usize,
    pub pieces: Pieces,
}
