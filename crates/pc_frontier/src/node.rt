/// How a node was made: the split of its parent at a cell and a number, and whether it has the greater counts.
#[derive(Clone, Copy, Debug, PartialEq, Eq)]
pub struct Born {
    pub parent: u32,
    pub cell: u32,
    pub at: u64,
    pub more: bool,
}

/// Where a node stands. A split names its first child; the second has the number after it.
#[derive(Clone, Copy, Debug, PartialEq, Eq)]
pub enum State {
    Closed,
    Open,
    InHand,
    Split(u32),
}

/// A node of a search. Its bound means something while it is open.
#[derive(Clone, Copy, Debug, PartialEq, Eq)]
pub struct Node {
    pub born: Option<Born>,
    pub state: State,
    pub bound: i128,
}
