use pc_model::Mult;

/// What the relaxation of a box says of it: nothing is in it, its greatest point is whole, or it is not at a cell whose
/// count, rounded down, is `at`; or the steps ended in no point.
#[derive(Clone, Copy, Debug, PartialEq, Eq)]
pub(crate) enum Known {
    Nothing,
    Whole,
    Parted { cell: u32, at: u64 },
    Stuck,
}

/// A node of a search: what is known of its box, the multipliers that a leaf there shows, and the bound that they
/// prove. Where the steps ended in no point, both are those of its parent; where nothing is in the box, there is no bound.
#[derive(Debug, Drop)]
pub(crate) struct Visited {
    pub known: Known,
    pub mult: Mult,
    pub bound: i128,
}
