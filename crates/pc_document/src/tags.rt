use pc_proof::{End, Lack};

/// What a line says of an impossible relation.
#[derive(Clone, Copy, Debug, PartialEq, Eq)]
pub enum WhyLine {
    Void,
    Cross,
    Ends,
}

/// What a line says of the relation.
#[derive(Clone, Copy, Debug, PartialEq, Eq)]
pub enum RelationLine {
    Possible,
    Impossible,
    Undecided,
}

/// What a line says of an aggregate that always has a value.
#[derive(Clone, Copy, Debug, PartialEq, Eq)]
pub enum NeverLine {
    Rows,
    Tree,
}

/// What a line says of an aggregate that never has a value.
#[derive(Clone, Copy, Debug, PartialEq, Eq)]
pub enum AlwaysLine {
    Tree,
    Ends,
}

/// What a line says of the lack of a value.
#[derive(Clone, Copy, Debug, PartialEq, Eq)]
pub enum LackLine {
    Never,
    Sometimes,
    Always,
    Undecided,
}

/// What a line says of the tree of a block.
#[derive(Clone, Copy, Debug, PartialEq, Eq)]
pub enum TreeLine {
    Own,
    Same,
}

/// What is said after the relation: the lack and the ends.
#[derive(Debug, PartialEq, Eq, Drop)]
pub struct After {
    pub lack: Lack,
    pub ends: Option<(End, End)>,
}
