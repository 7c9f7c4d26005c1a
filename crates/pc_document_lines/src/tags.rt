use pc_num::Frac;

/// Which of the two ends.
#[derive(Clone, Copy, Debug, PartialEq, Eq)]
pub enum Side {
    Low,
    High,
}

/// The value of an end, and whether the line says that it is exact.
#[derive(Clone, Copy, Debug, PartialEq, Eq)]
pub struct EndLine {
    pub value: Frac,
    pub exact: bool,
}

/// What a line says of the proof of an end, before its tree.
#[derive(Clone, Copy, Debug, PartialEq, Eq)]
pub enum ProofLine {
    Rows,
    Tree,
    At(Frac),
    Values,
}
