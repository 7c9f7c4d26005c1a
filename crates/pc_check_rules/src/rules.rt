//! The numbers of the rules that lines are tried by. Rule 1, that the bytes are a document, is tried by its reader.

/// The query's area allows the name of a group, and the first block has a tree of its own.
pub const NAMES_AND_TREES: u8 = 2;
/// A cut leaves something in both parts of its node's box.
pub const CUTS: u8 = 3;
/// A leaf is marked as its rows are.
pub const LEAVES: u8 = 4;
/// Runs are possible.
pub const POSSIBLE_RUNS: u8 = 5;
/// Observed rows and runs have the value that is printed, or have one or none as is said.
pub const VALUES_OF_RUNS: u8 = 6;
/// A split is of a cell, in the range of its count.
pub const SPLITS: u8 = 7;
/// Multipliers prove a bound, of a void leaf one below 0.
pub const MULTIPLIERS: u8 = 8;
/// What shows that nothing is possible does; where the relation is undecided, no end is exact.
pub const RELATIONS: u8 = 9;
/// What shows that there is always a value, or never one, does.
pub const LACKS: u8 = 10;
/// What shows a low end does.
pub const LOW_ENDS: u8 = 11;
/// What shows a high end does.
pub const HIGH_ENDS: u8 = 12;
