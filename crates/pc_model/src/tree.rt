use crate::region::Region;
use pc_list::Seq;

/// A cut of a box in two by one column: numbers up to `at` and the greater ones, or the names whose
/// bits are set and the others.
#[derive(Clone, Copy, Debug, PartialEq, Eq)]
pub enum Cut {
    At { column: u8, at: i64 },
    Among { column: u8, bits: u128 },
}

/// What is known of the rows of a leaf: none can be lost, or they are those of a class, which has bit j
/// set for constraint j.
#[derive(Clone, Copy, Debug, PartialEq, Eq)]
pub enum LeafMark {
    Barren,
    Class { mask: u32, chosen: bool },
}

/// A node of a cut tree; `first` and `second` are places in its list of nodes.
#[derive(Clone, Copy, Debug, PartialEq, Eq)]
pub enum CutNode {
    Inner { cut: Cut, first: u32, second: u32 },
    Leaf { mark: LeafMark },
}

/// A leaf of a cut tree: the region that the cuts on the way to it leave, and its mark.
#[derive(Debug, PartialEq, Eq, Drop)]
pub struct Leaf {
    pub region: Region,
    pub mark: LeafMark,
}

/// A tree of cuts. Node 0 is the root, and children stand after their parent.
#[derive(Debug, PartialEq, Eq, Drop)]
pub struct CutTree {
    pub nodes: Seq<CutNode>,
}

/// Multipliers of the constraints, over one denominator.
#[derive(Clone, Debug, PartialEq, Eq, Drop)]
pub struct Mult {
    pub by: Seq<i128>,
    pub den: i128,
}

/// A node of a search tree. A split gives `less` the counts of its cell up to `at`, and `more` those
/// above; both are places in the tree's list of nodes.
#[derive(Clone, Debug, PartialEq, Eq, Drop)]
pub enum TreeNode {
    Split {
        cell: u32,
        at: u64,
        less: u32,
        more: u32,
    },
    Bound {
        mult: Mult,
    },
    Void {
        mult: Mult,
    },
}

/// A search tree. Node 0 is the root, and children stand after their parent.
#[derive(Clone, Debug, PartialEq, Eq, Drop)]
pub struct Tree {
    pub nodes: Seq<TreeNode>,
}
