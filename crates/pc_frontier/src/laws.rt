ghost use Rattle.std.specs.Prelude.{◌≡◌, ◌<◌, ◌+◌, ℕ, ℤ, List, length};
ghost use Rattle.pc_frontier.specs.declared.node.Node.{Node};
ghost use Rattle.pc_frontier.specs.Frontier.{Seen, none_yet, with_root, with_split, held, taken, closed, pruned, IsInHand, IsKept};
ghost use Rattle.pc_frontier.specs.Boxes.{Box, Grown, leaf, divided, IsTree, AreLeavesKept, AreOrdered, AreFitting, AreBoxed, HasRange, IsIn, IsInOneLeaf};

/// The root alone is a tree, whatever the start box.
pub fn roots_are_trees()
    ensures tree { (room : ℕ) → IsTree (with_root (none_yet room)).nodes (leaf 0) }
    ensures fit { (room : ℕ) (start : Box) → AreFitting (with_root (none_yet room)).nodes start }
{}

/// A split makes a leaf of the tree a split with two leaves.
pub fn splits_divide_a_leaf()
    ensures { (f : Seen) (g : Grown) (n cell at : ℕ) → IsInHand f n → IsTree f.nodes g → IsTree (with_split n cell at f).nodes (divided n cell at (length f.nodes) g) }
{}

/// Where the leaves stay leaves, the tree stays as it is, and so do the boxes.
pub fn other_calls_keep_the_tree()
    ensures tree { (before after : List Node) (g : Grown) → AreLeavesKept before after → IsTree before g → IsTree after g }
    ensures fit { (before after : List Node) (start : Box) → AreLeavesKept before after → AreFitting before start → AreFitting after start }
{}

/// Holding, taking, closing and pruning split no node.
pub fn four_calls_split_no_node()
    ensures hold { (f : Seen) (n : ℕ) (bound : ℤ) → IsInHand f n → AreLeavesKept f.nodes (held n bound f).nodes }
    ensures take { (f : Seen) → IsKept f → AreLeavesKept f.nodes (taken f).nodes }
    ensures close { (f : Seen) (n : ℕ) → IsInHand f n → AreLeavesKept f.nodes (closed n f).nodes }
    ensures prune { (f : Seen) (value : ℤ) → AreLeavesKept f.nodes (pruned value f).nodes }
{}

/// A split keeps the fit for each start box that the frontier fits and whose range of the cell, at that node, holds
/// the number and the next one.
pub fn splits_in_range_keep_the_fit()
    ensures { (f : Seen) (start : Box) (n cell at : ℕ) → IsInHand f n → AreOrdered f.nodes → AreFitting f.nodes start → HasRange f.nodes start n cell at → AreFitting (with_split n cell at f).nodes start }
{}

/// The box of a number is the box at its place in the tree.
pub fn trees_have_boxes()
    ensures { (nodes : List Node) (start : Box) (g : Grown) → IsTree nodes g → AreBoxed nodes start start g }
{}

/// Counts of the start box are in the box of exactly one node that is not split.
pub fn leaves_divide_the_box()
    ensures { (nodes : List Node) (start : Box) (g : Grown) (counts : List ℕ) → IsTree nodes g → AreFitting nodes start → IsIn counts start → (n : ℕ) × IsInOneLeaf nodes start counts n }
{}
