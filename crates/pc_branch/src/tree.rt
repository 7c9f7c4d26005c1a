ghost use Rattle.std.specs.Prelude.{◌≡◌, ◌<◌, ◌≤◌, ◌+◌, ◌^◌, List, ◌++◌, length, IfOk, IsOk};
ghost use Rattle.pc_model.specs.declared.tree.TreeNode.{TreeNode};
ghost use Rattle.pc_program_bound.specs.Sums.{nat_at};
ghost use Rattle.pc_program_bound.specs.SplitTrees.{nodes_from};
ghost use Rattle.pc_frontier.specs.Boxes.{Grown, root_of, size_of, IsTree, AreGrown};
ghost use Rattle.pc_branch.specs.Grown.{proof_of};
ghost use Rattle.pc_branch.specs.Ends.{AreSplitsKnown};
ghost use Rattle.pc_branch.specs.Spelled.{AreSized, leaf_node, IsSplitNode, IsNodeAt, children_of, IsSpelling};

use crate::visited::{Known, Visited};
use pc_frontier::Frontier;
use pc_list::Seq;
use pc_model::{Tree, TreeNode};
use pc_num::Memory;
use std::alloc::Global;

/// What was written, and the numbers of the nodes that come next, the next one last.
#[derive(Debug, Drop)]
struct Spelling {
    written: Seq<TreeNode>,
    stack: Vec<u32>,
}

/// The tree of a search in preorder, with the multipliers of its leaves.
pub(crate) fn tree_of(
    alloc: Global,
    frontier: &Frontier,
    visited: &[Visited],
) -> Result<Tree, Memory>
    requires long { length visited.now ≡ length frontier.now.nodes }
    requires few { length visited.now ≤ 100_000 }
    ensures { IfOk result (λ tree. (g : Grown) → IsTree frontier.now.nodes g → AreSplitsKnown visited.now g → tree.nodes ≡ nodes_from 0 (proof_of visited.now g)) }
{
    let sizes = sizes_of(alloc, frontier, visited.len())?;
    let mut spelling = Spelling {
        written: Seq::new(alloc),
        stack: vec![in alloc; 0]?,
    };
    for _ in 0..visited.len() {
        spelling = with_next(frontier, visited, sizes.as_slice(), spelling)?;
    }
    Ok(Tree {
        nodes: spelling.written,
    })
}

/// How many nodes the tree below each node has, itself among them. Children stand after their parents.
fn sizes_of(alloc: Global, frontier: &Frontier, count: usize) -> Result<Vec<u32>, Memory>
    requires { count ≡ length frontier.now.nodes }
    ensures { IfOk result (λ sizes. AreSized frontier.now.nodes sizes.items 0) }
{
    let mut sizes = vec![in alloc; 0; count]?;
    for place in (0..count).rev() {
        let size = size_at(frontier, place, sizes.as_slice())?;
        sizes[place] = size;
    }
    Ok(sizes)
}

/// The size of the tree below a node, where those of the later nodes are known.
fn size_at(frontier: &Frontier, place: usize, sizes: &[u32]) -> Result<u32, Memory>
    requires there { place < length frontier.now.nodes }
    requires later { AreSized frontier.now.nodes sizes.now (place + 1) }
    ensures { IfOk result (λ size. (g : Grown) → AreGrown frontier.now.nodes g → root_of g ≡ place → size ≡ size_of g) }
{
    let node = number(place)?;
    match frontier.first_child(node) {
        None => Ok(1),
        Some(first) => {
            let less = size_in(sizes, first as usize);
            let more = size_in(sizes, first as usize + 1);
            number(1 + less as usize + more as usize)
        }
    }
}

/// The size that is noted for a node, or 0 where it is none.
fn size_in(sizes: &[u32], place: usize) -> u32
    ensures { result ≡ nat_at sizes.now place }
{
    match sizes.get(place) {
        Some(size) => *size,
        None => 0,
    }
}

/// With the next node written, and its children on the stack; as it was where no node comes next.
fn with_next(
    frontier: &Frontier,
    visited: &[Visited],
    sizes: &[u32],
    spelling: Spelling,
) -> Result<Spelling, Memory>
    requires long { length visited.now ≡ length frontier.now.nodes }
    requires few { length spelling.written ≤ 100_000 }
    requires sized { AreSized frontier.now.nodes sizes.now 0 }
    ensures grown { IfOk result (λ after. length after.written ≤ length spelling.written + 1) }
    ensures spelled { IfOk result (λ after. (whole : List TreeNode) → IsSpelling frontier.now.nodes visited.now whole spelling.written spelling.stack.items → IsSpelling frontier.now.nodes visited.now whole after.written after.stack.items) }
    ensures longer { IfOk result (λ after. (whole : List TreeNode) → IsSpelling frontier.now.nodes visited.now whole spelling.written spelling.stack.items → length spelling.written < length whole → length after.written ≡ length spelling.written + 1) }
{
    let Spelling {
        mut written,
        mut stack,
    } = spelling;
    let Some(next) = stack.pop() else {
        return Ok(Spelling { written, stack });
    };
    let Some(visit) = visited.get(next as usize) else {
        return Ok(Spelling { written, stack });
    };
    let first = frontier.first_child(next);
    let node = node_at(visit, first, written.len(), sizes)?;
    let stack = with_children(stack, first)?;
    written.push(node)?;
    Ok(Spelling { written, stack })
}

/// The node of a visit, which is a split where it has a first child.
fn node_at(
    visit: &Visited,
    first: Option<u32>,
    place: usize,
    sizes: &[u32],
) -> Result<TreeNode, Memory>
    requires { place ≤ 100_000 }
    ensures { IfOk result (IsNodeAt visit.now first place sizes.now) }
{
    match first {
        None => leaf_node(visit),
        Some(first) => split_node(visit, place, size_in(sizes, first as usize)),
    }
}

/// The leaf of a visit: its multipliers show that nothing is in the box, or a bound.
fn leaf_node(visit: &Visited) -> Result<TreeNode, Memory>
    ensures { IfOk result (λ node. node ≡ leaf_node visit.now) }
{
    let mult = visit.mult.clone()?;
    match visit.known {
        Known::Nothing => Ok(TreeNode::Void { mult }),
        _ => Ok(TreeNode::Bound { mult }),
    }
}

/// The split of a visit. The nodes of its first tree, which has a size, stand behind it.
fn split_node(visit: &Visited, place: usize, size: u32) -> Result<TreeNode, Memory>
    requires { place ≤ 100_000 }
    ensures { IfOk result (IsSplitNode visit.now.known place size) }
{
    match visit.known {
        Known::Parted { cell, at } => {
            let less = number(place + 1)?;
            let more = number(place + 1 + size as usize)?;
            Ok(TreeNode::Split {
                cell,
                at,
                less,
                more,
            })
        }
        _ => leaf_node(visit),
    }
}

/// With both children of a node that is split, the first one on top.
fn with_children(stack: Vec<u32>, first: Option<u32>) -> Result<Vec<u32>, Memory>
    ensures { IfOk result (λ after. after.items ≡ stack.items ++ children_of first) }
{
    let Some(first) = first else {
        return Ok(stack);
    };
    let mut stack = stack;
    let second = number(first as usize + 1)?;
    stack.push(second)?;
    stack.push(first)?;
    Ok(stack)
}

// A count as the number of a node; more nodes than numbers would want too much memory.
fn number(count: usize) -> Result<u32, Memory>
    ensures same { IfOk result (λ number. number ≡ count) }
    ensures given { count < 2 ^ 32 → IsOk result }
{
    u32::try_from(count).map_err(|_| Memory)
}
