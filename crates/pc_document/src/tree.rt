ghost use Rattle.std.specs.Prelude.{◌≡◌, ◌<◌, ◌+◌, ◌-◌, ◌^◌, IfOk, if◌then◌else◌};
ghost use Rattle.pc_document_format.specs.Formats.{read_line, read_nodes};
ghost use Rattle.pc_document_lines.specs.NodeLines.{is_split, read_node};
ghost use Rattle.pc_document.specs.Places.{IsLineStart, Reads, lines_at};
ghost use Rattle.pc_document.specs.Reading.{read_tree};

use crate::halt::Halt;
use crate::placed::placed;
use crate::places::first_line_at;
use pc_document_lines::read_node;
use pc_list::Seq;
use pc_model::{Tree, TreeNode};
use std::alloc::Global;

/// The search tree that begins at a place, and the place after it.
#[tactic(auto, using(crate::proofs::NodeSteps::are_trees), unfolding(crate::specs::Reading::read_tree))]
pub(crate) fn tree_at(alloc: Global, bytes: &[u8], at: usize) -> Result<(Tree, usize), Halt>
    requires start { IsLineStart bytes.now at }
    ensures { Reads bytes.now result (read_tree (lines_at bytes.now at)) }
{
    let (nodes, at) = nodes_at(alloc, bytes, at)?;
    let tree = placed(alloc, nodes)?;
    Ok((tree, at))
}

/// The nodes of the tree that begins at a place, in the order of their lines.
#[tactic(auto, using(crate::proofs::NodeSteps::steps))]
fn nodes_at(alloc: Global, bytes: &[u8], start: usize) -> Result<(Seq<TreeNode>, usize), Halt>
    requires start { IsLineStart bytes.now start }
    ensures { Reads bytes.now result (read_nodes is_split read_node 1 (lines_at bytes.now start)) }
{
    let mut nodes = Seq::new(alloc);
    let mut at = start;
    let mut owed = 1;
    while 0 < owed {
        let (node, next) = node_at(alloc, bytes, at)?;
        owed = owed_after(&node, owed);
        nodes.push(node)?;
        at = next;
    }
    Ok((nodes, at))
}

fn node_at(alloc: Global, bytes: &[u8], at: usize) -> Result<(TreeNode, usize), Halt>
    requires start { IsLineStart bytes.now at }
    ensures reads { Reads bytes.now result (read_line read_node (lines_at bytes.now at)) }
    ensures later { IfOk result (λ found. at < found.1) }
{
    let (line, next) = first_line_at(bytes, at)?;
    match read_node(alloc, line)? {
        Some(node) => Ok((node, next)),
        None => Err(Halt::Fault { at }),
    }
}

/// How many trees are still to be read after a node, of so many with its own.
fn owed_after(node: &TreeNode, owed: usize) -> usize
    requires some { 0 < owed }
    requires few { owed + 1 < 2 ^ 64 }
    ensures { result ≡ (if is_split node.now then owed + 1 else owed - 1) }
{
    match node {
        TreeNode::Split { .. } => owed + 1,
        TreeNode::Bound { .. } | TreeNode::Void { .. } => owed - 1,
    }
}
