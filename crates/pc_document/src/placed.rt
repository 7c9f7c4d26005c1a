ghost use Rattle.std.specs.Prelude.{◌≡◌, ◌+◌, ◌<◌, ◌^◌, get_or, map, length, IfOk, IsOk, OnOk};
ghost use Rattle.pc_model.specs.declared.tree.TreeNode.{TreeNode};
ghost use Rattle.pc_document_format.specs.Formats.{AreTrees};
ghost use Rattle.pc_document_lines.specs.NodeLines.{IsBareNode, is_split};
ghost use Rattle.pc_document.specs.Reading.{placed};
ghost use Rattle.pc_document.specs.Spans.{ArePast, placed_from, placed_node};

use crate::spans::past_of;
use pc_list::Seq;
use pc_model::{Tree, TreeNode};
use pc_num::Memory;
use std::alloc::Global;

/// The tree of nodes in the order of their lines, with the places of their parts. Of 2^32 nodes or more there is none.
#[tactic(auto, using(crate::proofs::PlacedTrees::flags_of, crate::proofs::PlacedTrees::placed_spelled))]
pub(crate) fn placed(alloc: Global, nodes: Seq<TreeNode>) -> Result<Tree, Memory>
    requires { AreTrees IsBareNode is_split 1 nodes }
    ensures { IfOk result (λ tree. tree ≡ placed nodes) }
{
    let flags = flags_of(alloc, nodes.as_slice())?;
    let past = past_of(alloc, flags.as_slice())?;
    let nodes = with_places(nodes, past.as_slice())?;
    Ok(Tree { nodes })
}

#[tactic(auto, using(std::proofs::lemmas::List::map_more))]
fn flags_of(alloc: Global, nodes: &[TreeNode]) -> Result<Seq<bool>, Memory>
    ensures { IfOk result (λ flags. flags ≡ map (λ (node : TreeNode). is_split node) nodes.now) }
{
    let mut flags = Seq::new(alloc);
    for node in nodes {
        flags.push(is_split(node))?;
    }
    Ok(flags)
}

fn is_split(node: &TreeNode) -> bool
    ensures { result ≡ is_split node.now }
{
    match node {
        TreeNode::Split { .. } => true,
        TreeNode::Bound { .. } | TreeNode::Void { .. } => false,
    }
}

/// The nodes with the places of their parts, of which it is known where each tree ends. The list is changed in place, since a
/// second one would want as much memory again.
#[tactic(auto, using(crate::proofs::NodePlaces::node_end))]
fn with_places(nodes: Seq<TreeNode>, past: &[usize]) -> Result<Seq<TreeNode>, Memory>
    requires { ArePast (map is_split nodes) past.now 0 }
    ensures { IfOk result (λ list. list ≡ placed_from 0 nodes) }
{
    let mut list = nodes.into_vec();
    for place in 0..list.len() {
        put_places(&mut list[place], place, past)?;
    }
    Ok(Seq::from_vec(list))
}

/// Sets the places of a node's parts: the first stands next, the second where the tree that begins there ends.
fn put_places(node: &mut TreeNode, place: usize, past: &[usize]) -> Result<(), Memory>
    requires { place < length past.now }
    ensures placed { OnOk result (node.new ≡ placed_node (place + 1) (get_or past.now (place + 1) (place + 1)) node.old) }
    ensures given { place + 1 < 2 ^ 32 → get_or past.now (place + 1) (place + 1) < 2 ^ 32 → IsOk result }
{
    let next = place + 1;
    let second = past.get(next).copied().unwrap_or(next);
    if let TreeNode::Split { less, more, .. } = node {
        *less = place_number(next)?;
        *more = place_number(second)?;
    }
    Ok(())
}

/// A place as a node has it, where it is not too great.
pub(crate) fn place_number(place: usize) -> Result<u32, Memory>
    ensures same { IfOk result (λ number. number ≡ place) }
    ensures given { place < 2 ^ 32 → IsOk result }
{
    if place >= 1 << 32 {
        return Err(Memory);
    }
    Ok(place as u32)
}
