ghost use Rattle.std.specs.Prelude.{◌≡◌, ◌+◌, ◌<◌, ◌^◌, get_or, map, length, IfOk, IsOk, OnOk};
ghost use Rattle.pc_model.specs.declared.schema.Schema.{Schema};
ghost use Rattle.pc_model.specs.declared.tree.CutNode.{CutNode};
ghost use Rattle.pc_document_format.specs.Formats.{AreTrees};
ghost use Rattle.pc_document_lines.specs.TokenLines.{IsBareCut, is_inner};
ghost use Rattle.pc_document.specs.Reading.{placed_cuts};
ghost use Rattle.pc_document.specs.Spans.{ArePast, placed_cuts_from, placed_cut};

use crate::placed::place_number;
use crate::spans::past_of;
use pc_list::Seq;
use pc_model::{CutNode, CutTree};
use pc_num::Memory;
use std::alloc::Global;

/// The tree of cuts of nodes in the order of their lines, with the places of their parts. Of 2^32 nodes or more there is none.
#[tactic(auto, using(crate::proofs::PlacedCuts::cut_flags_of, crate::proofs::PlacedCuts::placed_cuts_spelled))]
pub(crate) fn placed_cuts(alloc: Global, nodes: Seq<CutNode>) -> Result<CutTree, Memory>
    requires { (schema : Schema) × AreTrees (IsBareCut schema) is_inner 1 nodes }
    ensures { IfOk result (λ tree. tree ≡ placed_cuts nodes) }
{
    let flags = flags_of(alloc, nodes.as_slice())?;
    let past = past_of(alloc, flags.as_slice())?;
    let nodes = with_places(nodes, past.as_slice())?;
    Ok(CutTree { nodes })
}

#[tactic(auto, using(std::proofs::lemmas::List::map_more))]
fn flags_of(alloc: Global, nodes: &[CutNode]) -> Result<Seq<bool>, Memory>
    ensures { IfOk result (λ flags. flags ≡ map (λ (node : CutNode). is_inner node) nodes.now) }
{
    let mut flags = Seq::new(alloc);
    for node in nodes {
        flags.push(is_inner(node))?;
    }
    Ok(flags)
}

fn is_inner(node: &CutNode) -> bool
    ensures { result ≡ is_inner node.now }
{
    match node {
        CutNode::Inner { .. } => true,
        CutNode::Leaf { .. } => false,
    }
}

/// The nodes with the places of their parts, of which it is known where each tree ends. The list is changed in place, since a
/// second one would want as much memory again.
#[tactic(auto, using(crate::proofs::CutPlacing::cut_end))]
fn with_places(nodes: Seq<CutNode>, past: &[usize]) -> Result<Seq<CutNode>, Memory>
    requires { ArePast (map is_inner nodes) past.now 0 }
    ensures { IfOk result (λ list. list ≡ placed_cuts_from 0 nodes) }
{
    let mut list = nodes.into_vec();
    for place in 0..list.len() {
        put_places(&mut list[place], place, past)?;
    }
    Ok(Seq::from_vec(list))
}

/// Sets the places of a node's parts: the first stands next, the second where the tree that begins there ends.
fn put_places(node: &mut CutNode, place: usize, past: &[usize]) -> Result<(), Memory>
    requires { place < length past.now }
    ensures placed { OnOk result (node.new ≡ placed_cut (place + 1) (get_or past.now (place + 1) (place + 1)) node.old) }
    ensures given { place + 1 < 2 ^ 32 → get_or past.now (place + 1) (place + 1) < 2 ^ 32 → IsOk result }
{
    let next = place + 1;
    let end = past.get(next).copied().unwrap_or(next);
    if let CutNode::Inner { first, second, .. } = node {
        *first = place_number(next)?;
        *second = place_number(end)?;
    }
    Ok(())
}
