ghost use Rattle.std.specs.Prelude.{◌≡◌, ◌<◌, ◌+◌, ◌-◌, ◌^◌, IfOk, if◌then◌else◌};
ghost use Rattle.pc_model.specs.WellFormed.{IsWellFormed};
ghost use Rattle.pc_document_format.specs.Formats.{AreTrees, read_line, read_nodes};
ghost use Rattle.pc_document.specs.Places.{IsLineStart, Reads, lines_at};
ghost use Rattle.pc_document.specs.Reading.{read_cuts};
ghost use Rattle.pc_document_lines.specs.TokenLines.{IsBareCut, is_inner, read_cut_node};

use crate::halt::Halt;
use crate::placed_cuts::placed_cuts;
use crate::places::first_line_at;
use pc_document_lines::read_cut_node;
use pc_list::Seq;
use pc_model::{CutNode, CutTree, Schema};
use std::alloc::Global;

/// The tree of cuts that begins at a place, and the place after it.
#[tactic(auto, unfolding(crate::specs::Reading::read_cuts))]
pub(crate) fn cuts_at(
    alloc: Global,
    schema: &Schema,
    bytes: &[u8],
    at: usize,
) -> Result<(CutTree, usize), Halt>
    requires well_formed { IsWellFormed schema.now }
    requires start { IsLineStart bytes.now at }
    ensures { Reads bytes.now result (read_cuts schema.now (lines_at bytes.now at)) }
{
    let (nodes, next) = tree_nodes_at(alloc, schema, bytes, at)?;
    let tree = placed_cuts(alloc, nodes)?;
    Ok((tree, next))
}

/// The nodes of the tree that begins at a place, in the order of their lines: those of one tree.
#[tactic(auto, using(crate::proofs::CutSteps::nodes_are_trees))]
fn tree_nodes_at(
    alloc: Global,
    schema: &Schema,
    bytes: &[u8],
    start: usize,
) -> Result<(Seq<CutNode>, usize), Halt>
    requires well_formed { IsWellFormed schema.now }
    requires start { IsLineStart bytes.now start }
    ensures reads { Reads bytes.now result (read_nodes is_inner (read_cut_node schema.now) 1 (lines_at bytes.now start)) }
    ensures trees { IfOk result (λ found. AreTrees (IsBareCut schema.now) is_inner 1 found.0) }
{
    nodes_at(alloc, schema, bytes, start)
}

#[tactic(auto, using(crate::proofs::CutSteps::steps))]
fn nodes_at(
    alloc: Global,
    schema: &Schema,
    bytes: &[u8],
    start: usize,
) -> Result<(Seq<CutNode>, usize), Halt>
    requires well_formed { IsWellFormed schema.now }
    requires start { IsLineStart bytes.now start }
    ensures { Reads bytes.now result (read_nodes is_inner (read_cut_node schema.now) 1 (lines_at bytes.now start)) }
{
    let mut nodes = Seq::new(alloc);
    let mut at = start;
    let mut owed = 1;
    while 0 < owed {
        let (node, next) = node_at(alloc, schema, bytes, at)?;
        owed = owed_after(&node, owed);
        nodes.push(node)?;
        at = next;
    }
    Ok((nodes, at))
}

fn node_at(
    alloc: Global,
    schema: &Schema,
    bytes: &[u8],
    at: usize,
) -> Result<(CutNode, usize), Halt>
    requires well_formed { IsWellFormed schema.now }
    requires start { IsLineStart bytes.now at }
    ensures reads { Reads bytes.now result (read_line (read_cut_node schema.now) (lines_at bytes.now at)) }
    ensures later { IfOk result (λ found. at < found.1) }
{
    let (line, next) = first_line_at(bytes, at)?;
    match read_cut_node(alloc, schema, line)? {
        Some(node) => Ok((node, next)),
        None => Err(Halt::Fault { at }),
    }
}

/// How many trees are still to be read after a node, of so many with its own.
fn owed_after(node: &CutNode, owed: usize) -> usize
    requires some { 0 < owed }
    requires few { owed + 1 < 2 ^ 64 }
    ensures { result ≡ (if is_inner node.now then owed + 1 else owed - 1) }
{
    match node {
        CutNode::Inner { .. } => owed + 1,
        CutNode::Leaf { .. } => owed - 1,
    }
}
