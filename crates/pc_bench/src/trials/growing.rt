//! The tree of one leaf, cut on until each leaf is settled, in words.
ghost use Rattle.pc_cells_tree.specs.Linked.{CanBeDivided};

use crate::trouble::Trouble;
use pc_cells_tree::{Growth, marked, refined};
use pc_model::{Area, Constraint, Cut, CutNode, Leaf, LeafMark, Schema, Side};
use std::alloc::{AllocError, Global};

/// The tree of one leaf, cut on and marked.
#[tactic(auto, using(pc_cells_tree::proofs::Starts::one_leaf_is_tree))]
fn grown(
    alloc: Global,
    schema: &Schema,
    constraints: &[Constraint],
    chosen: &Area,
) -> Result<Growth, Trouble>
    requires asked { CanBeDivided schema.now constraints.now chosen.now }
{
    let start = [CutNode::Leaf {
        mark: LeafMark::Barren,
    }];
    let more = refined(alloc, schema, constraints, chosen, &start)?;
    let growth = marked(alloc, schema, constraints, chosen, more.nodes.as_slice())?;
    if more.cuts.saturating_add(1) != growth.leaves.len() as u64 {
        return Err(Trouble::Cuts);
    }
    Ok(growth)
}

/// The nodes of the tree.
pub(super) fn tree(
    alloc: Global,
    schema: &Schema,
    constraints: &[Constraint],
    chosen: &Area,
) -> Result<String, Trouble>
    requires asked { CanBeDivided schema.now constraints.now chosen.now }
{
    let growth = grown(alloc, schema, constraints, chosen)?;
    Ok(nodes_text(alloc, growth.nodes.as_slice())?)
}

/// How many leaves there are.
pub(super) fn leaves(
    alloc: Global,
    schema: &Schema,
    constraints: &[Constraint],
    chosen: &Area,
) -> Result<String, Trouble>
    requires asked { CanBeDivided schema.now constraints.now chosen.now }
{
    let growth = grown(alloc, schema, constraints, chosen)?;
    let count = growth.leaves.len();
    Ok(format!(in alloc; "{count}")?)
}

/// The first side of each leaf, and its mark.
pub(super) fn days(
    alloc: Global,
    schema: &Schema,
    constraints: &[Constraint],
    chosen: &Area,
) -> Result<String, Trouble>
    requires asked { CanBeDivided schema.now constraints.now chosen.now }
{
    let growth = grown(alloc, schema, constraints, chosen)?;
    Ok(leaves_text(alloc, growth.leaves.as_slice())?)
}

/// The first cut of the whole domain.
pub(super) fn first_cut(
    alloc: Global,
    schema: &Schema,
    constraints: &[Constraint],
    chosen: &Area,
) -> Result<String, Trouble>
    requires asked { CanBeDivided schema.now constraints.now chosen.now }
{
    let growth = grown(alloc, schema, constraints, chosen)?;
    match growth.nodes.as_slice().first() {
        Some(CutNode::Inner { cut, .. }) => Ok(cut_text(alloc, cut)?),
        _ => Ok(String::from_str(alloc, "none")?),
    }
}

// ---- in words

fn nodes_text(alloc: Global, nodes: &[CutNode]) -> Result<String, AllocError> {
    let mut text = String::new(alloc);
    for node in nodes {
        if !text.is_empty() {
            text.push_str(", ")?;
        }
        let more = node_text(alloc, node)?;
        text.push_str(more.as_str())?;
    }
    Ok(text)
}

fn node_text(alloc: Global, node: &CutNode) -> Result<String, AllocError> {
    match node {
        CutNode::Inner { cut, first, second } => {
            let cut = cut_text(alloc, cut)?;
            format!(in alloc; "cut {cut} to {first} and {second}")
        }
        CutNode::Leaf { mark } => mark_text(alloc, *mark),
    }
}

fn cut_text(alloc: Global, cut: &Cut) -> Result<String, AllocError> {
    match cut {
        Cut::At { column, at } => format!(in alloc; "{column} at {at}"),
        Cut::Among { column, bits } => format!(in alloc; "{column} among {bits}"),
    }
}

fn mark_text(alloc: Global, mark: LeafMark) -> Result<String, AllocError> {
    match mark {
        LeafMark::Barren => String::from_str(alloc, "barren"),
        LeafMark::Class { mask, chosen } => {
            let side = if chosen { "in" } else { "out" };
            format!(in alloc; "class {mask} {side}")
        }
    }
}

fn leaves_text(alloc: Global, leaves: &[Leaf]) -> Result<String, AllocError> {
    let mut text = String::new(alloc);
    for leaf in leaves {
        if !text.is_empty() {
            text.push_str(", ")?;
        }
        let more = leaf_text(alloc, leaf)?;
        text.push_str(more.as_str())?;
    }
    Ok(text)
}

fn leaf_text(alloc: Global, leaf: &Leaf) -> Result<String, AllocError> {
    let mark = mark_text(alloc, leaf.mark)?;
    match leaf.region.sides.as_slice().first() {
        Some(Side::Span { low, high }) => format!(in alloc; "{low}..{high} {mark}"),
        Some(Side::Names { bits }) => format!(in alloc; "{bits} {mark}"),
        None => Ok(mark),
    }
}
