ghost use Rattle.std.specs.Prelude.{◌≡◌, ◌++◌, ◌∷◌, [], codes, All, IfOk, OnErr, OnOk};
ghost use Rattle.pc_model.specs.WellFormed.{IsWellFormed};
ghost use Rattle.pc_model.specs.Accepted.{IsQuery};
ghost use Rattle.pc_model.specs.declared.tree.CutNode.{CutNode};
ghost use Rattle.pc_document_format.specs.Lines.{lines_text};
ghost use Rattle.pc_document_format.specs.Formats.{items_text, nodes_text};
ghost use Rattle.pc_proof.specs.Form.{IsFormedBlock, IsInForm};
ghost use Rattle.pc_document.specs.DocumentLines.{block_lines, block_tree_lines, document_text, name_lines};
ghost use Rattle.pc_document_lines.specs.TokenLines.{bare_cut, cut_node_text, group_text, query_line_text};

use crate::put_answer::{put_answer, put_nothing};
use crate::put_proof::put_line;
use pc_document_lines::{put_cut_node, put_group, put_query_line};
use pc_model::{CutNode, Query, Schema};
use pc_num::Memory;
use pc_proof::{Block, BlockTree, Document};
use std::alloc::Global;

/// Appends the text of a document: each answer with what shows it.
pub fn put_document(
    alloc: Global,
    schema: &Schema,
    out: &mut Vec<u8>,
    doc: &Document,
) -> Result<(), Memory>
    requires well_formed { IsWellFormed schema.now }
    requires form { IsInForm schema.now doc.now }
    ensures ok { OnOk result (out.new.items ≡ out.old.items ++ document_text schema.now doc.now) }
    ensures err { OnErr result (out.new.items ≡ out.old.items) }
{
    let text = text_of(alloc, schema, doc)?;
    out.extend_from_slice(text.as_slice())?;
    Ok(())
}

#[tactic(auto, using(crate::proofs::Writing::joins, crate::proofs::Writing::new_text), unfolding(crate::specs::DocumentLines::document_text))]
fn text_of(alloc: Global, schema: &Schema, doc: &Document) -> Result<Vec<u8>, Memory>
    requires well_formed { IsWellFormed schema.now }
    requires form { IsInForm schema.now doc.now }
    ensures { IfOk result (λ text. text.items ≡ document_text schema.now doc.now) }
{
    let mut text = Vec::new(alloc);
    put_line(&mut text, "pc 1")?;
    put_blocks(alloc, schema, &mut text, doc.blocks.as_slice())?;
    put_line(&mut text, "end")?;
    Ok(text)
}

#[tactic(auto, using(crate::proofs::Writing::joins))]
fn put_blocks(
    alloc: Global,
    schema: &Schema,
    out: &mut Vec<u8>,
    blocks: &[Block],
) -> Result<(), Memory>
    requires well_formed { IsWellFormed schema.now }
    requires form { All (IsFormedBlock schema.now) blocks.now }
    ensures { OnOk result (out.new.items ≡ out.old.items ++ lines_text (items_text (block_lines schema.now) blocks.now)) }
{
    for block in blocks {
        put_block(alloc, schema, out, block)?;
    }
    Ok(())
}

#[tactic(auto, using(crate::proofs::Writing::joins))]
fn put_block(alloc: Global, schema: &Schema, out: &mut Vec<u8>, block: &Block) -> Result<(), Memory>
    requires well_formed { IsWellFormed schema.now }
    requires form { IsFormedBlock schema.now block.now }
    ensures { OnOk result (out.new.items ≡ out.old.items ++ lines_text (block_lines schema.now block.now)) }
{
    put_query(alloc, schema, out, &block.query)?;
    put_name(alloc, schema, out, block.query.group, block.name)?;
    put_block_tree(alloc, schema, out, &block.tree)?;
    put_answer(alloc, schema, out, &block.query, &block.answer)
}

#[tactic(auto, using(crate::proofs::Writing::one_line))]
fn put_query(alloc: Global, schema: &Schema, out: &mut Vec<u8>, query: &Query) -> Result<(), Memory>
    requires well_formed { IsWellFormed schema.now }
    requires accepted { IsQuery schema.now query.now }
    ensures { OnOk result (out.new.items ≡ out.old.items ++ lines_text (query_line_text schema.now query.now ∷ [])) }
{
    put_query_line(alloc, schema, out, query)?;
    out.push(b'\n')?;
    Ok(())
}

/// Appends the line of the name that the block is for, where there is one.
fn put_name(
    alloc: Global,
    schema: &Schema,
    out: &mut Vec<u8>,
    group: Option<u8>,
    name: Option<u32>,
) -> Result<(), Memory>
    ensures { OnOk result (out.new.items ≡ out.old.items ++ lines_text (name_lines schema.now group name)) }
{
    match (group, name) {
        (Some(group), Some(place)) => put_group_line(alloc, schema, out, group, place),
        _ => put_nothing(out),
    }
}

#[tactic(auto, using(crate::proofs::Writing::one_line))]
fn put_group_line(
    alloc: Global,
    schema: &Schema,
    out: &mut Vec<u8>,
    group: u8,
    place: u32,
) -> Result<(), Memory>
    ensures { OnOk result (out.new.items ≡ out.old.items ++ lines_text (group_text schema.now group place ∷ [])) }
{
    put_group(alloc, schema, out, group, place)?;
    out.push(b'\n')?;
    Ok(())
}

fn put_block_tree(
    alloc: Global,
    schema: &Schema,
    out: &mut Vec<u8>,
    tree: &BlockTree,
) -> Result<(), Memory>
    requires well_formed { IsWellFormed schema.now }
    ensures { OnOk result (out.new.items ≡ out.old.items ++ lines_text (block_tree_lines schema.now tree.now)) }
{
    match tree {
        BlockTree::Own(tree) => put_own(alloc, schema, out, tree.nodes.as_slice()),
        BlockTree::Same => put_same(out),
    }
}

fn put_same(out: &mut Vec<u8>) -> Result<(), Memory>
    ensures { OnOk result (out.new.items ≡ out.old.items ++ lines_text (codes "tree same" ∷ [])) }
{
    put_line(out, "tree same")
}

fn put_own(
    alloc: Global,
    schema: &Schema,
    out: &mut Vec<u8>,
    nodes: &[CutNode],
) -> Result<(), Memory>
    requires well_formed { IsWellFormed schema.now }
    ensures { OnOk result (out.new.items ≡ out.old.items ++ lines_text (codes "tree own" ∷ nodes_text (λ (node : CutNode). cut_node_text schema.now (bare_cut node)) nodes.now)) }
{
    put_cuts_as(alloc, schema, out, "tree own", nodes)
}

#[tactic(auto, using(crate::proofs::Writing::joins))]
fn put_cuts_as(
    alloc: Global,
    schema: &Schema,
    out: &mut Vec<u8>,
    title: &str,
    nodes: &[CutNode],
) -> Result<(), Memory>
    requires well_formed { IsWellFormed schema.now }
    ensures { OnOk result (out.new.items ≡ out.old.items ++ lines_text (title.now ∷ nodes_text (λ (node : CutNode). cut_node_text schema.now (bare_cut node)) nodes.now)) }
{
    put_line(out, title)?;
    put_cuts(alloc, schema, out, nodes)
}

fn put_cuts(
    alloc: Global,
    schema: &Schema,
    out: &mut Vec<u8>,
    nodes: &[CutNode],
) -> Result<(), Memory>
    requires well_formed { IsWellFormed schema.now }
    ensures { OnOk result (out.new.items ≡ out.old.items ++ lines_text (nodes_text (λ (node : CutNode). cut_node_text schema.now (bare_cut node)) nodes.now)) }
{
    for node in nodes {
        put_cut_node(alloc, schema, out, node)?;
        out.push(b'\n')?;
    }
    Ok(())
}
