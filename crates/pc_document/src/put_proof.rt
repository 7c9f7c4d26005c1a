ghost use Rattle.std.specs.Prelude.{◌≡◌, ◌++◌, ◌∷◌, [], OnOk};
ghost use Rattle.pc_model.specs.WellFormed.{IsWellFormed};
ghost use Rattle.pc_model.specs.declared.tree.TreeNode.{TreeNode};
ghost use Rattle.pc_document_format.specs.Lines.{lines_text};
ghost use Rattle.pc_document_format.specs.Formats.{nodes_text};
ghost use Rattle.pc_document_lines.specs.NodeLines.{bare, node_text};
ghost use Rattle.pc_proof.specs.Form.{IsFormedBounded, IsFormedProof, IsFormedValue};
ghost use Rattle.pc_document.specs.DocumentLines.{bounded_lines, crossing_lines, proof_lines, tree_lines};
ghost use Rattle.pc_document_lines.specs.ValueLines.{IsProofLine, end_text, proof_text};

use pc_document_lines::{EndLine, ProofLine, Side, put_end_line, put_node, put_proof_line};
use pc_model::{Query, Schema, Tree, TreeNode};
use pc_num::{Frac, Memory};
use pc_proof::{Bounded, Proof};
use std::alloc::Global;

/// Appends a text and a line feed.
#[tactic(auto, using(crate::proofs::Writing::one_line))]
pub(crate) fn put_line(out: &mut Vec<u8>, text: &str) -> Result<(), Memory>
    ensures { OnOk result (out.new.items ≡ out.old.items ++ lines_text (text.now ∷ [])) }
{
    out.extend_from_slice(text.as_bytes())?;
    out.push(b'\n')?;
    Ok(())
}

/// Appends the lines of a search tree.
pub(crate) fn put_tree(alloc: Global, out: &mut Vec<u8>, tree: &Tree) -> Result<(), Memory>
    ensures { OnOk result (out.new.items ≡ out.old.items ++ lines_text (tree_lines tree.now)) }
{
    put_nodes(alloc, out, tree.nodes.as_slice())
}

#[tactic(auto, using(crate::proofs::Writing::tree_steps))]
fn put_nodes(alloc: Global, out: &mut Vec<u8>, nodes: &[TreeNode]) -> Result<(), Memory>
    ensures { OnOk result (out.new.items ≡ out.old.items ++ lines_text (nodes_text (λ (node : TreeNode). node_text (bare node)) nodes.now)) }
{
    for node in nodes {
        put_node(alloc, out, node)?;
        out.push(b'\n')?;
    }
    Ok(())
}

/// Appends the lines of the proof of an end.
#[tactic(auto, using(crate::proofs::Writing::joins))]
pub(crate) fn put_proof(
    alloc: Global,
    schema: &Schema,
    out: &mut Vec<u8>,
    query: &Query,
    proof: &Proof,
) -> Result<(), Memory>
    requires well_formed { IsWellFormed schema.now }
    requires formed { IsFormedProof proof.now }
    ensures { OnOk result (out.new.items ≡ out.old.items ++ lines_text (proof_lines schema.now query.now proof.now)) }
{
    match proof {
        Proof::Rows => put_tag(alloc, schema, out, query, ProofLine::Rows),
        Proof::Tree(tree) => {
            put_tag(alloc, schema, out, query, ProofLine::Tree)?;
            put_tree(alloc, out, tree)
        }
        Proof::At(ratio, tree) => {
            put_tag(alloc, schema, out, query, ProofLine::At(*ratio))?;
            put_tree(alloc, out, tree)
        }
        Proof::Values => put_tag(alloc, schema, out, query, ProofLine::Values),
    }
}

#[tactic(auto, using(crate::proofs::Writing::one_line))]
fn put_tag(
    alloc: Global,
    schema: &Schema,
    out: &mut Vec<u8>,
    query: &Query,
    line: ProofLine,
) -> Result<(), Memory>
    requires well_formed { IsWellFormed schema.now }
    requires formed { IsProofLine line }
    ensures { OnOk result (out.new.items ≡ out.old.items ++ lines_text (proof_text schema.now query.now line ∷ [])) }
{
    put_proof_line(alloc, schema, out, query, &line)?;
    out.push(b'\n')?;
    Ok(())
}

/// Appends the lines of an outer end that is no end of the answer.
#[tactic(auto, using(crate::proofs::Writing::joins))]
fn put_bounded(
    alloc: Global,
    schema: &Schema,
    out: &mut Vec<u8>,
    query: &Query,
    side: Side,
    bounded: &Bounded,
) -> Result<(), Memory>
    requires well_formed { IsWellFormed schema.now }
    requires formed { IsFormedBounded query.now.agg bounded.now }
    ensures { OnOk result (out.new.items ≡ out.old.items ++ lines_text (bounded_lines schema.now query.now side bounded.now)) }
{
    let line = EndLine {
        value: bounded.value,
        exact: false,
    };
    put_end(alloc, schema, out, query, side, line)?;
    put_proof(alloc, schema, out, query, &bounded.proof)
}

#[tactic(auto, using(crate::proofs::Writing::one_line))]
pub(crate) fn put_end(
    alloc: Global,
    schema: &Schema,
    out: &mut Vec<u8>,
    query: &Query,
    side: Side,
    line: EndLine,
) -> Result<(), Memory>
    requires well_formed { IsWellFormed schema.now }
    requires formed { IsFormedValue query.now.agg line.value }
    ensures { OnOk result (out.new.items ≡ out.old.items ++ lines_text (end_text schema.now query.now side line ∷ [])) }
{
    put_end_line(alloc, schema, out, query, side, &line)?;
    out.push(b'\n')?;
    Ok(())
}

/// Appends the lines of two such ends.
#[tactic(auto, using(crate::proofs::Writing::joins))]
pub(crate) fn put_crossing(
    alloc: Global,
    schema: &Schema,
    out: &mut Vec<u8>,
    query: &Query,
    low: &Bounded,
    high: &Bounded,
) -> Result<(), Memory>
    requires well_formed { IsWellFormed schema.now }
    requires low { IsFormedBounded query.now.agg low.now }
    requires high { IsFormedBounded query.now.agg high.now }
    ensures { OnOk result (out.new.items ≡ out.old.items ++ lines_text (crossing_lines schema.now query.now low.now high.now)) }
{
    put_bounded(alloc, schema, out, query, Side::Low, low)?;
    put_bounded(alloc, schema, out, query, Side::High, high)
}
