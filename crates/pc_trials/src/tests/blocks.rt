//! The blocks of several queries, and their trees.
ghost use Rattle.std.specs.Prelude.{All, IfOk};
ghost use Rattle.pc_model.specs.Accepted.{IsQuery};
ghost use Rattle.pc_model.specs.WellFormed.{IsWellFormed};

use super::*;
use pc_group::answer_all;
use pc_lang::{read_constraints, read_query};
use pc_list::Seq;
use pc_model::{CutNode, Query, Refusal, Schema};
use pc_proof::{BlockTree, Document};
use pc_rows::{Case, read_rows};
use pc_schema::read_schema;

fn two_queries(
    alloc: Global,
    schema: &Schema,
    first: &str,
    second: &str,
) -> Result<Seq<Query>, Refusal>
    requires well_formed { IsWellFormed schema.now }
    ensures { IfOk result (All (IsQuery schema.now)) }
{
    let mut queries = Seq::new(alloc);
    let first = read_query(alloc, schema, first, 1)?;
    queries.push(first).map_err(|_| Refusal::Memory)?;
    let second = read_query(alloc, schema, second, 2)?;
    queries.push(second).map_err(|_| Refusal::Memory)?;
    Ok(queries)
}

/// The document of two queries over two sales, of Chicago's at most five lost.
#[tactic(auto, using(pc_model::proofs::FewNames::have_few_names))]
fn document_of(alloc: Global, first: &str, second: &str) -> Result<Document, Refusal> {
    let schema = read_schema(alloc, SHOP.as_bytes())?;
    let rows = read_rows(alloc, &schema, SALES.as_bytes())?;
    let constraints = read_constraints(
        alloc,
        &schema,
        b"c1: branch = Chicago => price in 0.00..149.99, 0..5\n",
    )?;
    let queries = two_queries(alloc, &schema, first, second)?;
    let case = Case {
        schema,
        rows,
        constraints,
        queries,
    };
    Ok(answer_all(alloc, &case, 10_000)?)
}

/// Do two nodes have the same cut and parts, or are both leaves?
fn have_one_cut(a: &CutNode, b: &CutNode) -> bool {
    match (a, b) {
        (CutNode::Leaf { .. }, CutNode::Leaf { .. }) => true,
        (CutNode::Inner { .. }, CutNode::Inner { .. }) => a == b,
        _ => false,
    }
}

fn have_the_same_cuts(a: &[CutNode], b: &[CutNode]) -> bool {
    a.len() == b.len() && a.iter().zip(b).all(|(a, b)| have_one_cut(a, b))
}

/// Is the tree of the second of two blocks that of the first?
fn has_the_tree_before(document: &Document) -> bool {
    match document.blocks.as_slice() {
        [_, second] => matches!(second.tree, BlockTree::Same),
        _ => false,
    }
}

/// Are there two blocks, whose trees are two with the same cuts?
fn has_trees_of_one(document: &Document) -> bool {
    match document.blocks.as_slice() {
        [first, second] => match (&first.tree, &second.tree) {
            (BlockTree::Own(a), BlockTree::Own(b)) => {
                have_the_same_cuts(a.nodes.as_slice(), b.nodes.as_slice())
            }
            _ => false,
        },
        _ => false,
    }
}

#[test]
fn trees_of_two_blocks(rt: HostRuntime) -> Result<(), Fail> {
    let alloc = rt.alloc();
    let same = document_of(alloc, "count", "sum(price)")?;
    assert!(rt; has_the_tree_before(&same));
    let other = document_of(alloc, "count", "sum(price) where day <= 4")?;
    assert!(rt; has_trees_of_one(&other));
    Ok(())
}

/// The document that `prove` writes for these words.
fn proof_for(alloc: Global, words: &[&str]) -> Result<Seq<u8>, Fail> {
    let mut shelf = shelf_failing(alloc, None)?;
    let mut sink = MemSink::new(alloc, 0);
    run_words(alloc, words, &mut shelf, &mut sink)?;
    Ok(sink.kept)
}

#[test]
fn one_tree_for_two_questions(rt: HostRuntime) -> Result<(), Fail> {
    let words = ["prove", "s", "r", "c", "count", "sum(price)"];
    let proof = proof_for(rt.alloc(), &words)?;
    let mut same = 0;
    for line in proof.as_slice().split(|byte| *byte == b'\n') {
        if line == b"tree same".as_slice() && same < 9 {
            same += 1;
        }
    }
    assert_eq!(rt; same, 1);
    Ok(())
}
