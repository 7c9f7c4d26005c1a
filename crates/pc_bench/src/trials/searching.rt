//! What a search finds, and the tree that proves it.
ghost use Rattle.pc_program_bound.specs.Allocation.{IsProgram};

use crate::search::{search, worth};
use crate::trials::numbers::{counts_text, mult_text, read_number};
use crate::trials::programs::is_lawful;
use crate::trouble::Trouble;
use pc_branch::Outcome;
use pc_list::Seq;
use pc_model::{Tree, TreeNode};
use pc_program_bound::Program;
use std::alloc::{AllocError, Global};

/// What a search of so many nodes comes to.
pub(super) fn searched(alloc: Global, p: &Program, nodes: &str) -> Result<String, Trouble>
    requires { IsProgram p.now }
{
    let outcome = search(alloc, p, read_number(nodes)?)?;
    match &outcome {
        Outcome::Best { counts, value, .. } => best_text(alloc, p, counts.as_slice(), *value),
        Outcome::Nothing { .. } => Ok(String::from_str(alloc, "nothing")?),
        Outcome::Spent { bound, found, .. } => spent_text(alloc, p, found, *bound),
    }
}

fn best_text(alloc: Global, p: &Program, counts: &[u64], value: i128) -> Result<String, Trouble>
    requires { IsProgram p.now }
{
    if is_lawful(p, counts) && worth(p, counts)? == value {
        Ok(format!(in alloc; "best {value}")?)
    } else {
        Ok(format!(in alloc; "best {value} of other counts")?)
    }
}

fn spent_text(
    alloc: Global,
    p: &Program,
    found: &Option<Seq<u64>>,
    bound: i128,
) -> Result<String, Trouble>
    requires { IsProgram p.now }
{
    if is_below(p, found, bound)? {
        Ok(format!(in alloc; "spent {bound}")?)
    } else {
        Ok(format!(in alloc; "spent {bound} beside other counts")?)
    }
}

/// Whether the counts that were found, if any, are allowed and worth less than the bound.
fn is_below(p: &Program, found: &Option<Seq<u64>>, bound: i128) -> Result<bool, Trouble>
    requires { IsProgram p.now }
{
    match found {
        Some(counts) => {
            let counts = counts.as_slice();
            Ok(is_lawful(p, counts) && worth(p, counts)? < bound)
        }
        None => Ok(true),
    }
}

/// The counts that a search found before its nodes were spent.
pub(super) fn found(alloc: Global, p: &Program, nodes: &str) -> Result<String, Trouble>
    requires { IsProgram p.now }
{
    let outcome = search(alloc, p, read_number(nodes)?)?;
    match &outcome {
        Outcome::Spent {
            found: Some(counts),
            ..
        } => {
            let counts = counts_text(alloc, counts.as_slice())?;
            Ok(format!(in alloc; "counts{counts}")?)
        }
        _ => Ok(String::from_str(alloc, "none")?),
    }
}

/// The tree of a search of so many nodes.
pub(super) fn tree_found(alloc: Global, p: &Program, nodes: &str) -> Result<String, Trouble>
    requires { IsProgram p.now }
{
    let outcome = search(alloc, p, read_number(nodes)?)?;
    Ok(tree_text(alloc, tree_of(&outcome))?)
}

fn tree_of(outcome: &Outcome) -> &Tree {
    match outcome {
        Outcome::Best { tree, .. } => tree,
        Outcome::Nothing { tree } => tree,
        Outcome::Spent { tree, .. } => tree,
    }
}

fn tree_text(alloc: Global, tree: &Tree) -> Result<String, AllocError> {
    let mut text = String::new(alloc);
    for node in tree.nodes.as_slice() {
        if !text.is_empty() {
            text.push_str(", ")?;
        }
        let more = node_text(alloc, node)?;
        text.push_str(more.as_str())?;
    }
    Ok(text)
}

fn node_text(alloc: Global, node: &TreeNode) -> Result<String, AllocError> {
    match node {
        TreeNode::Split {
            cell,
            at,
            less,
            more,
        } => format!(in alloc; "split {cell} at {at} to {less} and {more}"),
        TreeNode::Bound { mult } => mult_text(alloc, "bound", mult),
        TreeNode::Void { mult } => mult_text(alloc, "void", mult),
    }
}
