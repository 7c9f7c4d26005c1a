ghost use Rattle.std.specs.Prelude.{◌≡◌, ◌↔◌, ◌+◌, ◌<◌, ◌^◌, List, IfOk, IfSome, IsTrue};
ghost use Rattle.pc_model.specs.Boxes.{IsAreaOf};
ghost use Rattle.pc_model.specs.declared.tree.CutNode.{CutNode};
ghost use Rattle.pc_model.specs.CutTrees.{IsInPreorder};
ghost use Rattle.pc_proof.specs.Counts.{tree_count};
ghost use Rattle.pc_proof.specs.Documents.{lines_of};
ghost use Rattle.pc_check.specs.declared.premises.Premises.{Premises};
ghost use Rattle.pc_check.specs.Premises.{ArePremises};
ghost use Rattle.pc_check.specs.Blocks.{DivideAlike, HasNodes, IsAskedFinding, IsAskedOver, asked_for, kept_for};

use crate::block_tree::judge_tree;
use crate::premises::Premises;
use crate::same::are_same;
use pc_check_rules::{GatheredCell, Halt, cells_of};
use pc_list::Seq;
use pc_model::{CutNode, Query};
use pc_num::Memory;
use pc_proof::{Block, BlockTree, narrowed};
use std::alloc::Global;

/// The question of a block without its group, over the part of its area that its name keeps, and the cells of its tree.
#[derive(Drop)]
pub(crate) struct Asked {
    pub query: Query,
    pub cells: Seq<GatheredCell>,
}

/// The question of a block without its group.
pub(crate) fn query_for(alloc: Global, block: &Block) -> Result<Query, Memory>
    requires place { IfSome block.now.name (λ place. place < 128) }
    ensures { IfOk result (λ query. query ≡ asked_for block.now) }
{
    let query = &block.query;
    let chosen = narrowed(alloc, &query.chosen, query.group, block.name)?;
    Ok(Query {
        agg: query.agg,
        column: query.column,
        chosen,
        group: None,
    })
}

/// What was kept of the block before, where its tree serves a block too.
pub(crate) fn kept_for(before: Option<Asked>, tree: &BlockTree) -> Option<Asked>
    ensures { result ≡ kept_for before tree.now }
{
    match tree {
        BlockTree::Own(_) => None,
        BlockTree::Same => before,
    }
}

/// The cells of a block's tree for a question. The tree is walked unless they were kept of the block before: then no
/// line of it breaks a rule. `line` is the number of the line that says whose tree it is.
pub(crate) fn asked_after(
    alloc: Global,
    premises: &Premises<'_>,
    query: Query,
    tree: &BlockTree,
    nodes: &[CutNode],
    before: Option<Asked>,
    line: u64,
) -> Result<Asked, Halt>
    requires premises { ArePremises premises.now }
    requires area { IsAreaOf premises.now.schema.now query.chosen }
    requires preorder { IsInPreorder nodes.now }
    requires nodes_are { HasNodes tree.now nodes.now }
    requires before { IfSome before (IsAskedOver premises.now nodes.now) }
    requires few_lines { line + tree_count tree.now < 2 ^ 64 }
    ensures found { IsAskedFinding (lines_of tree.now) line premises.now query.chosen nodes.now result }
    ensures query { IfOk result (λ asked. asked.query ≡ query) }
    ensures over { IfOk result (IsAskedOver premises.now nodes.now) }
{
    match cells_again(before, &query) {
        Some(cells) => Ok(Asked { query, cells }),
        None => divided(alloc, premises, query, tree, nodes, line),
    }
}

/// The cells that were kept, where they serve a question too.
#[tactic(auto, using(crate::proofs::AskedAgain::over_alike))]
fn cells_again(before: Option<Asked>, query: &Query) -> Option<Seq<GatheredCell>>
    ensures { (premises : Premises) (list : List CutNode) → IfSome before (IsAskedOver premises list) → IfSome result (λ cells. IsAskedOver premises list (record { query = query.now; cells = cells })) }
{
    let asked = before?;
    if divide_alike(&asked.query, query) {
        return Some(asked.cells);
    }
    None
}

/// Whether two questions have the same cells over a tree.
fn divide_alike(query: &Query, other: &Query) -> bool
    ensures { IsTrue result ↔ DivideAlike query.now other.now }
{
    query.column == other.column && are_same(&query.chosen, &other.chosen)
}

/// The cells of a block's tree, all lines of which are tried.
fn divided(
    alloc: Global,
    premises: &Premises<'_>,
    query: Query,
    tree: &BlockTree,
    nodes: &[CutNode],
    line: u64,
) -> Result<Asked, Halt>
    requires premises { ArePremises premises.now }
    requires area { IsAreaOf premises.now.schema.now query.chosen }
    requires preorder { IsInPreorder nodes.now }
    requires nodes_are { HasNodes tree.now nodes.now }
    requires few_lines { line + tree_count tree.now < 2 ^ 64 }
    ensures found { IsAskedFinding (lines_of tree.now) line premises.now query.chosen nodes.now result }
    ensures query { IfOk result (λ asked. asked.query ≡ query) }
    ensures over { IfOk result (IsAskedOver premises.now nodes.now) }
{
    let leaves = judge_tree(alloc, premises, &query.chosen, tree, nodes, line)?;
    let cells = cells_of(alloc, leaves.as_slice(), query.column)?;
    Ok(Asked { query, cells })
}
