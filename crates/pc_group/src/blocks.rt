ghost use Rattle.std.specs.Prelude.{◌≡◌, ◌↔◌, [], IfOk, IsTrue, None, Some};
ghost use Rattle.pc_proof.specs.declared.document.BlockTree.TheVariants as trees;
ghost use Rattle.pc_proof.specs.Documents.{nodes_after};
ghost use Rattle.pc_group.specs.Trees.{IsWrittenAfter};
ghost use Rattle.pc_group.specs.Written.{HasBlock};

use pc_list::Seq;
use pc_model::{CutNode, CutTree, Query};
use pc_num::Memory;
use pc_proof::{Answer, Block, BlockTree};
use std::alloc::Global;

/// The blocks so far, and the nodes of the tree that the last one says.
#[derive(Drop)]
pub(crate) struct Written {
    pub(crate) blocks: Seq<Block>,
    pub(crate) last: Option<Seq<CutNode>>,
}

/// The tree as it is written for a block, and the nodes that it says.
#[derive(Drop)]
struct Said {
    tree: BlockTree,
    nodes: Seq<CutNode>,
}

impl Written {
    /// No blocks.
    pub(crate) fn nothing(alloc: Global) -> Self
        ensures { result ≡ record { blocks = []; last = None } }
    {
        Written {
            blocks: Seq::new(alloc),
            last: None,
        }
    }
}

/// One block more, for a query and a name.
pub(crate) fn with_block(
    written: Written,
    query: &Query,
    name: Option<u32>,
    tree: CutTree,
    answer: Answer,
) -> Result<Written, Memory>
    ensures { IfOk result (HasBlock written query.now name tree.nodes answer) }
{
    let Written { mut blocks, last } = written;
    let (query, said) = asked_after(query, last, tree)?;
    let Said { tree, nodes } = said;
    blocks.push(Block {
        query,
        name,
        tree,
        answer,
    })?;
    Ok(Written {
        blocks,
        last: Some(nodes),
    })
}

/// What a block says before its answer: the query, and the tree where the last one was of other nodes.
fn asked_after(
    query: &Query,
    last: Option<Seq<CutNode>>,
    tree: CutTree,
) -> Result<(Query, Said), Memory>
    ensures query { IfOk result (λ asked. asked.0 ≡ query.now) }
    ensures nodes { IfOk result (λ asked. asked.1.nodes ≡ tree.nodes) }
    ensures says { IfOk result (λ asked. nodes_after last asked.1.tree ≡ Some tree.nodes) }
    ensures own { IfOk result (λ asked. IsWrittenAfter last asked.1.tree) }
{
    let said = said_after(last, tree)?;
    let query = query.clone()?;
    Ok((query, said))
}

/// A tree of the same nodes as the last one is not written again.
fn said_after(last: Option<Seq<CutNode>>, tree: CutTree) -> Result<Said, Memory>
    ensures nodes { IfOk result (λ said. said.nodes ≡ tree.nodes) }
    ensures says { IfOk result (λ said. nodes_after last said.tree ≡ Some tree.nodes) }
    ensures own { IfOk result (λ said. IsWrittenAfter last said.tree) }
{
    let Some(nodes) = last else {
        return own(tree);
    };
    if are_same(nodes.as_slice(), tree.nodes.as_slice()) {
        return Ok(Said {
            tree: BlockTree::Same,
            nodes,
        });
    }
    own(tree)
}

fn own(tree: CutTree) -> Result<Said, Memory>
    ensures { IfOk result (λ said. said ≡ record { tree = trees.Own tree; nodes = tree.nodes }) }
{
    let nodes = Seq::from_slice(tree.nodes.allocator(), tree.nodes.as_slice())?;
    Ok(Said {
        tree: BlockTree::Own(tree),
        nodes,
    })
}

#[tactic(auto, using(crate::proofs::SameNodes::same_nodes))]
fn are_same(nodes: &[CutNode], others: &[CutNode]) -> bool
    ensures { IsTrue result ↔ (nodes.now ≡ others.now) }
{
    nodes == others
}
