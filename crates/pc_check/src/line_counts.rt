//! How many lines a block has.
ghost use Rattle.std.specs.Prelude.{◌≡◌, ◌<◌, ◌^◌};
ghost use Rattle.pc_proof.specs.Counts.{block_count, tree_count};
ghost use Rattle.pc_proof.specs.Demands.{ends_lines, front_lines};

use crate::lines::{lack_lines, mark_lines, proof_lines, relation_lines};
use pc_proof::{Block, BlockTree, End};

/// How many lines a block has.
pub(crate) fn block_count(block: &Block) -> u64
    requires { block_count block.now < 2 ^ 64 }
    ensures { result ≡ block_count block.now }
{
    let front = front_lines(block.name) + tree_count(&block.tree);
    let relation = relation_lines(&block.answer.relation);
    let lack = lack_lines(&block.answer.lack);
    front + relation + lack + ends_lines(&block.answer.ends)
}

/// How many lines the query and the name have.
pub(crate) fn front_lines(name: Option<u32>) -> u64
    ensures { result ≡ front_lines name }
{
    match name {
        None => 1,
        Some(_) => 2,
    }
}

/// How many lines say whose tree it is, with those of a tree of its own.
pub(crate) fn tree_count(tree: &BlockTree) -> u64
    requires { tree_count tree.now < 2 ^ 64 }
    ensures { result ≡ tree_count tree.now }
{
    match tree {
        BlockTree::Own(tree) => 1 + tree.nodes.len() as u64,
        BlockTree::Same => 1,
    }
}

fn ends_lines(ends: &Option<(End, End)>) -> u64
    requires { ends_lines ends.now < 2 ^ 64 }
    ensures { result ≡ ends_lines ends.now }
{
    match ends {
        None => 0,
        Some((low, high)) => {
            let below = mark_lines(&low.mark) + proof_lines(&low.proof);
            below + mark_lines(&high.mark) + proof_lines(&high.proof)
        }
    }
}
