use crate::answer::Answer;
use pc_list::Seq;
use pc_model::{CutTree, Query};

/// The tree of cuts of a block: its own, or that of the block before it.
#[derive(Debug, PartialEq, Eq, Drop)]
pub enum BlockTree {
    Own(CutTree),
    Same,
}

/// A query, the place of a name of its group column where it is grouped, the tree of its cells, and the answer.
#[derive(Debug, PartialEq, Eq, Drop)]
pub struct Block {
    pub query: Query,
    pub name: Option<u32>,
    pub tree: BlockTree,
    pub answer: Answer,
}

/// Answers with what shows them, block by block.
#[derive(Debug, PartialEq, Eq, Drop)]
pub struct Document {
    pub blocks: Seq<Block>,
}
