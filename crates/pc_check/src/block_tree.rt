ghost use Rattle.std.specs.Prelude.{◌≡◌, ◌+◌, ◌<◌, ◌^◌, length};
ghost use Rattle.pc_model.specs.Boxes.{IsAreaOf};
ghost use Rattle.pc_model.specs.CutTrees.{IsInPreorder};
ghost use Rattle.pc_proof.specs.Counts.{tree_count};
ghost use Rattle.pc_proof.specs.Demands.{own, same};
ghost use Rattle.pc_proof.specs.Documents.{lines_of};
ghost use Rattle.pc_check.specs.Premises.{ArePremises};
ghost use Rattle.pc_check.specs.Blocks.{HasNodes, IsTreeFinding, moved_to};

use crate::premises::Premises;
use pc_check_rules::{Halt, judge_cuts};
use pc_list::Seq;
use pc_model::{Area, CutNode, Leaf};
use pc_proof::BlockTree;
use std::alloc::Global;

/// The leaves of a block's tree. `line` is the number of the line that says whose tree it is, which stands for every
/// line of the tree of the block before.
pub(crate) fn judge_tree(
    alloc: Global,
    premises: &Premises<'_>,
    area: &Area,
    tree: &BlockTree,
    nodes: &[CutNode],
    line: u64,
) -> Result<Seq<Leaf>, Halt>
    requires premises { ArePremises premises.now }
    requires area { IsAreaOf premises.now.schema.now area.now }
    requires preorder { IsInPreorder nodes.now }
    requires nodes_are { HasNodes tree.now nodes.now }
    requires few_lines { line + tree_count tree.now < 2 ^ 64 }
    ensures { IsTreeFinding (lines_of tree.now) line premises.now area.now nodes.now result }
{
    match tree {
        BlockTree::Own(_) => judge_own(alloc, premises, area, nodes, line),
        BlockTree::Same => judge_same(alloc, premises, area, nodes, line),
    }
}

fn judge_own(
    alloc: Global,
    premises: &Premises<'_>,
    area: &Area,
    nodes: &[CutNode],
    line: u64,
) -> Result<Seq<Leaf>, Halt>
    requires premises { ArePremises premises.now }
    requires area { IsAreaOf premises.now.schema.now area.now }
    requires preorder { IsInPreorder nodes.now }
    requires few_lines { line + (1 + length nodes.now) < 2 ^ 64 }
    ensures { IsTreeFinding own line premises.now area.now nodes.now result }
{
    let (schema, constraints) = (premises.schema, premises.constraints);
    judge_cuts(alloc, schema, constraints, area, nodes, line + 1)
}

fn judge_same(
    alloc: Global,
    premises: &Premises<'_>,
    area: &Area,
    nodes: &[CutNode],
    line: u64,
) -> Result<Seq<Leaf>, Halt>
    requires premises { ArePremises premises.now }
    requires area { IsAreaOf premises.now.schema.now area.now }
    requires preorder { IsInPreorder nodes.now }
    ensures { IsTreeFinding same line premises.now area.now nodes.now result }
{
    let (schema, constraints) = (premises.schema, premises.constraints);
    match judge_cuts(alloc, schema, constraints, area, nodes, 0) {
        Ok(leaves) => Ok(leaves),
        Err(halt) => Err(moved_to(line, halt)),
    }
}

/// What is broken in any line, as broken in this one.
fn moved_to(line: u64, halt: Halt) -> Halt
    ensures { result ≡ moved_to line halt }
{
    match halt {
        Halt::Broken { line: _, rule } => Halt::Broken { line, rule },
        Halt::Memory => Halt::Memory,
    }
}
