ghost use Rattle.std.specs.Prelude.{◌≡◌, ◌+◌, ◌<◌, ◌^◌, List, All, IfOk, IfSome, None, Ok, option_copied};
ghost use Rattle.std.specs.List.{AllPass};
ghost use Rattle.pc_model.specs.Accepted.{AreConstraints};
ghost use Rattle.pc_model.specs.CutTrees.{IsInPreorder};
ghost use Rattle.pc_model.specs.Membership.{in_domain};
ghost use Rattle.pc_model.specs.WellFormed.{IsWellFormed};
ghost use Rattle.pc_proof.specs.Counts.{block_count, blocks_count};
ghost use Rattle.pc_proof.specs.declared.document.Block.{Block};
ghost use Rattle.pc_proof.specs.Documents.{AreRight, Premises as Case, nodes_after, premises_of};
ghost use Rattle.pc_proof.specs.Form.{IsFormedBlock, IsInForm};
ghost use Rattle.pc_check.specs.declared.verdict.Verdict.TheVariants.{Yes};
ghost use Rattle.pc_check.specs.Blocks.{FindsIn, HasNodes, IsAskedOver, cleared};
ghost use Rattle.pc_check.specs.Premises.{ArePremises, case_of};
ghost use Rattle.pc_check.specs.Seen.{IsSeenFor};
ghost use Rattle.pc_check.specs.Verdicts.{IsFound, IsVerdictOn};

use crate::asked::{Asked, kept_for};
use crate::block::{allows_name, judge_block};
use crate::line_counts::{block_count, front_lines};
use crate::observed::seen_for;
use crate::premises::Premises;
use crate::verdict::Verdict;
use pc_check_rules::{Halt, NAMES_AND_TREES};
use pc_model::{Constraint, CutNode, Folded, Schema};
use pc_num::Memory;
use pc_proof::{Block, BlockTree, Document};
use pc_rows::Rows;
use std::alloc::Global;

/// Whether a document breaks no rule for a schema, the observed rows and the constraints, or else the first line that
/// breaks one. Lines are those of the document's text, whose first query stands in line 2.
pub fn check(
    alloc: Global,
    schema: &Schema,
    rows: &Rows,
    constraints: &[Constraint],
    doc: &Document,
) -> Result<Verdict, Memory>
    requires well_formed { IsWellFormed schema.now }
    requires observed { AllPass (in_domain schema.now) rows.now }
    requires accepted { AreConstraints schema.now constraints.now }
    requires formed { IsInForm schema.now doc.now }
    requires few_lines { 2 + blocks_count doc.now.blocks < 2 ^ 64 }
    ensures verdict { IfOk result (IsVerdictOn (premises_of schema.now rows.now constraints.now) doc.now.blocks) }
    ensures right { result ≡ Ok Yes → AreRight (premises_of schema.now rows.now constraints.now) doc.now.blocks }
{
    let premises = Premises {
        schema,
        rows,
        constraints,
    };
    verdict_of(judge_blocks(alloc, &premises, doc.blocks.as_slice()))
}

/// The verdict that the blocks of a document come to, where there was memory to try them.
fn verdict_of(found: Result<(), Halt>) -> Result<Verdict, Memory>
    ensures { (case : Case) (blocks : List Block) → IsFound case blocks found → IfOk result (IsVerdictOn case blocks) }
{
    match found {
        Ok(()) => Ok(Verdict::Yes),
        Err(Halt::Broken { line, rule }) => Ok(Verdict::No { line, rule }),
        Err(Halt::Memory) => Err(Memory),
    }
}

/// Tries the blocks of a document.
fn judge_blocks(alloc: Global, premises: &Premises<'_>, blocks: &[Block]) -> Result<(), Halt>
    requires premises { ArePremises premises.now }
    requires formed { All (IsFormedBlock premises.now.schema.now) blocks.now }
    requires few_lines { 2 + blocks_count blocks.now < 2 ^ 64 }
    ensures { IsFound (case_of premises.now) blocks.now result }
{
    let mut line = 2;
    let mut before = None;
    let mut kept = None;
    let mut last = None;
    for block in blocks {
        let nodes = nodes_after(before, &block.tree);
        let over = kept_for(kept, &block.tree);
        let seen = seen_for(alloc, premises, last, block)?;
        let asked = judge_next(alloc, premises, block, nodes, over, &seen.folded, line)?;
        line += block_count(block);
        before = nodes;
        kept = Some(asked);
        last = Some(seen);
    }
    Ok(())
}

/// The nodes of a block's tree: its own, or those of the block before, where there is one.
fn nodes_after<'a>(before: Option<&'a [CutNode]>, tree: &'a BlockTree) -> Option<&'a [CutNode]>
    ensures { option_copied result ≡ nodes_after (option_copied before.entry) tree.now }
{
    match tree {
        BlockTree::Own(tree) => Some(tree.nodes.as_slice()),
        BlockTree::Same => before,
    }
}

/// Tries a block with the nodes of its tree, if there are any.
fn judge_next(
    alloc: Global,
    premises: &Premises<'_>,
    block: &Block,
    nodes: Option<&[CutNode]>,
    before: Option<Asked>,
    seen: &Folded,
    line: u64,
) -> Result<Asked, Halt>
    requires premises { ArePremises premises.now }
    requires formed { IsFormedBlock premises.now.schema.now block.now }
    requires preorder { IfSome (option_copied nodes) IsInPreorder }
    requires nodes_are { IfSome (option_copied nodes) (HasNodes block.now.tree) }
    requires seen { IsSeenFor block.now.query block.now.name premises.now.rows.now seen.now }
    requires before { IfSome (option_copied nodes) (λ list. IfSome before (IsAskedOver premises.now list)) }
    requires few_lines { line + block_count block.now < 2 ^ 64 }
    ensures found { FindsIn (case_of premises.now) line block.now (option_copied nodes.entry) (cleared result) }
    ensures kept { IfSome (option_copied nodes.entry) (λ list. IfOk result (IsAskedOver premises.now list)) }
{
    match nodes {
        None => judge_treeless(block, line),
        Some(nodes) => judge_block(alloc, premises, block, nodes, before, seen, line),
    }
}

/// A block that names the tree of a block before, where there is none, breaks a rule.
fn judge_treeless(block: &Block, line: u64) -> Result<Asked, Halt>
    requires few_lines { line + block_count block.now < 2 ^ 64 }
    ensures { (case : Case) → FindsIn case line block.now None (cleared result) }
{
    if !allows_name(&block.query.chosen, block.query.group, block.name) {
        return Err(Halt::Broken {
            line: line + 1,
            rule: NAMES_AND_TREES,
        });
    }
    Err(Halt::Broken {
        line: line + front_lines(block.name),
        rule: NAMES_AND_TREES,
    })
}
