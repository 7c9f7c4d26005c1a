ghost use Rattle.std.specs.Prelude.{◌≡◌, ◌↔◌, ◌+◌, ◌<◌, ◌^◌, IfOk, IfSome, IsTrue, Some};
ghost use Rattle.pc_model.specs.CutTrees.{IsInPreorder};
ghost use Rattle.pc_proof.specs.Counts.{block_count};
ghost use Rattle.pc_proof.specs.Form.{IsFormedBlock};
ghost use Rattle.pc_proof.specs.Unbroken.{AllowsName};
ghost use Rattle.pc_check.specs.Premises.{ArePremises, case_of};
ghost use Rattle.pc_check.specs.Blocks.{FindsIn, HasNodes, IsAskedOver, KeepsOver, asked_for, cleared};
ghost use Rattle.pc_check.specs.Seen.{IsSeenFor};
ghost use Rattle.pc_check.specs.Verdicts.{answer_count};

use crate::answers::judge_answer;
use crate::asked::{Asked, asked_after, query_for};
use crate::line_counts::{front_lines, tree_count};
use crate::matter::Matter;
use crate::premises::Premises;
use pc_check_rules::{Halt, NAMES_AND_TREES, Scene};
use pc_model::{Area, CutNode, Folded};
use pc_proof::{Block, some_allows};
use std::alloc::Global;

/// Tries a block, and gives what the next one may use. `nodes` are those of the tree that it names, `before` is what was
/// kept over them, `seen` what the observed rows come to for its question, and `line` the number of the line of its query.
pub(crate) fn judge_block(
    alloc: Global,
    premises: &Premises<'_>,
    block: &Block,
    nodes: &[CutNode],
    before: Option<Asked>,
    seen: &Folded,
    line: u64,
) -> Result<Asked, Halt>
    requires premises { ArePremises premises.now }
    requires formed { IsFormedBlock premises.now.schema.now block.now }
    requires preorder { IsInPreorder nodes.now }
    requires nodes_are { HasNodes block.now.tree nodes.now }
    requires seen { IsSeenFor block.now.query block.now.name premises.now.rows.now seen.now }
    requires before { IfSome before (IsAskedOver premises.now nodes.now) }
    requires few_lines { line + block_count block.now < 2 ^ 64 }
    ensures found { FindsIn (case_of premises.now) line block.now (Some nodes.now) (cleared result) }
    ensures kept { IfOk result (IsAskedOver premises.now nodes.now) }
{
    if !allows_name(&block.query.chosen, block.query.group, block.name) {
        return Err(Halt::Broken {
            line: line + 1,
            rule: NAMES_AND_TREES,
        });
    }
    judge_allowed(alloc, premises, block, nodes, before, seen, line)
}

/// Whether some box of an area allows a name of its group column; where there is none, every area does.
pub(crate) fn allows_name(chosen: &Area, group: Option<u8>, name: Option<u32>) -> bool
    ensures { IsTrue result ↔ AllowsName chosen.now group name }
{
    let Some(column) = group else {
        return true;
    };
    let Some(place) = name else {
        return true;
    };
    some_allows(column, place, chosen)
}

/// Tries a block whose name is allowed.
fn judge_allowed(
    alloc: Global,
    premises: &Premises<'_>,
    block: &Block,
    nodes: &[CutNode],
    before: Option<Asked>,
    seen: &Folded,
    line: u64,
) -> Result<Asked, Halt>
    requires premises { ArePremises premises.now }
    requires formed { IsFormedBlock premises.now.schema.now block.now }
    requires preorder { IsInPreorder nodes.now }
    requires nodes_are { HasNodes block.now.tree nodes.now }
    requires before { IfSome before (IsAskedOver premises.now nodes.now) }
    requires seen { IsSeenFor block.now.query block.now.name premises.now.rows.now seen.now }
    requires few_lines { line + block_count block.now < 2 ^ 64 }
    requires allowed { AllowsName block.now.query.chosen block.now.query.group block.now.name }
    ensures found { FindsIn (case_of premises.now) line block.now (Some nodes.now) (cleared result) }
    ensures kept { IfOk result (IsAskedOver premises.now nodes.now) }
{
    let query = query_for(alloc, block)?;
    let tree_line = line + front_lines(block.name);
    let asked = asked_after(
        alloc,
        premises,
        query,
        &block.tree,
        nodes,
        before,
        tree_line,
    )?;
    let line = tree_line + tree_count(&block.tree);
    judge_asked(alloc, premises, block, &asked, seen, line)?;
    Ok(asked)
}

/// Tries the answer of a block whose tree breaks no rule. `line` is the number of the line of the relation.
fn judge_asked(
    alloc: Global,
    premises: &Premises<'_>,
    block: &Block,
    asked: &Asked,
    seen: &Folded,
    line: u64,
) -> Result<(), Halt>
    requires premises { ArePremises premises.now }
    requires formed { IsFormedBlock premises.now.schema.now block.now }
    requires query { asked.now.query ≡ asked_for block.now }
    requires seen { IsSeenFor block.now.query block.now.name premises.now.rows.now seen.now }
    requires few_lines { line + answer_count block.now.answer < 2 ^ 64 }
    requires allowed { AllowsName block.now.query.chosen block.now.query.group block.now.name }
    ensures { KeepsOver (case_of premises.now) line block.now asked.now.cells result }
{
    let scene = Scene {
        constraints: premises.constraints,
        cells: asked.cells.as_slice(),
        agg: block.query.agg,
        seen: *seen,
    };
    let matter = Matter {
        schema: premises.schema,
        asked: &asked.query,
        scene,
    };
    judge_answer(alloc, &matter, line, &block.answer)
}
