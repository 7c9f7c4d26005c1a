ghost use Rattle.std.specs.Prelude.{◌≡◌, ◌+◌, ◌<◌, ◌≤◌, ◌^◌, length, All, IfOk, [], ◌∷◌, ◌↔◌, IsTrue};
ghost use Rattle.pc_model.specs.Accepted.{constraint_limit};
ghost use Rattle.pc_model.specs.Boxes.{IsAreaOf, IsServable};
ghost use Rattle.pc_model.specs.Regions.{whole_region};
ghost use Rattle.pc_model.specs.WellFormed.{IsWellFormed};
ghost use Rattle.pc_model.specs.CutTrees.{IsInPreorder, IsProper};
ghost use Rattle.pc_box.specs.Boxes.{IsBox};
ghost use Rattle.pc_box.specs.Cuts.{Divides};
ghost use Rattle.pc_check_rules.specs.CutLines.{IsComparable};
ghost use Rattle.pc_check_rules.specs.Cuts.{IsCutFinding, IsCutStep, IsGathered, IsCutInTwo, rule_of_cut};

use crate::halt::Halt;
use crate::rules::{CUTS, LEAVES};
use crate::settled::is_settled;
use pc_box::{cut, divides};
use pc_list::Seq;
use pc_model::{Area, Constraint, Cut, CutNode, Leaf, LeafMark, Region, Schema};
use pc_num::Memory;
use std::alloc::Global;

/// The boxes of the nodes that are still to come, the last one next, and the leaves before. Of a tree of n nodes
/// there are at most n of both together, each with a side a column.
#[derive(Drop)]
struct CutWalk {
    parts: Vec<Region>,
    leaves: Seq<Leaf>,
}

/// The leaves of a tree of cuts over the whole domain. `line` is the number of its first line.
pub fn judge_cuts(
    alloc: Global,
    schema: &Schema,
    constraints: &[Constraint],
    area: &Area,
    nodes: &[CutNode],
    line: u64,
) -> Result<Seq<Leaf>, Halt>
    requires well_formed { IsWellFormed schema.now }
    requires few { length constraints.now ≤ constraint_limit }
    requires servable { All (IsServable schema.now) constraints.now }
    requires area { IsAreaOf schema.now area.now }
    requires preorder { IsInPreorder nodes.now }
    requires few_lines { line + length nodes.now < 2 ^ 64 }
    ensures { IsCutFinding line schema.now constraints.now area.now nodes.now result }
{
    let mut walk = at_whole(alloc, schema)?;
    for (place, node) in nodes.iter().enumerate() {
        let Some(part) = walk.parts.pop() else {
            unreachable!();
        };
        let Some(further) = step(alloc, constraints, area, walk, part, node)? else {
            return Err(Halt::Broken {
                line: line + place as u64,
                rule: rule_of(node),
            });
        };
        walk = further;
    }
    Ok(walk.leaves)
}

#[tactic(auto, using(pc_model::proofs::FewNames::have_few_names))]
fn at_whole(alloc: Global, schema: &Schema) -> Result<CutWalk, Memory>
    requires { IsWellFormed schema.now }
    ensures parts { IfOk result (λ walk. walk.parts.items ≡ whole_region schema.now ∷ []) }
    ensures leaves { IfOk result (λ walk. walk.leaves ≡ []) }
{
    let whole = schema.whole(alloc)?;
    let parts = vec![in alloc; whole]?;
    Ok(CutWalk {
        parts,
        leaves: Seq::new(alloc),
    })
}

/// Past a line whose box was taken from the walk, or none where the line breaks its rule.
fn step(
    alloc: Global,
    constraints: &[Constraint],
    area: &Area,
    walk: CutWalk,
    part: Region,
    node: &CutNode,
) -> Result<Option<CutWalk>, Memory>
    requires few { length constraints.now ≤ constraint_limit }
    requires comparable { IsComparable constraints.now area.now part }
    ensures { IfOk result (IsCutStep constraints.now area.now part node.now walk) }
{
    match node {
        CutNode::Inner { cut, .. } => {
            if !is_proper(&part, cut) {
                return Ok(None);
            }
            let walk = cut_in_two(alloc, walk, part, cut)?;
            Ok(Some(walk))
        }
        CutNode::Leaf { mark } => {
            if !is_settled(constraints, area, &part, *mark) {
                return Ok(None);
            }
            let walk = with_leaf(walk, part, *mark)?;
            Ok(Some(walk))
        }
    }
}

/// Whether a cut is of one of the box's columns, and leaves rows in both parts.
fn is_proper(part: &Region, at: &Cut) -> bool
    requires { IsBox part.now }
    ensures proper { IsTrue result ↔ IsProper part.now at.now }
    ensures divides { IsTrue result ↔ Divides part.now at.now }
{
    divides(part, at)
}

fn with_leaf(walk: CutWalk, part: Region, mark: LeafMark) -> Result<CutWalk, Memory>
    ensures { IfOk result (IsGathered part mark walk) }
{
    let CutWalk { parts, mut leaves } = walk;
    leaves.push(Leaf { region: part, mark })?;
    Ok(CutWalk { parts, leaves })
}

/// Before the two parts of a cut, of which the first comes next.
fn cut_in_two(alloc: Global, walk: CutWalk, part: Region, at: &Cut) -> Result<CutWalk, Memory>
    requires filled { IsBox part }
    requires divided { Divides part at.now }
    ensures { IfOk result (IsCutInTwo part at.now walk) }
{
    let halves = cut(alloc, &part, at)?;
    let CutWalk { mut parts, leaves } = walk;
    parts.push(halves.second)?;
    parts.push(halves.first)?;
    Ok(CutWalk { parts, leaves })
}

/// The number of the rule that a line is tried by.
fn rule_of(node: &CutNode) -> u8
    ensures { result ≡ rule_of_cut node.now }
{
    match node {
        CutNode::Inner { .. } => CUTS,
        CutNode::Leaf { .. } => LEAVES,
    }
}
