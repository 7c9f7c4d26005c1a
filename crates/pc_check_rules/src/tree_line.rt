ghost use Rattle.std.specs.Prelude.{◌≡◌, ◌≤ℤ◌, pos, All};
ghost use Rattle.pc_num.specs.Signs.{Fits};
ghost use Rattle.pc_program_bound.specs.Allocation.{IsProgram, IsBox};
ghost use Rattle.pc_program_bound.specs.Bound.{without_gain};
ghost use Rattle.pc_proof.specs.Form.{IsFormedNode};
ghost use Rattle.pc_check_rules.specs.Lines.{IsFinding, IsBoundFinding, IsVoidFinding, IsSplitFinding};

use pc_list::Seq;
use pc_model::{Mult, TreeNode};
use pc_program_bound::{Program, dual_bound};

/// The box of a node of a search tree: the least and the greatest count of each cell.
#[derive(Debug, Drop)]
pub(crate) struct Corner {
    pub floors: Seq<u64>,
    pub caps: Seq<u64>,
}

/// What a line of a search tree is: one that breaks its rule, a leaf that shows its bound (none where it is void),
/// or a split into two boxes.
#[derive(Clone, Copy, Debug, PartialEq, Eq)]
pub(crate) enum Finding {
    Broken,
    Sound(Option<i128>),
    Splits,
}

/// What a line is over the box of its node. A void leaf is tried with `plain`, the program without gain.
pub(crate) fn judge_line(
    program: &Program,
    plain: &Program,
    corner: &Corner,
    node: &TreeNode,
) -> Finding
    requires program { IsProgram program.now }
    requires plain { plain.now ≡ without_gain program.now }
    requires corner { IsBox program.now corner.now.floors corner.now.caps }
    requires formed { IsFormedNode node.now }
    ensures { IsFinding program.now corner.now node.now result }
{
    match node {
        TreeNode::Split { cell, at, .. } => judge_split(program, corner, *cell, *at),
        TreeNode::Bound { mult } => judge_bound(program, corner, mult),
        TreeNode::Void { mult } => judge_void(program, plain, corner, mult),
    }
}

fn judge_split(program: &Program, corner: &Corner, cell: u32, at: u64) -> Finding
    requires { IsBox program.now corner.now.floors corner.now.caps }
    ensures { IsSplitFinding program.now corner.now cell at result }
{
    let place = cell as usize;
    if place >= program.masks.len() {
        return Finding::Broken;
    }
    if at < corner.floors.as_slice()[place] {
        return Finding::Broken;
    }
    if at >= corner.caps.as_slice()[place] {
        return Finding::Broken;
    }
    Finding::Splits
}

fn judge_bound(program: &Program, corner: &Corner, mult: &Mult) -> Finding
    requires program { IsProgram program.now }
    requires corner { IsBox program.now corner.now.floors corner.now.caps }
    requires positive { pos 1 ≤ℤ mult.now.den }
    requires fits { All Fits mult.now.by }
    ensures { IsBoundFinding program.now corner.now mult.now result }
{
    if mult.by.len() != program.least.len() {
        return Finding::Broken;
    }
    match dual_bound(
        program,
        corner.floors.as_slice(),
        corner.caps.as_slice(),
        mult,
    ) {
        Some(bound) => Finding::Sound(Some(bound)),
        None => Finding::Broken,
    }
}

fn judge_void(program: &Program, plain: &Program, corner: &Corner, mult: &Mult) -> Finding
    requires program { IsProgram program.now }
    requires plain { plain.now ≡ without_gain program.now }
    requires corner { IsBox program.now corner.now.floors corner.now.caps }
    requires whole { mult.now.den ≡ pos 1 }
    requires fits { All Fits mult.now.by }
    ensures { IsVoidFinding program.now corner.now mult.now result }
{
    if mult.by.len() != program.least.len() {
        return Finding::Broken;
    }
    let Some(bound) = dual_bound(
        plain,
        corner.floors.as_slice(),
        corner.caps.as_slice(),
        mult,
    ) else {
        return Finding::Broken;
    };
    if bound < 0 {
        return Finding::Sound(None);
    }
    Finding::Broken
}
