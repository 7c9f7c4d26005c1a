//! The bound of a tree that is given: its nodes are tested to be a tree in preorder that proves its bound.
ghost use Rattle.std.specs.Prelude.{◌≡◌, ◌<◌, length, All, IsTrue, IfOk, OnOk, slice_set};
ghost use Rattle.pc_program_bound.specs.Allocation.{IsProgram, IsBox};
ghost use Rattle.pc_program_bound.specs.Bound.{IsMultiplier, IsVoid, without_gain};
ghost use Rattle.pc_program_bound.specs.SplitTrees.{IsInPreorder, Proves, tree_of};
ghost use Rattle.pc_program_bound.specs.Walk.{HasFitNumbers};
ghost use Rattle.pc_bench.specs.ShownWalks.{IsShown, IsBelowZero};

use crate::reading::{number, skip};
use crate::trials::numbers::read_mult;
use crate::trouble::Trouble;
use pc_list::Seq;
use pc_model::{Mult, Tree, TreeNode};
use pc_num::are_fit;
use pc_program_bound::{Program, dual_bound, is_box, tree_bound};
use std::alloc::{AllocError, Global};

/// The bound of the tree that is spelled as the tree of a search is told.
pub(super) fn walked(alloc: Global, p: &Program, rest: &str) -> Result<String, Trouble>
    requires { IsProgram p.now }
{
    let tree = read_tree(alloc, rest)?;
    check(alloc, p, &tree)?;
    match tree_bound(alloc, p, &tree)? {
        Some(bound) => Ok(format!(in alloc; "{bound}")?),
        None => Ok(String::from_str(alloc, "void")?),
    }
}

fn read_tree(alloc: Global, text: &str) -> Result<Tree, Trouble> {
    let mut nodes = Seq::new(alloc);
    for node in text.split(", ") {
        nodes.push(read_node(alloc, node)?)?;
    }
    Ok(Tree { nodes })
}

fn read_node(alloc: Global, text: &str) -> Result<TreeNode, Trouble> {
    let (what, rest) = text.split_once(' ').ok_or(Trouble::Question)?;
    match what {
        "split" => read_split(rest),
        "bound" => Ok(TreeNode::Bound {
            mult: read_mult(alloc, rest)?,
        }),
        "void" => Ok(TreeNode::Void {
            mult: read_mult(alloc, rest)?,
        }),
        _ => Err(Trouble::Question),
    }
}

/// `CELL at NUMBER to PLACE and PLACE`.
fn read_split(text: &str) -> Result<TreeNode, Trouble> {
    let mut words = text.split_ascii_whitespace();
    let cell = number(&mut words)?;
    skip(&mut words, "at")?;
    let at = number(&mut words)?;
    skip(&mut words, "to")?;
    let less = number(&mut words)?;
    skip(&mut words, "and")?;
    let more = number(&mut words)?;
    Ok(TreeNode::Split {
        cell,
        at,
        less,
        more,
    })
}

// ---- what a walk asks of a tree

fn is_multiplier(p: &Program, floors: &[u64], caps: &[u64], mult: &Mult) -> bool
    requires program { IsProgram p.now }
    requires inside { IsBox p.now floors.now caps.now }
    ensures { IsTrue result → IsMultiplier p.now mult.now }
{
    if mult.by.len() != p.least.len() || mult.den < 1 || !are_fit(mult.by.as_slice()) {
        return false;
    }
    dual_bound(p, floors, caps, mult).is_some()
}

fn without_gain(alloc: Global, p: &Program) -> Result<Program, AllocError>
    ensures { IfOk result (λ plain. plain ≡ without_gain p.now) }
{
    let gain = vec![in alloc; 0i128; p.masks.len()]?;
    Ok(Program {
        masks: p.masks.clone()?,
        least: p.least.clone()?,
        most: p.most.clone()?,
        floor: p.floor.clone()?,
        cap: p.cap.clone()?,
        gain: Seq::from_vec(gain),
    })
}

fn is_below_zero(p: &Program, floors: &[u64], caps: &[u64], mult: &Mult) -> bool
    requires program { IsProgram p.now }
    requires inside { IsBox p.now floors.now caps.now }
    ensures { IsTrue result → IsBelowZero p.now floors.now caps.now mult.now }
{
    if mult.by.len() != p.least.len() || mult.den != 1 || !are_fit(mult.by.as_slice()) {
        return false;
    }
    match dual_bound(p, floors, caps, mult) {
        Some(bound) => bound < 0,
        None => false,
    }
}

fn is_void(
    alloc: Global,
    p: &Program,
    floors: &[u64],
    caps: &[u64],
    mult: &Mult,
) -> Result<bool, AllocError>
    requires program { IsProgram p.now }
    requires inside { IsBox p.now floors.now caps.now }
    ensures { IfOk result (λ void. IsTrue void → IsVoid p.now floors.now caps.now mult.now) }
{
    let plain = without_gain(alloc, p)?;
    Ok(is_below_zero(&plain, floors, caps, mult))
}

fn with_number(
    alloc: Global,
    numbers: &[u64],
    place: usize,
    number: u64,
) -> Result<Vec<u64>, AllocError>
    requires { place < length numbers.now }
    ensures { IfOk result (λ v. v.items ≡ slice_set numbers.now place number) }
{
    let mut copy = Vec::from_slice(alloc, numbers)?;
    copy[place] = number;
    Ok(copy)
}

fn ended(is_shown: bool, end: usize) -> Result<usize, Trouble>
    ensures { IfOk result (λ e. IsTrue is_shown × (e ≡ end)) }
{
    if is_shown {
        Ok(end)
    } else {
        Err(Trouble::Question)
    }
}

/// The end of the tree that stands at a place and proves its bound over a box.
fn end_of(
    alloc: Global,
    p: &Program,
    floors: &[u64],
    caps: &[u64],
    nodes: &[TreeNode],
    place: usize,
) -> Result<usize, Trouble>
    requires { IsProgram p.now }
    ensures { IfOk result (IsShown p.now floors.now caps.now nodes.now place) }
{
    if place >= nodes.len() || !is_box(p, floors, caps) {
        return Err(Trouble::Question);
    }
    match &nodes[place] {
        TreeNode::Bound { mult } => ended(is_multiplier(p, floors, caps, mult), place + 1),
        TreeNode::Void { mult } => ended(is_void(alloc, p, floors, caps, mult)?, place + 1),
        TreeNode::Split {
            cell,
            at,
            less,
            more,
        } => {
            let cell = *cell as usize;
            if cell >= floors.len() || floors[cell] > *at || *at >= caps[cell] {
                return Err(Trouble::Question);
            }
            let less_caps = with_number(alloc, caps, cell, *at)?;
            let middle = end_of(alloc, p, floors, less_caps.as_slice(), nodes, place + 1)?;
            if *less as usize != place + 1 || *more as usize != middle {
                return Err(Trouble::Question);
            }
            let more_floors = with_number(alloc, floors, cell, *at + 1)?;
            end_of(alloc, p, more_floors.as_slice(), caps, nodes, middle)
        }
    }
}

fn has_fit_numbers(node: &TreeNode) -> bool
    ensures { IsTrue result → HasFitNumbers node.now }
{
    match node {
        TreeNode::Bound { mult } => are_fit(mult.by.as_slice()),
        _ => true,
    }
}

fn have_fit_numbers(nodes: &[TreeNode]) -> bool
    ensures { IsTrue result → All HasFitNumbers nodes.now }
{
    for node in nodes {
        if !has_fit_numbers(node) {
            return false;
        }
    }
    true
}

fn check(alloc: Global, p: &Program, tree: &Tree) -> Result<(), Trouble>
    requires { IsProgram p.now }
    ensures fits { OnOk result (All HasFitNumbers tree.now.nodes) }
    ensures preorder { OnOk result (IsInPreorder tree.now.nodes) }
    ensures proves { OnOk result (Proves p.now p.now.floor p.now.cap (tree_of tree.now.nodes)) }
{
    let nodes = tree.nodes.as_slice();
    if !have_fit_numbers(nodes) {
        return Err(Trouble::Question);
    }
    let end = end_of(alloc, p, p.floor.as_slice(), p.cap.as_slice(), nodes, 0)?;
    if end != nodes.len() {
        return Err(Trouble::Question);
    }
    Ok(())
}
