ghost use Rattle.std.specs.Prelude.{◌≡◌, ◌≤◌, ◌<◌, ◌∷◌, [], ◌++◌, ℕ, length, All, IfOk};
ghost use Rattle.pc_model.specs.Accepted.{constraint_limit};
ghost use Rattle.pc_model.specs.Regions.{whole_region};
ghost use Rattle.pc_model.specs.WellFormed.{IsWellFormed};
ghost use Rattle.pc_box.specs.Boxes.{IsBox};
ghost use Rattle.pc_box.specs.Cuts.{Divides};
ghost use Rattle.pc_cells_tree.specs.Decisions.{IsComparable};
ghost use Rattle.pc_cells_tree.specs.Linked.{CanBeDivided, IsTree, IsCutOn, AreBoxesOf, box_at, is_leaf_node};
ghost use Rattle.pc_cells_tree.specs.Knowing.{IsKnown, AreKnown, known_at, nothing};
ghost use Rattle.pc_cells_tree.specs.Refining.{IsCuttable, IsRefining, IsStep, boxes_with, nodes_cut, boxes_cut};

use crate::decision::{Decision, decide};
use crate::growth::number;
use crate::known::Known;
use pc_box::{Halves, cut};
use pc_list::Seq;
use pc_model::{Area, Constraint, Cut, CutNode, LeafMark, Region, Schema};
use pc_num::Memory;
use std::alloc::Global;

/// A tree that was cut on, and by how many cuts.
#[derive(Debug, PartialEq, Eq, Drop)]
pub struct Refinement {
    pub nodes: Seq<CutNode>,
    pub cuts: u64,
}

/// The nodes of a tree and their boxes, in one order.
#[derive(Drop)]
struct Boxed {
    nodes: Seq<CutNode>,
    boxes: Seq<Region>,
}

/// Beside them what is known of each box.
#[derive(Drop)]
struct Pass {
    boxed: Boxed,
    known: Seq<Known>,
}

/// The tree with its leaves cut on until each can be marked as settled for the constraints and the area.
/// Leaves are kept without marks.
pub fn refined(
    alloc: Global,
    schema: &Schema,
    constraints: &[Constraint],
    chosen: &Area,
    nodes: &[CutNode],
) -> Result<Refinement, Memory>
    requires asked { CanBeDivided schema.now constraints.now chosen.now }
    requires tree { IsTree schema.now nodes.now }
    ensures { IfOk result (λ more. IsCutOn schema.now constraints.now chosen.now nodes.now more.nodes more.cuts) }
{
    let boxes = boxes_of(alloc, schema, nodes)?;
    let copy = Seq::from_slice(alloc, nodes)?;
    let start = Boxed { nodes: copy, boxes };
    let known = nothing_known(alloc, nodes.len())?;
    let end = settled(alloc, constraints, chosen, start, known)?;
    let cuts = (end.nodes.len() - nodes.len()) as u64 / 2;
    Ok(Refinement {
        nodes: end.nodes,
        cuts,
    })
}

// ---- the boxes of a tree

// Each inner node, in the order of numbers, puts the boxes of its two parts into their places.
fn boxes_of(alloc: Global, schema: &Schema, nodes: &[CutNode]) -> Result<Seq<Region>, Memory>
    requires well_formed { IsWellFormed schema.now }
    requires tree { IsTree schema.now nodes.now }
    ensures { IfOk result (AreBoxesOf (whole_region schema.now) nodes.now) }
{
    let mut boxes = root_alone(alloc, schema, nodes.len())?;
    for place in 0..nodes.len() {
        boxes = with_parts(alloc, boxes, place, &nodes[place])?;
    }
    Ok(boxes)
}

// The whole domain for the root, and for the other nodes places to be filled.
fn root_alone(alloc: Global, schema: &Schema, count: usize) -> Result<Seq<Region>, Memory>
    requires well_formed { IsWellFormed schema.now }
    requires some { 0 < count }
    ensures long { IfOk result (λ boxes. length boxes ≡ count) }
    ensures root { IfOk result (λ boxes. box_at boxes 0 ≡ whole_region schema.now) }
{
    let mut boxes = Seq::new(alloc);
    boxes.push(schema.whole(alloc)?)?;
    for _ in 1..count {
        boxes.push(Region {
            sides: Seq::new(alloc),
        })?;
    }
    Ok(boxes)
}

fn with_parts(
    alloc: Global,
    boxes: Seq<Region>,
    place: usize,
    node: &CutNode,
) -> Result<Seq<Region>, Memory>
    requires there { place < length boxes }
    requires cuttable { IsCuttable (box_at boxes place) (length boxes) node.now }
    ensures { IfOk result (λ more. more ≡ boxes_with boxes place node.now) }
{
    match *node {
        CutNode::Leaf { .. } => Ok(boxes),
        CutNode::Inner {
            cut: at,
            first,
            second,
        } => {
            let halves = cut(alloc, &boxes.as_slice()[place], &at)?;
            let mut boxes = boxes.into_vec();
            boxes[first as usize] = halves.first;
            boxes[second as usize] = halves.second;
            Ok(Seq::from_vec(boxes))
        }
    }
}

// ---- cutting on

// Of the boxes of a tree that was there nothing is known.
#[tactic(auto, using(crate::proofs::Knowing::nothings))]
fn nothing_known(alloc: Global, count: usize) -> Result<Seq<Known>, Memory>
    ensures long { IfOk result (λ known. length known ≡ count) }
    ensures nothing { IfOk result (λ known. (k : ℕ) → known_at known k ≡ nothing) }
{
    let mut known = Seq::new(alloc);
    for _ in 0..count {
        known.push(Known::nothing())?;
    }
    Ok(known)
}

// New leaves stand at the end of the list, so that the pass comes to them too.
fn settled(
    alloc: Global,
    constraints: &[Constraint],
    chosen: &Area,
    start: Boxed,
    known: Seq<Known>,
) -> Result<Boxed, Memory>
    requires few { length constraints.now ≤ constraint_limit }
    requires comparable { All (IsComparable constraints.now chosen.now) start.boxes }
    requires known { AreKnown constraints.now start.boxes known }
    requires tree { AreBoxesOf (box_at start.boxes 0) start.nodes start.boxes }
    ensures { IfOk result (λ end. IsRefining constraints.now chosen.now start end (length end.nodes)) }
{
    let boxed = start;
    let mut pass = Pass { boxed, known };
    let mut place = 0;
    while place < pass.boxed.nodes.len() {
        pass = settled_at(alloc, constraints, chosen, pass, place)?;
        place += 1;
    }
    Ok(pass.boxed)
}

#[inline(always)]
fn settled_at(
    alloc: Global,
    constraints: &[Constraint],
    chosen: &Area,
    pass: Pass,
    place: usize,
) -> Result<Pass, Memory>
    requires few { length constraints.now ≤ constraint_limit }
    requires comparable { All (IsComparable constraints.now chosen.now) pass.boxed.boxes }
    requires filled { All IsBox pass.boxed.boxes }
    requires long { length pass.boxed.boxes ≡ length pass.boxed.nodes }
    requires known { AreKnown constraints.now pass.boxed.boxes pass.known }
    requires there { place < length pass.boxed.nodes }
    ensures step { IfOk result (λ after. IsStep constraints.now chosen.now place pass.boxed after.boxed) }
    ensures known { IfOk result (λ after. AreKnown constraints.now after.boxed.boxes after.known) }
{
    if !is_leaf(&pass.boxed.nodes.as_slice()[place]) {
        return Ok(pass);
    }
    let known = pass.known.as_slice()[place];
    match decide(
        &pass.boxed.boxes.as_slice()[place],
        constraints,
        chosen,
        known,
    ) {
        Decision::Settled(_) => Ok(pass),
        Decision::Divided { at, known } => pass.with_cut(alloc, place, at, known),
    }
}

#[inline(always)]
fn is_leaf(node: &CutNode) -> bool
    ensures { result ≡ is_leaf_node node.now }
{
    match node {
        CutNode::Leaf { .. } => true,
        CutNode::Inner { .. } => false,
    }
}

impl Pass {
    // With a cut at a leaf, of whose parts as much is known.
    #[inline(always)]
    fn with_cut(self, alloc: Global, place: usize, at: Cut, of_parts: Known) -> Result<Pass, Memory>
        requires there { place < length self.boxed.nodes }
        requires long { length self.boxed.boxes ≡ length self.boxed.nodes }
        requires filled { IsBox (box_at self.boxed.boxes place) }
        requires divided { Divides (box_at self.boxed.boxes place) at }
        ensures { IfOk result (λ after. (after.boxed.nodes ≡ nodes_cut self.boxed.nodes place at) × (after.boxed.boxes ≡ boxes_cut self.boxed.boxes place at) × (after.known ≡ self.known ++ of_parts ∷ of_parts ∷ [])) }
    {
        let Pass { boxed, mut known } = self;
        let boxed = boxed.with_cut(alloc, place, at)?;
        known.push(of_parts)?;
        known.push(of_parts)?;
        Ok(Pass { boxed, known })
    }
}

impl Boxed {
    // With a cut at a leaf, whose two parts are leaves at the end.
    #[inline(always)]
    fn with_cut(self, alloc: Global, place: usize, at: Cut) -> Result<Boxed, Memory>
        requires there { place < length self.nodes }
        requires long { length self.boxes ≡ length self.nodes }
        requires filled { IsBox (box_at self.boxes place) }
        requires divided { Divides (box_at self.boxes place) at }
        ensures nodes { IfOk result (λ after. after.nodes ≡ nodes_cut self.nodes place at) }
        ensures boxes { IfOk result (λ after. after.boxes ≡ boxes_cut self.boxes place at) }
    {
        let Boxed { nodes, boxes } = self;
        let boxes = boxes_cut(alloc, boxes, place, &at)?;
        let nodes = nodes_cut(nodes, place, at)?;
        Ok(Boxed { nodes, boxes })
    }
}

#[inline(always)]
fn boxes_cut(
    alloc: Global,
    mut boxes: Seq<Region>,
    place: usize,
    at: &Cut,
) -> Result<Seq<Region>, Memory>
    requires there { place < length boxes }
    requires filled { IsBox (box_at boxes place) }
    requires divided { Divides (box_at boxes place) at.now }
    ensures { IfOk result (λ after. after ≡ boxes_cut boxes place at.now) }
{
    let Halves { first, second } = cut(alloc, &boxes.as_slice()[place], at)?;
    boxes.push(first)?;
    boxes.push(second)?;
    Ok(boxes)
}

#[inline(always)]
fn nodes_cut(nodes: Seq<CutNode>, place: usize, cut: Cut) -> Result<Seq<CutNode>, Memory>
    requires there { place < length nodes }
    ensures { IfOk result (λ after. after ≡ nodes_cut nodes place cut) }
{
    let first = number(nodes.len())?;
    let second = number(nodes.len() + 1)?;
    let mut nodes = nodes.into_vec();
    nodes[place] = CutNode::Inner { cut, first, second };
    let mut nodes = Seq::from_vec(nodes);
    let mark = LeafMark::Barren;
    nodes.push(CutNode::Leaf { mark })?;
    nodes.push(CutNode::Leaf { mark })?;
    Ok(nodes)
}
