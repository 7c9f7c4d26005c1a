ghost use Rattle.std.specs.Prelude.{◌≡◌, ◌∷◌, ◌++◌, [], IfOk, filter, flat_map, fold};
ghost use Rattle.pc_desk_limit.specs.Closing.{HaveOneSchema, boxes_of, closing_boxes, has_room, left_of, named_boxes, opened_boxes, with_box, without};

use crate::copies::{with_copies, with_copy};
use crate::rest::with_rest;
use pc_list::Seq;
use pc_model::{Constraint, Region, When};
use pc_num::Memory;
use std::alloc::Global;

/// The boxes of rows that limits alone would open.
pub(crate) fn closing_boxes(
    alloc: Global,
    constraints: &[Constraint],
    limits: &[Constraint],
) -> Result<Seq<Region>, Memory>
    requires one_schema { HaveOneSchema (named_boxes constraints.now ++ opened_boxes limits.now) }
    ensures closing { IfOk result (λ boxes. boxes ≡ closing_boxes constraints.now limits.now) }
{
    let named = named_boxes(alloc, constraints)?;
    let opened = opened_boxes(alloc, limits)?;
    closed(alloc, named.as_slice(), opened.as_slice())
}

#[tactic(auto, using(crate::proofs::Steps::named_steps))]
fn named_boxes(alloc: Global, constraints: &[Constraint]) -> Result<Seq<Region>, Memory>
    ensures { IfOk result (λ boxes. boxes ≡ named_boxes constraints.now) }
{
    let mut boxes = Seq::new(alloc);
    for constraint in constraints {
        boxes = with_boxes(boxes, &constraint.when)?;
    }
    Ok(boxes)
}

fn with_boxes(boxes: Seq<Region>, when: &When) -> Result<Seq<Region>, Memory>
    ensures { IfOk result (λ more. more ≡ boxes ++ boxes_of when.now) }
{
    match when {
        When::Boxes(area) => with_copies(boxes, area.boxes.as_slice()),
        When::Outside => Ok(boxes),
    }
}

#[tactic(auto, using(crate::proofs::Steps::opened_steps))]
fn opened_boxes(alloc: Global, limits: &[Constraint]) -> Result<Seq<Region>, Memory>
    ensures { IfOk result (λ boxes. boxes ≡ opened_boxes limits.now) }
{
    let mut boxes = Seq::new(alloc);
    for limit in limits {
        boxes = with_opened(boxes, limit)?;
    }
    Ok(boxes)
}

fn with_opened(boxes: Seq<Region>, limit: &Constraint) -> Result<Seq<Region>, Memory>
    ensures opened { IfOk result (λ more. more ≡ boxes ++ opened_boxes (limit.now ∷ [])) }
{
    if limit.most == 0 {
        return Ok(boxes);
    }
    with_boxes(boxes, &limit.when)
}

fn closed(alloc: Global, named: &[Region], opened: &[Region]) -> Result<Seq<Region>, Memory>
    requires one_schema { HaveOneSchema (named.now ++ opened.now) }
    ensures { IfOk result (λ closed. closed ≡ fold (with_box named.now) [] opened.now) }
{
    let mut closed = Seq::new(alloc);
    for region in opened {
        closed = with_box(alloc, named, closed, region)?;
    }
    Ok(closed)
}

fn with_box(
    alloc: Global,
    named: &[Region],
    closed: Seq<Region>,
    region: &Region,
) -> Result<Seq<Region>, Memory>
    requires one_schema { HaveOneSchema (region.now ∷ named.now ++ closed) }
    ensures { IfOk result (λ more. more ≡ with_box named.now closed region.now) }
{
    let left = with_copy(Seq::new(alloc), region)?;
    let left = left_of(alloc, left, named)?;
    let left = left_of(alloc, left, closed.as_slice())?;
    joined(closed, left)
}

fn joined(boxes: Seq<Region>, more: Seq<Region>) -> Result<Seq<Region>, Memory>
    ensures { IfOk result (λ all. all ≡ boxes ++ more) }
{
    let mut all = boxes.into_vec();
    all.append(&mut more.into_vec())?;
    Ok(Seq::from_vec(all))
}

/// What is left of boxes without each of some others.
fn left_of(alloc: Global, boxes: Seq<Region>, others: &[Region]) -> Result<Seq<Region>, Memory>
    requires one_schema { HaveOneSchema (boxes ++ others.now) }
    ensures { IfOk result (λ left. left ≡ left_of boxes others.now) }
{
    let mut left = boxes;
    for other in others {
        left = without(alloc, left.as_slice(), other)?;
    }
    Ok(left)
}

fn without(alloc: Global, boxes: &[Region], other: &Region) -> Result<Seq<Region>, Memory>
    requires one_schema { HaveOneSchema (other.now ∷ boxes.now) }
    ensures { IfOk result (λ left. left ≡ without boxes.now other.now) }
{
    let mut left = Seq::new(alloc);
    for region in boxes {
        left = with_rest(alloc, left, region, other)?;
    }
    Ok(left)
}
