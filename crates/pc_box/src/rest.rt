ghost use Rattle.std.specs.Prelude.{◌≡◌, ◌&&◌, [], ◌∷◌, ◌++◌, not, cond, All, IfOk, count_by, length};
ghost use Rattle.pc_model.specs.Membership.{has};
ghost use Rattle.pc_model.specs.declared.row.Row.{Row};
ghost use Rattle.pc_model.specs.declared.region.Region.{Region};
ghost use Rattle.pc_box.specs.Boxes.{AreAlike};
ghost use Rattle.pc_box.specs.Sides.{box_with, rest_after, rest_of};

use crate::compare::regions_meet;
use crate::sides::{common_side, lower_rest, upper_rest};
use pc_list::Seq;
use pc_model::{Region, Side};
use pc_num::Memory;
use std::alloc::Global;

/// Boxes that together hold the rows of `a` that are not in `b`, each row in one of them.
pub fn minus(alloc: Global, a: &Region, b: &Region) -> Result<Seq<Region>, Memory>
    requires alike { AreAlike a.now b.now }
    ensures rows { IfOk result (λ boxes. (row : Row) → count_by (λ (box : Region). has box row) boxes ≡ cond (has a.now row && not (has b.now row)) 1 0) }
    ensures alike { IfOk result (All (AreAlike a.now)) }
{
    rest_of(alloc, a, b)
}

#[tactic(auto, using(crate::proofs::Likeness::as_many_sides))]
fn rest_of(alloc: Global, a: &Region, b: &Region) -> Result<Seq<Region>, Memory>
    requires alike { AreAlike a.now b.now }
    ensures { IfOk result (λ boxes. boxes ≡ rest_of a.now b.now) }
{
    if !regions_meet(a, b) {
        return only(alloc, a);
    }
    rest_after(alloc, a.sides.as_slice(), b.sides.as_slice())
}

fn only(alloc: Global, a: &Region) -> Result<Seq<Region>, Memory>
    ensures { IfOk result (λ boxes. boxes ≡ a.now ∷ []) }
{
    let sides = Seq::from_slice(alloc, a.sides.as_slice())?;
    let mut boxes = Seq::new(alloc);
    boxes.push(Region { sides })?;
    Ok(boxes)
}

// `front` has what the sides so far have in common with the others.
#[tactic(auto, using(crate::proofs::RestSteps::steps))]
fn rest_after(alloc: Global, sides: &[Side], others: &[Side]) -> Result<Seq<Region>, Memory>
    requires { length sides.now ≡ length others.now }
    ensures { IfOk result (λ boxes. boxes ≡ rest_after [] sides.now others.now) }
{
    let mut boxes = Seq::new(alloc);
    let mut front = Vec::new(alloc);
    for (place, side) in sides.iter().enumerate() {
        let other = &others[place];
        let back = &sides[place + 1..];
        boxes = with_box(
            alloc,
            boxes,
            front.as_slice(),
            lower_rest(side, other),
            back,
        )?;
        boxes = with_box(
            alloc,
            boxes,
            front.as_slice(),
            upper_rest(side, other),
            back,
        )?;
        front.push(common_side(side, other))?;
    }
    Ok(boxes)
}

#[tactic(auto, using(crate::proofs::RestSteps::box_steps), unfolding(crate::specs::Sides::box_with))]
fn with_box(
    alloc: Global,
    boxes: Seq<Region>,
    front: &[Side],
    part: Option<Side>,
    back: &[Side],
) -> Result<Seq<Region>, Memory>
    ensures { IfOk result (λ more. more ≡ boxes ++ box_with front.now part back.now) }
{
    match part {
        None => Ok(boxes),
        Some(side) => {
            let mut boxes = boxes;
            boxes.push(join(alloc, front, side, back)?)?;
            Ok(boxes)
        }
    }
}

#[tactic(auto, using(crate::proofs::RestSteps::box_steps))]
fn join(alloc: Global, front: &[Side], side: Side, back: &[Side]) -> Result<Region, Memory>
    ensures { IfOk result (λ region. region.sides ≡ front.now ++ side ∷ back.now) }
{
    let mut sides = Seq::from_slice(alloc, front)?;
    sides.push(side)?;
    sides.extend_from_slice(back)?;
    Ok(Region { sides })
}
