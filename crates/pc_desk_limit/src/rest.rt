ghost use Rattle.std.specs.Prelude.{◌≡◌, ◌∷◌, ◌++◌, [], IfOk, length};
ghost use Rattle.pc_model.specs.Regions.{set_unless_empty};
ghost use Rattle.pc_box.specs.Boxes.{AreAlike};
ghost use Rattle.pc_box.specs.Sides.{box_with, common_side, lower_rest, rest_after, rest_of, span_above, span_below, upper_rest};

use crate::copies::with_copy;
use pc_box::apart;
use pc_list::Seq;
use pc_model::{Region, Side};
use pc_num::Memory;
use std::alloc::Global;

/// Adds what is left of a box without another, in just these boxes: how many they are decides how many lines are written.
pub(crate) fn with_rest(
    alloc: Global,
    boxes: Seq<Region>,
    a: &Region,
    b: &Region,
) -> Result<Seq<Region>, Memory>
    requires alike { AreAlike a.now b.now }
    ensures { IfOk result (λ more. more ≡ boxes ++ rest_of a.now b.now) }
{
    if apart(a, b) {
        return with_copy(boxes, a);
    }
    with_rest_after(alloc, boxes, a.sides.as_slice(), b.sides.as_slice())
}

// `front` has what the sides so far have in common with the others.
#[tactic(auto, using(pc_box::proofs::RestSteps::steps))]
fn with_rest_after(
    alloc: Global,
    boxes: Seq<Region>,
    sides: &[Side],
    others: &[Side],
) -> Result<Seq<Region>, Memory>
    requires { length sides.now ≡ length others.now }
    ensures { IfOk result (λ more. more ≡ boxes ++ rest_after [] sides.now others.now) }
{
    let mut boxes = boxes;
    let mut front = Vec::new(alloc);
    for (place, side) in sides.iter().enumerate() {
        let other = &others[place];
        let back = &sides[place + 1..];
        boxes = with_part(
            alloc,
            boxes,
            front.as_slice(),
            lower_rest(side, other),
            back,
        )?;
        boxes = with_part(
            alloc,
            boxes,
            front.as_slice(),
            upper_rest(side, other),
            back,
        )?;
        front.push(common_side(side, other))?;
    }
    Ok(boxes)
}

#[tactic(auto, using(pc_box::proofs::RestSteps::box_steps), unfolding(pc_box::specs::Sides::box_with))]
fn with_part(
    alloc: Global,
    boxes: Seq<Region>,
    front: &[Side],
    part: Option<Side>,
    back: &[Side],
) -> Result<Seq<Region>, Memory>
    ensures { IfOk result (λ more. more ≡ boxes ++ box_with front.now part back.now) }
{
    match part {
        None => Ok(boxes),
        Some(side) => {
            let mut boxes = boxes;
            boxes.push(join(alloc, front, side, back)?)?;
            Ok(boxes)
        }
    }
}

#[tactic(auto, using(pc_box::proofs::RestSteps::box_steps))]
fn join(alloc: Global, front: &[Side], side: Side, back: &[Side]) -> Result<Region, Memory>
    ensures { IfOk result (λ region. region.sides ≡ front.now ++ side ∷ back.now) }
{
    let mut sides = Seq::from_slice(alloc, front)?;
    sides.push(side)?;
    sides.extend_from_slice(back)?;
    Ok(Region { sides })
}

// What two sides that meet have in common.
fn common_side(side: &Side, other: &Side) -> Side
    ensures { result ≡ common_side side.now other.now }
{
    side.meet(*other).unwrap_or(*side)
}

// What of a side lies below another that it meets, and of a set what is not in the other.
#[tactic(auto, unfolding(pc_box::specs::Sides::lower_rest))]
fn lower_rest(side: &Side, other: &Side) -> Option<Side>
    ensures { result ≡ lower_rest side.now other.now }
{
    match (*side, *other) {
        (Side::Span { low, .. }, Side::Span { low: other_low, .. }) => span_below(low, other_low),
        (Side::Names { bits }, Side::Names { bits: other_bits }) => {
            set_unless_empty(bits ^ (bits & other_bits))
        }
        _ => None,
    }
}

// What of a side lies above another that it meets.
#[tactic(auto, unfolding(pc_box::specs::Sides::upper_rest))]
fn upper_rest(side: &Side, other: &Side) -> Option<Side>
    ensures { result ≡ upper_rest side.now other.now }
{
    match (*side, *other) {
        (
            Side::Span { high, .. },
            Side::Span {
                high: other_high,
                ..
            },
        ) => span_above(other_high, high),
        _ => None,
    }
}

fn set_unless_empty(bits: u128) -> Option<Side>
    ensures { result ≡ set_unless_empty bits }
{
    if bits == 0 {
        return None;
    }
    Some(Side::Names { bits })
}

// The numbers from `low` on that are less than `end`.
fn span_below(low: i64, end: i64) -> Option<Side>
    ensures { result ≡ span_below low end }
{
    if low < end {
        return Some(Side::Span { low, high: end - 1 });
    }
    None
}

// The numbers up to `high` that are greater than `end`.
fn span_above(end: i64, high: i64) -> Option<Side>
    ensures { result ≡ span_above end high }
{
    if end < high {
        return Some(Side::Span { low: end + 1, high });
    }
    None
}
