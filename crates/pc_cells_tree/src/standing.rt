ghost use Rattle.std.specs.Prelude.{◌≡◌, ◌↔◌, ◌+◌, ◌≤◌, ◌<◌, length, slice_index_or, All, IsTrue};
ghost use Rattle.pc_model.specs.declared.constraint.Constraint.{Constraint};
ghost use Rattle.pc_box.specs.Boxes.{IsAlikeTo};
ghost use Rattle.pc_cells_tree.specs.Stances.{column_limit};
ghost use Rattle.pc_cells_tree.specs.Standings.{is_before, IsLone, IsStandingAt, IsOutsideFrom, IsWithArea};

use crate::area_stance::{AreaStance, compare_area, compare_lone};
use pc_model::{Constraint, Region, When};

/// A constraint that a box crosses: it crosses the box at a place of its area, or, where none is named, it is within
/// the predicate and crosses the values; and along how many open faces.
#[derive(Clone, Copy, Debug, PartialEq, Eq)]
pub(crate) struct Crossing {
    pub place: usize,
    pub box_place: Option<usize>,
    pub faces: usize,
}

/// Whether a constraint speaks of all rows of a box or of none; else an area that is crossed, its own or, where it is
/// outside, that of another.
#[derive(Clone, Copy, Debug, PartialEq, Eq)]
pub(crate) enum Standing {
    OfAll,
    OfNone,
    Open(Crossing),
}

impl Standing {
    // With an area before the others that is crossed.
    #[inline(always)]
    fn with_area(self, crossing: Crossing) -> Standing
        ensures { IsWithArea crossing self result }
    {
        match self {
            Standing::OfNone => self,
            Standing::Open(other) if is_before(other, crossing) => self,
            _ => Standing::Open(crossing),
        }
    }
}

/// Which of two crossings is cut along. Values come before areas, since their outer part is settled at once; then the
/// one with fewer open faces.
#[inline(always)]
#[tactic(auto, unfolding(crate::specs::Standings::is_before))]
pub(crate) fn is_before(one: Crossing, other: Crossing) -> bool
    ensures { result ≡ is_before one other }
{
    match (one.box_place, other.box_place) {
        (None, Some(_)) => true,
        (Some(_), None) => false,
        _ => one.faces < other.faces,
    }
}

/// Whether a predicate is an area of one box.
#[inline(always)]
pub(crate) fn is_lone(when: &When) -> bool
    ensures { IsTrue result ↔ IsLone when.now }
{
    match when {
        When::Boxes(area) => area.boxes.len() == 1,
        When::Outside => false,
    }
}

#[inline(always)]
#[tactic(auto, using(crate::proofs::Standings::one))]
pub(crate) fn stand_lone(part: &Region, constraints: &[Constraint], place: usize) -> Standing
    requires few { length part.now.sides ≤ column_limit }
    requires alike { All (IsAlikeTo part.now) constraints.now }
    requires there { place < length constraints.now }
    requires lone { (c : Constraint) → IsLone (slice_index_or constraints.now place c).when }
    ensures { IsStandingAt constraints.now part.now place result }
{
    match &constraints[place].when {
        When::Boxes(area) => match compare_lone(part, area) {
            AreaStance::Inside => Standing::OfAll,
            AreaStance::Apart => Standing::OfNone,
            AreaStance::Across {
                place: box_place,
                faces,
            } => Standing::Open(Crossing {
                place,
                box_place: Some(box_place),
                faces,
            }),
        },
        When::Outside => unreachable!(),
    }
}

#[tactic(auto, using(crate::proofs::Standings::one))]
pub(crate) fn stand(part: &Region, constraints: &[Constraint], place: usize) -> Standing
    requires few { length part.now.sides ≤ column_limit }
    requires alike { All (IsAlikeTo part.now) constraints.now }
    requires there { place < length constraints.now }
    ensures { IsStandingAt constraints.now part.now place result }
{
    match &constraints[place].when {
        When::Boxes(area) => match compare_area(part, area) {
            AreaStance::Inside => Standing::OfAll,
            AreaStance::Apart => Standing::OfNone,
            AreaStance::Across {
                place: box_place,
                faces,
            } => Standing::Open(Crossing {
                place,
                box_place: Some(box_place),
                faces,
            }),
        },
        When::Outside => stand_outside(part, constraints),
    }
}

// What is outside holds a box that is apart from every area, and none of one that some area holds.
#[tactic(auto, using(crate::proofs::Standings::rounds))]
fn stand_outside(part: &Region, constraints: &[Constraint]) -> Standing
    requires few { length part.now.sides ≤ column_limit }
    requires alike { All (IsAlikeTo part.now) constraints.now }
    ensures { IsOutsideFrom constraints.now part.now 0 result }
{
    let mut standing = Standing::OfAll;
    for place in (0..constraints.len()).rev() {
        standing = stand_outside_from(part, constraints, place, standing);
    }
    standing
}

#[inline(always)]
#[tactic(auto, using(crate::proofs::Standings::steps))]
fn stand_outside_from(
    part: &Region,
    constraints: &[Constraint],
    place: usize,
    later: Standing,
) -> Standing
    requires few { length part.now.sides ≤ column_limit }
    requires alike { All (IsAlikeTo part.now) constraints.now }
    requires there { place < length constraints.now }
    requires later { IsOutsideFrom constraints.now part.now (place + 1) later }
    ensures { IsOutsideFrom constraints.now part.now place result }
{
    match &constraints[place].when {
        When::Boxes(area) => match compare_area(part, area) {
            AreaStance::Inside => Standing::OfNone,
            AreaStance::Apart => later,
            AreaStance::Across {
                place: box_place,
                faces,
            } => later.with_area(Crossing {
                place,
                box_place: Some(box_place),
                faces,
            }),
        },
        When::Outside => later,
    }
}
