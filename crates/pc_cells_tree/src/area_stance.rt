ghost use Rattle.std.specs.Prelude.{◌≡◌, ◌+◌, ◌≤◌, ◌<◌, length, All};
ghost use Rattle.pc_box.specs.Boxes.{AreAlike, IsAlikeToArea};
ghost use Rattle.pc_cells_tree.specs.Stances.{column_limit, IsAreaStance, IsStanceFrom, IsWithBox};

use crate::stance::{Stance, compare};
use pc_model::{Area, Region};

/// How a box stands to an area: its rows are all in one and the same of its boxes, or none is in any; or it
/// reaches beyond the box at a place along so many open faces, and is in none.
#[derive(Clone, Copy, Debug, PartialEq, Eq)]
pub(crate) enum AreaStance {
    Inside,
    Apart,
    Across { place: usize, faces: usize },
}

impl AreaStance {
    // With a box before the others that is crossed: of the crossed ones the one with the fewest open faces, the
    // first of equals.
    #[inline(always)]
    fn with_box(self, place: usize, faces: usize) -> AreaStance
        ensures { IsWithBox place faces self result }
    {
        match self {
            AreaStance::Inside => self,
            AreaStance::Across { faces: fewest, .. } if fewest < faces => self,
            _ => AreaStance::Across { place, faces },
        }
    }
}

#[tactic(auto, using(crate::proofs::AreaStances::whole))]
pub(crate) fn compare_area(part: &Region, area: &Area) -> AreaStance
    requires alike { IsAlikeToArea part.now area.now }
    requires few { length part.now.sides ≤ column_limit }
    ensures { IsAreaStance part.now area.now result }
{
    compare_boxes(part, area.boxes.as_slice())
}

// Most areas have one box, which is compared in place.
#[inline(always)]
#[tactic(auto, using(crate::proofs::AreaStances::rounds, crate::proofs::AreaStances::whole))]
pub(crate) fn compare_lone(part: &Region, area: &Area) -> AreaStance
    requires alike { IsAlikeToArea part.now area.now }
    requires few { length part.now.sides ≤ column_limit }
    requires lone { length area.now.boxes ≡ 1 }
    ensures { IsAreaStance part.now area.now result }
{
    compare_from(part, area.boxes.as_slice(), 0, AreaStance::Apart)
}

#[tactic(auto, using(crate::proofs::AreaStances::rounds))]
fn compare_boxes(part: &Region, boxes: &[Region]) -> AreaStance
    requires alike { All (AreAlike part.now) boxes.now }
    requires few { length part.now.sides ≤ column_limit }
    ensures { IsStanceFrom part.now boxes.now 0 result }
{
    let mut stance = AreaStance::Apart;
    for place in (0..boxes.len()).rev() {
        stance = compare_from(part, boxes, place, stance);
    }
    stance
}

// How it stands to the boxes from this place on, where it is known how to the later ones.
#[inline(always)]
#[tactic(auto, using(crate::proofs::AreaStances::steps))]
fn compare_from(part: &Region, boxes: &[Region], place: usize, later: AreaStance) -> AreaStance
    requires alike { All (AreAlike part.now) boxes.now }
    requires few { length part.now.sides ≤ column_limit }
    requires there { place < length boxes.now }
    requires later { IsStanceFrom part.now boxes.now (place + 1) later }
    ensures { IsStanceFrom part.now boxes.now place result }
{
    match compare(part, &boxes[place]) {
        Stance::Inside => AreaStance::Inside,
        Stance::Apart => later,
        Stance::Across { faces } => later.with_box(place, faces),
    }
}
