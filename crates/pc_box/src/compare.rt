ghost use Rattle.std.specs.Prelude.{◌≡◌, ◌↔◌, IsTrue};
ghost use Rattle.std.specs.Cmp.Lexicographic.{pointwise};
ghost use Rattle.pc_model.specs.CutTrees.{IsInside, IsApart};
ghost use Rattle.pc_box.specs.Boxes.{are_like, AreAlike};
ghost use Rattle.pc_box.specs.Sides.{regions_meet, region_within};

use crate::sides::{are_like, is_within, sides_meet};
use pc_model::Region;

/// Whether two regions have sides of the same kinds, none of which is empty, as regions of one schema do.
pub fn are_alike(a: &Region, b: &Region) -> bool
    ensures { IsTrue result ↔ AreAlike a.now b.now }
{
    regions_alike(a, b)
}

#[tactic(auto, using(pc_model::proofs::Pairs::steps))]
fn regions_alike(a: &Region, b: &Region) -> bool
    ensures { result ≡ pointwise are_like a.now.sides b.now.sides }
{
    let sides = a.sides.as_slice();
    let others = b.sides.as_slice();
    if sides.len() != others.len() {
        return false;
    }
    for (place, side) in sides.iter().enumerate() {
        if !are_like(side, &others[place]) {
            return false;
        }
    }
    true
}

/// Whether every row of a box is in another of its schema.
#[tactic(auto, using(crate::proofs::Rows::inside_means))]
pub fn inside(a: &Region, b: &Region) -> bool
    requires alike { AreAlike a.now b.now }
    ensures { IsTrue result ↔ IsInside a.now b.now }
{
    region_within(a, b)
}

/// Whether two boxes of one schema have no row in common.
#[tactic(auto, using(crate::proofs::Rows::apart_means))]
pub fn apart(a: &Region, b: &Region) -> bool
    requires alike { AreAlike a.now b.now }
    ensures { IsTrue result ↔ IsApart a.now b.now }
{
    !regions_meet(a, b)
}

#[tactic(auto, using(pc_model::proofs::Pairs::steps), unfolding(crate::specs::Sides::region_within))]
fn region_within(a: &Region, b: &Region) -> bool
    ensures { result ≡ region_within a.now b.now }
{
    let sides = a.sides.as_slice();
    let others = b.sides.as_slice();
    if sides.len() != others.len() {
        return false;
    }
    for (place, side) in sides.iter().enumerate() {
        if !is_within(side, &others[place]) {
            return false;
        }
    }
    true
}

/// Whether each side meets the other's.
#[tactic(auto, using(pc_model::proofs::Pairs::steps), unfolding(crate::specs::Sides::regions_meet))]
pub(crate) fn regions_meet(a: &Region, b: &Region) -> bool
    ensures { result ≡ regions_meet a.now b.now }
{
    let sides = a.sides.as_slice();
    let others = b.sides.as_slice();
    if sides.len() != others.len() {
        return false;
    }
    for (place, side) in sides.iter().enumerate() {
        if !sides_meet(side, &others[place]) {
            return false;
        }
    }
    true
}
