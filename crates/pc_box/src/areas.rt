ghost use Rattle.std.specs.Prelude.{◌↔◌, IsTrue, All, Any};
ghost use Rattle.pc_model.specs.CutTrees.{IsInside, IsApart, IsInsideArea, IsApartFromArea};
ghost use Rattle.pc_box.specs.Boxes.{AreAlike, IsAlikeToArea};

use crate::compare::{apart, inside};
use pc_model::{Area, Region};

/// Whether every row of a box is in one and the same box of an area.
pub fn inside_area(part: &Region, area: &Area) -> bool
    requires alike { IsAlikeToArea part.now area.now }
    ensures { IsTrue result ↔ IsInsideArea part.now area.now }
{
    inside_some(part, area.boxes.as_slice())
}

/// Whether no row of a box is in an area.
pub fn apart_from_area(part: &Region, area: &Area) -> bool
    requires alike { IsAlikeToArea part.now area.now }
    ensures { IsTrue result ↔ IsApartFromArea part.now area.now }
{
    apart_from_each(part, area.boxes.as_slice())
}

fn inside_some(part: &Region, boxes: &[Region]) -> bool
    requires { All (AreAlike part.now) boxes.now }
    ensures { IsTrue result ↔ Any (IsInside part.now) boxes.now }
{
    for region in boxes {
        if inside(part, region) {
            return true;
        }
    }
    false
}

fn apart_from_each(part: &Region, boxes: &[Region]) -> bool
    requires { All (AreAlike part.now) boxes.now }
    ensures { IsTrue result ↔ All (IsApart part.now) boxes.now }
{
    for region in boxes {
        if !apart(part, region) {
            return false;
        }
    }
    true
}
