ghost use Rattle.std.specs.Prelude.{◌↔◌, All, IsTrue};
ghost use Rattle.pc_model.specs.declared.constraint.Constraint.{Constraint};
ghost use Rattle.pc_model.specs.Accepted.{HasLoneOutside};
ghost use Rattle.pc_cells.specs.Found.{AreOfOneSchema, AreAlikeToArea, AreApartFromArea, AreWhensAlike, AreWhensApart, AreApart, AreApartFrom, TellsDisjoint};

use pc_box::apart_from_area;
use pc_model::{Area, Constraint, Region, When};

/// Whether no two constraints speak of one row of the domain.
pub fn pairwise_apart(constraints: &[Constraint]) -> bool
    requires of_one_schema { AreOfOneSchema constraints.now }
    requires lone { HasLoneOutside constraints.now }
    ensures disjoint { TellsDisjoint constraints.now result }
{
    pairs_are_apart(constraints)
}

fn pairs_are_apart(constraints: &[Constraint]) -> bool
    requires of_one_schema { AreOfOneSchema constraints.now }
    ensures { IsTrue result ↔ AreApart constraints.now }
{
    for (place, constraint) in constraints.iter().enumerate() {
        if !is_apart_from(&constraints[..place], &constraint.when) {
            return false;
        }
    }
    true
}

/// Whether the predicate is apart from those of the earlier constraints.
fn is_apart_from(earlier: &[Constraint], when: &When) -> bool
    requires alike { All (λ (other : Constraint). AreWhensAlike other.when when.now) earlier.now }
    ensures { IsTrue result ↔ AreApartFrom earlier.now when.now }
{
    for other in earlier {
        if !are_apart(&other.when, when) {
            return false;
        }
    }
    true
}

// What is outside is apart from every area.
fn are_apart(one: &When, other: &When) -> bool
    requires { AreWhensAlike one.now other.now }
    ensures { IsTrue result ↔ AreWhensApart one.now other.now }
{
    match (one, other) {
        (When::Boxes(area), When::Boxes(other)) => areas_are_apart(area, other),
        _ => true,
    }
}

fn areas_are_apart(area: &Area, other: &Area) -> bool
    requires { AreAlikeToArea area.now.boxes other.now }
    ensures { IsTrue result ↔ AreApartFromArea area.now.boxes other.now }
{
    each_is_apart(area.boxes.as_slice(), other)
}

fn each_is_apart(boxes: &[Region], area: &Area) -> bool
    requires { AreAlikeToArea boxes.now area.now }
    ensures { IsTrue result ↔ AreApartFromArea boxes.now area.now }
{
    for region in boxes {
        if !apart_from_area(region, area) {
            return false;
        }
    }
    true
}
