ghost use Rattle.std.specs.Prelude.{◌↔◌, IsTrue, All, Any};
ghost use Rattle.pc_model.specs.declared.constraint.Constraint.{Constraint};
ghost use Rattle.pc_model.specs.Cells.{SpeaksOfAll, SpeaksOfNone, IsInsideNamed, IsApartFromNamed};
ghost use Rattle.pc_box.specs.Boxes.{IsAlikeTo, IsAlikeToWhen};

use crate::areas::{apart_from_area, inside_area};
use pc_model::{Constraint, Region, When};

/// Whether a constraint, as one of these, speaks of all rows of a box. One of the rows outside does where the
/// box is apart from every area.
pub fn speaks_of_all(constraints: &[Constraint], constraint: &Constraint, part: &Region) -> bool
    requires own { IsAlikeTo part.now constraint.now }
    requires each { All (IsAlikeTo part.now) constraints.now }
    ensures { IsTrue result ↔ SpeaksOfAll constraints.now part.now constraint.now }
{
    match &constraint.when {
        When::Boxes(area) => inside_area(part, area),
        When::Outside => is_outside_each(constraints, part),
    }
}

/// Whether a constraint, as one of these, speaks of no row of a box. One of the rows outside speaks of none
/// where some area holds the box.
pub fn speaks_of_none(constraints: &[Constraint], constraint: &Constraint, part: &Region) -> bool
    requires own { IsAlikeTo part.now constraint.now }
    requires each { All (IsAlikeTo part.now) constraints.now }
    ensures { IsTrue result ↔ SpeaksOfNone constraints.now part.now constraint.now }
{
    match &constraint.when {
        When::Boxes(area) => apart_from_area(part, area),
        When::Outside => is_named_by_some(constraints, part),
    }
}

fn is_outside_each(constraints: &[Constraint], part: &Region) -> bool
    requires { All (IsAlikeTo part.now) constraints.now }
    ensures { IsTrue result ↔ All (λ (c : Constraint). IsApartFromNamed part.now c.when) constraints.now }
{
    for constraint in constraints {
        if !is_apart_from_named(part, &constraint.when) {
            return false;
        }
    }
    true
}

fn is_named_by_some(constraints: &[Constraint], part: &Region) -> bool
    requires { All (IsAlikeTo part.now) constraints.now }
    ensures { IsTrue result ↔ Any (λ (c : Constraint). IsInsideNamed part.now c.when) constraints.now }
{
    for constraint in constraints {
        if is_inside_named(part, &constraint.when) {
            return true;
        }
    }
    false
}

fn is_apart_from_named(part: &Region, when: &When) -> bool
    requires { IsAlikeToWhen part.now when.now }
    ensures { IsTrue result ↔ IsApartFromNamed part.now when.now }
{
    match when {
        When::Boxes(area) => apart_from_area(part, area),
        When::Outside => true,
    }
}

fn is_inside_named(part: &Region, when: &When) -> bool
    requires { IsAlikeToWhen part.now when.now }
    ensures { IsTrue result ↔ IsInsideNamed part.now when.now }
{
    match when {
        When::Boxes(area) => inside_area(part, area),
        When::Outside => false,
    }
}
