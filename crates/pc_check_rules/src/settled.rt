ghost use Rattle.std.specs.Prelude.{◌↔◌, IsTrue, ℕ, ◌<◌, ◌≤◌, ◌^◌, length, All, Any, slice_index_or};
ghost use Rattle.pc_model.specs.declared.constraint.Constraint.{Constraint};
ghost use Rattle.pc_model.specs.Accepted.{constraint_limit};
ghost use Rattle.pc_model.specs.Cells.{IsSettledAs, IsSettledAt, IsSettledSide, IsSettledClass, IsUnder, IsRuledOut, IsBarren, SpeaksOfNone};
ghost use Rattle.pc_box.specs.Boxes.{IsAlikeTo, IsAlikeToArea};
ghost use Rattle.pc_check_rules.specs.CutLines.{IsComparable};

use pc_box::{apart, apart_from_area, inside, inside_area, speaks_of_all, speaks_of_none};
use pc_model::{Area, Constraint, LeafMark, Region, has_bit};

/// Whether a mark says of a box what holds of its rows.
pub(crate) fn is_settled(
    constraints: &[Constraint],
    area: &Area,
    part: &Region,
    mark: LeafMark,
) -> bool
    requires few { length constraints.now ≤ constraint_limit }
    requires comparable { IsComparable constraints.now area.now part.now }
    ensures { IsTrue result ↔ IsSettledAs constraints.now area.now part.now mark }
{
    match mark {
        LeafMark::Barren => is_barren(constraints, part),
        LeafMark::Class { mask, chosen } => {
            is_settled_class(constraints, area, part, mask, chosen)
        }
    }
}

/// Whether no row of the box can be lost.
fn is_barren(constraints: &[Constraint], part: &Region) -> bool
    requires { All (IsAlikeTo part.now) constraints.now }
    ensures { IsTrue result ↔ IsBarren constraints.now part.now }
{
    if is_ruled_out_by_any(constraints, part) {
        return true;
    }
    is_spoken_of_by_none(constraints, part)
}

fn is_ruled_out_by_any(constraints: &[Constraint], part: &Region) -> bool
    requires { All (IsAlikeTo part.now) constraints.now }
    ensures { IsTrue result ↔ Any (IsRuledOut constraints.now part.now) constraints.now }
{
    for constraint in constraints {
        if is_ruled_out(constraints, constraint, part) {
            return true;
        }
    }
    false
}

/// Whether the constraint speaks of all rows of the box, and none of them is in its values.
fn is_ruled_out(constraints: &[Constraint], constraint: &Constraint, part: &Region) -> bool
    requires own { IsAlikeTo part.now constraint.now }
    requires each { All (IsAlikeTo part.now) constraints.now }
    ensures { IsTrue result ↔ IsRuledOut constraints.now part.now constraint.now }
{
    speaks_of_all(constraints, constraint, part) && apart(part, &constraint.values)
}

fn is_spoken_of_by_none(constraints: &[Constraint], part: &Region) -> bool
    requires { All (IsAlikeTo part.now) constraints.now }
    ensures { IsTrue result ↔ All (SpeaksOfNone constraints.now part.now) constraints.now }
{
    for constraint in constraints {
        if !speaks_of_none(constraints, constraint, part) {
            return false;
        }
    }
    true
}

/// Whether the rows of the box are those of a class.
fn is_settled_class(
    constraints: &[Constraint],
    area: &Area,
    part: &Region,
    mask: u32,
    chosen: bool,
) -> bool
    requires few { length constraints.now ≤ constraint_limit }
    requires comparable { IsComparable constraints.now area.now part.now }
    ensures { IsTrue result ↔ IsSettledClass constraints.now area.now part.now mask chosen }
{
    if mask == 0 {
        return false;
    }
    if !is_short(mask, constraints.len()) {
        return false;
    }
    if !is_settled_at_each(constraints, part, mask) {
        return false;
    }
    is_settled_side(area, part, chosen)
}

/// Whether no bit is set from a place on.
fn is_short(mask: u32, count: usize) -> bool
    requires { count ≤ constraint_limit }
    ensures { IsTrue result ↔ (mask < 2 ^ count) }
{
    u64::from(mask) < 1u64 << count as u32
}

fn is_settled_at_each(constraints: &[Constraint], part: &Region, mask: u32) -> bool
    requires few { length constraints.now ≤ constraint_limit }
    requires alike { All (IsAlikeTo part.now) constraints.now }
    ensures { IsTrue result ↔ ((place : ℕ) (c : Constraint) → place < length constraints.now → IsSettledAt constraints.now part.now mask place (slice_index_or constraints.now place c)) }
{
    for (place, constraint) in constraints.iter().enumerate() {
        if !is_settled_at(constraints, constraint, part, mask, place) {
            return false;
        }
    }
    true
}

/// Whether the constraint speaks of all rows of the box, and has them in its values, or speaks of none, as its bit
/// says.
fn is_settled_at(
    constraints: &[Constraint],
    constraint: &Constraint,
    part: &Region,
    mask: u32,
    place: usize,
) -> bool
    requires few { place < constraint_limit }
    requires own { IsAlikeTo part.now constraint.now }
    requires each { All (IsAlikeTo part.now) constraints.now }
    ensures { IsTrue result ↔ IsSettledAt constraints.now part.now mask place constraint.now }
{
    if has_bit(u128::from(mask), place) {
        return is_under(constraints, constraint, part);
    }
    speaks_of_none(constraints, constraint, part)
}

fn is_under(constraints: &[Constraint], constraint: &Constraint, part: &Region) -> bool
    requires own { IsAlikeTo part.now constraint.now }
    requires each { All (IsAlikeTo part.now) constraints.now }
    ensures { IsTrue result ↔ IsUnder constraints.now part.now constraint.now }
{
    if !speaks_of_all(constraints, constraint, part) {
        return false;
    }
    inside(part, &constraint.values)
}

fn is_settled_side(area: &Area, part: &Region, chosen: bool) -> bool
    requires { IsAlikeToArea part.now area.now }
    ensures { IsTrue result ↔ IsSettledSide part.now area.now chosen }
{
    if chosen {
        return inside_area(part, area);
    }
    apart_from_area(part, area)
}
