//! Weights with what classes lack: where a class serves more needs than it takes room, the one of its
//! constraints that has room for the fewest rows takes the rest. A search has at most so many rows of
//! a class, and with this its multipliers need no other bound.
ghost use Rattle.std.specs.Prelude.{◌≡◌, ◌<◌, ◌≤◌, ◌*ℤ◌, ℕ, pos, map, length, IfSome};
ghost use Rattle.pc_num.specs.Divisor.{IsRowGcd};
ghost use Rattle.pc_model.specs.Accepted.{constraint_limit};

use crate::weight::{are_sized, class_weight};
use pc_cells::Cell;
use pc_model::{Constraint, has_bit};
use pc_num::{are_fit, fit_sub, primitive};

/// The weights with what the class of each cell lacks, without a common divisor, unless one of them
/// is too large.
pub(crate) fn with_lacks(
    weights: Vec<i128>,
    constraints: &[Constraint],
    cells: &[Cell],
) -> Option<Vec<i128>>
    requires few { length constraints.now ≤ constraint_limit }
{
    let mut weights = smallest(weights)?;
    for cell in cells {
        weights = with_lack(weights, constraints, cell.mask)?;
    }
    smallest(weights)
}

/// The weights with what a class lacks.
fn with_lack(weights: Vec<i128>, constraints: &[Constraint], mask: u32) -> Option<Vec<i128>>
    requires few { length constraints.now ≤ constraint_limit }
{
    if !are_sized(constraints, weights.as_slice()) {
        return None;
    }
    let weight = class_weight(mask, weights.as_slice());
    match tightest(constraints, mask) {
        Some(place) if weight < 0 => with_more(weights, place, weight),
        _ => Some(weights),
    }
}

/// The weights with one of them greater by what the weight of a class is below 0.
fn with_more(weights: Vec<i128>, place: usize, weight: i128) -> Option<Vec<i128>>
    requires there { place < length weights.items }
{
    let mut weights = weights;
    weights[place] = fit_sub(weights[place], weight)?;
    Some(weights)
}

/// The constraint of a class that has room for the fewest rows.
fn tightest(constraints: &[Constraint], mask: u32) -> Option<usize>
    requires few { length constraints.now ≤ constraint_limit }
    ensures there { IfSome result (λ place. place < length constraints.now) }
{
    let mut found: Option<usize> = None;
    for (place, constraint) in constraints.iter().enumerate() {
        if has_bit(u128::from(mask), place) && is_tighter(constraints, constraint.most, found) {
            found = Some(place);
        }
    }
    found
}

/// Whether there is room for fewer rows than the constraint of a place has, if there is one.
fn is_tighter(constraints: &[Constraint], most: u64, found: Option<usize>) -> bool
    requires there { IfSome found (λ place. place < length constraints.now) }
{
    match found {
        Some(place) => most < constraints[place].most,
        None => true,
    }
}

/// Weights in the same ratios, without a common divisor, unless one of them does not fit.
fn smallest(weights: Vec<i128>) -> Option<Vec<i128>>
    ensures { IfSome result (λ new. (g : ℕ) × IsRowGcd weights.items g × (map (λ x. x *ℤ pos g) new.items ≡ weights.items)) }
{
    if !are_fit(weights.as_slice()) {
        return None;
    }
    let mut weights = weights;
    primitive(weights.as_mut_slice());
    Some(weights)
}
