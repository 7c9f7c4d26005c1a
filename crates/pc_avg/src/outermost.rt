ghost use Rattle.std.specs.Prelude.{◌≡◌, ◌≤◌, ◌^◌, nat_abs, cond, length, All, IfSome};
ghost use Rattle.pc_proof.specs.Setting.{cells};
ghost use Rattle.pc_agg_search.specs.Problem.{IsPosed, setting_of};
ghost use Rattle.pc_avg.specs.Outermost.{greater, IsGreatestKey};
ghost use Rattle.pc_avg.specs.Sides.{observed_key, IsOutermost};
ghost use Rattle.pc_agg_search.specs.Posed.{keys_of};

use pc_agg_search::{Extreme, Problem};
use pc_cells::Cell;
use pc_model::Folded;

/// The greatest key of a chosen cell or of an observed row.
pub(crate) fn outermost_of(
    problem: &Problem<'_>,
    extreme: Extreme,
    keys: &[i128],
    seen: &Folded,
) -> Option<i128>
    requires posed { IsPosed problem.now }
    requires keyed { keys.now ≡ keys_of problem.now extreme }
    requires small { All (λ key. nat_abs key ≤ 2 ^ 63) keys.now }
    ensures { IsOutermost (setting_of problem.now) extreme (observed_key seen.now extreme) result }
{
    greatest_key(
        problem.cells.cells.as_slice(),
        keys,
        observed_key(seen, extreme),
    )
}

/// The greatest of a key and those of the chosen cells.
fn greatest_key(cells: &[Cell], keys: &[i128], observed: Option<i128>) -> Option<i128>
    requires sized { length keys.now ≡ length cells.now }
    ensures { IsGreatestKey cells.now keys.now (length cells.now) observed result }
{
    let mut greatest = observed;
    for place in 0..cells.len() {
        greatest = with_cell(greatest, &cells[place], keys[place]);
    }
    greatest
}

/// The greater of a number and of the cell's key, if the cell is chosen.
fn with_cell(greatest: Option<i128>, cell: &Cell, key: i128) -> Option<i128>
    ensures { result ≡ cond cell.now.chosen (greater greatest key) greatest }
{
    if !cell.chosen {
        return greatest;
    }
    greater(greatest, key)
}

fn greater(greatest: Option<i128>, key: i128) -> Option<i128>
    ensures { result ≡ greater greatest key }
{
    match greatest {
        Some(number) => Some(number.max(key)),
        None => Some(key),
    }
}

/// The outermost number of an observed row, turned at a low end.
fn observed_key(seen: &Folded, extreme: Extreme) -> Option<i128>
    ensures key { result ≡ observed_key seen.now extreme }
    ensures small { IfSome result (λ m. nat_abs m ≤ 2 ^ 63) }
{
    match extreme {
        Extreme::Low => Some(-i128::from(seen.least?)),
        Extreme::High => Some(i128::from(seen.greatest?)),
    }
}
