ghost use Rattle.std.specs.Prelude.{◌≡◌, pos, ◌+ℤ◌, ◌≤ℤ◌, length, All, SomeIff, IfSome};
ghost use Rattle.std.specs.Int.{int_div_euclid};
ghost use Rattle.pc_program_bound.specs.Sums.{sum_below};
ghost use Rattle.pc_program_bound.specs.Allocation.{IsProgram, IsBox, cells_of, constraints_of};
ghost use Rattle.pc_program_bound.specs.Bound.{IsFit, HasFitWidth, bound_of, constraint_share, constraint_sizes, cell_share, cell_size};
ghost use Rattle.pc_program_bound.specs.Parts.{IsAround, AreFitConstraints, AreFitCells};

use crate::Program;
use crate::left::rest;
use crate::running::{Running, with_cell, with_constraint};
use crate::short::short_shares;
use pc_model::Mult;

/// The bound that multipliers prove over a box, rounded down, or none where their width does not fit.
pub fn dual_bound(p: &Program, floor: &[u64], cap: &[u64], mult: &Mult) -> Option<i128>
    requires program { IsProgram p.now }
    requires inside { IsBox p.now floor.now cap.now }
    requires sized { length mult.now.by ≡ constraints_of p.now }
    requires positive { pos 1 ≤ℤ mult.now.den }
    requires fits { All IsFit mult.now.by }
    ensures { SomeIff result (HasFitWidth p.now mult.now) (bound_of p.now floor.now cap.now mult.now) }
{
    let first = over_constraints(p, mult)?;
    let share = all_shares(p, floor, cap, mult, first)?;
    Some(floor_div(share, mult.den))
}

/// The constraints' and the cells' shares together.
fn all_shares(p: &Program, floor: &[u64], cap: &[u64], mult: &Mult, first: Running) -> Option<i128>
    requires program { IsProgram p.now }
    requires inside { IsBox p.now floor.now cap.now }
    requires sized { length mult.now.by ≡ constraints_of p.now }
    requires first { first ≡ record { share = sum_below (constraints_of p.now) (constraint_share p.now mult.now); size = constraint_sizes p.now mult.now (constraints_of p.now) } }
    requires around { IsAround first.share first.size }
    requires fits { IsFit first.size }
    ensures { SomeIff result (AreFitCells p.now mult.now first.size (cells_of p.now)) (first.share +ℤ sum_below (cells_of p.now) (cell_share p.now floor.now cap.now mult.now)) }
{
    if let Some(share) = short_shares(p, floor, cap, mult) {
        return Some(first.share + share);
    }
    let all = over_cells(p, floor, cap, mult, first)?;
    Some(all.share)
}

/// The constraints' shares.
fn over_constraints(p: &Program, mult: &Mult) -> Option<Running>
    requires program { IsProgram p.now }
    requires sized { length mult.now.by ≡ constraints_of p.now }
    requires fits { All IsFit mult.now.by }
    ensures value { SomeIff result (AreFitConstraints p.now mult.now (constraints_of p.now)) (record { share = sum_below (constraints_of p.now) (constraint_share p.now mult.now); size = constraint_sizes p.now mult.now (constraints_of p.now) }) }
    ensures around { IfSome result (λ r. IsAround r.share r.size) }
{
    let least = p.least.as_slice();
    let most = p.most.as_slice();
    let mut running = Running { share: 0, size: 0 };
    for (place, number) in mult.by.as_slice().iter().enumerate() {
        running = with_constraint(running, *number, least[place], most[place])?;
    }
    Some(running)
}

/// The constraints' and the cells' shares.
fn over_cells(
    p: &Program,
    floor: &[u64],
    cap: &[u64],
    mult: &Mult,
    first: Running,
) -> Option<Running>
    requires program { IsProgram p.now }
    requires inside { IsBox p.now floor.now cap.now }
    requires sized { length mult.now.by ≡ constraints_of p.now }
    requires around { IsAround first.share first.size }
    requires fits { IsFit first.size }
    ensures { SomeIff result (AreFitCells p.now mult.now first.size (cells_of p.now)) (record { share = first.share +ℤ sum_below (cells_of p.now) (cell_share p.now floor.now cap.now mult.now); size = first.size +ℤ sum_below (cells_of p.now) (cell_size p.now mult.now) }) }
{
    let most = p.cap.as_slice();
    let mut running = first;
    for (cell, most) in most.iter().enumerate() {
        let ends = (floor[cell], cap[cell]);
        let rest = rest(p, mult, cell)?;
        running = with_cell(running, rest, ends, *most)?;
    }
    Some(running)
}

fn floor_div(number: i128, den: i128) -> i128
    requires { pos 1 ≤ℤ den }
    ensures { result ≡ int_div_euclid number den }
{
    number.div_euclid(den)
}
