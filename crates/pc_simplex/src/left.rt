ghost use Rattle.std.specs.Prelude.{◌≡◌, ◌<◌, pos, cond, IfOk};
ghost use Rattle.pc_program_bound.specs.Allocation.{IsProgram, constraints_of};
ghost use Rattle.pc_program_bound.specs.Bound.{IsFit};
ghost use Rattle.pc_simplex_tableau.specs.Numbers.{first_below};
ghost use Rattle.pc_simplex_tableau.specs.Relaxation.{left_of, one_at};
ghost use Rattle.pc_simplex.specs.Floors.{AreFloors, is_overfull};

use pc_list::Seq;
use pc_model::Mult;
use pc_num::Memory;
use pc_program_bound::{Program, total_of};
use std::alloc::Global;

/// What the floors leave of the most of a constraint.
#[tactic(auto, using(crate::proofs::Floors::total_small))]
pub(crate) fn left_of(p: &Program, floor: &[u64], constraint: usize) -> i128
    requires program { IsProgram p.now }
    requires floors { AreFloors p.now floor.now }
    requires own { constraint < constraints_of p.now }
    ensures value { result ≡ left_of p.now floor.now constraint }
    ensures fits { IsFit result }
{
    let most = p.most.as_slice();
    most[constraint] as i128 - total_of(p, floor, constraint) as i128
}

/// The first constraint whose floors are together more than its most.
pub(crate) fn first_overfull(p: &Program, floor: &[u64]) -> Option<usize>
    requires program { IsProgram p.now }
    requires floors { AreFloors p.now floor.now }
    ensures { result ≡ first_below (constraints_of p.now) (is_overfull p.now floor.now) }
{
    for constraint in 0..p.least.len() {
        if is_overfull(p, floor, constraint) {
            return Some(constraint);
        }
    }
    None
}

fn is_overfull(p: &Program, floor: &[u64], constraint: usize) -> bool
    requires program { IsProgram p.now }
    requires floors { AreFloors p.now floor.now }
    requires own { constraint < constraints_of p.now }
    ensures { result ≡ is_overfull p.now floor.now constraint }
{
    left_of(p, floor, constraint) < 0
}

/// The multipliers that take a constraint once.
#[tactic(auto, using(pc_simplex_tableau::proofs::Tables::table_steps))]
pub(crate) fn one_at(alloc: Global, p: &Program, constraint: usize) -> Result<Mult, Memory>
    ensures { IfOk result (λ mult. mult ≡ one_at p.now constraint) }
{
    let mut by = Seq::new(alloc);
    for place in 0..p.least.len() {
        by.push(one_if(place == constraint))?;
    }
    Ok(Mult { by, den: 1 })
}

pub(crate) fn one_if(test: bool) -> i128
    ensures { result ≡ cond test (pos 1) (pos 0) }
{
    if test {
        return 1;
    }
    0
}
