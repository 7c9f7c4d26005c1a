ghost use Rattle.pc_program_bound.specs.Allocation.{IsProgram};

use crate::plain::{Draws, Small, greatest, worth};
use pc_model::Mult;
use pc_num::are_fit;
use pc_program::{Solved, greedy, has_one_bits};
use pc_program_bound::{Program, dual_bound, is_program, lawful};
use std::alloc::Global;
use std::test::Fail;

/// Cells that are each in one of the constraints, and no three in the same.
fn with_cells(draws: &mut Draws, small: Small) -> Small {
    let mut small = small;
    let constraints = small.constraints.clamp(1, 3) as u64;
    let mut held = [0u8; 3];
    let mut cells = 0;
    for _ in 0..draws.below(4) + 1 {
        let place = draws.below(constraints) as usize;
        if held[place] < 2 && cells < 4 {
            held[place] += 1;
            small.masks[cells] = 1u32 << place as u32;
            cells += 1;
        }
    }
    small.cells = cells;
    small
}

fn with_ends(draws: &mut Draws, small: Small) -> Small {
    let mut small = small;
    for place in 0..small.constraints.min(3) {
        let (one, other) = (draws.below(5), draws.below(5));
        small.least[place] = one.min(other);
        small.most[place] = one.max(other);
    }
    small
}

fn with_gains(draws: &mut Draws, small: Small) -> Small {
    let mut small = small;
    for cell in 0..small.cells.min(4) {
        small.cap[cell] = draws.below(4);
        small.gain[cell] = draws.below(7) as i128 - 3;
    }
    small
}

/// A program of one to four cells in one to three constraints.
fn drawn(draws: &mut Draws) -> Small {
    let mut small = Small::empty();
    small.constraints = draws.below(3) as usize + 1;
    let small = with_cells(draws, small);
    let small = with_ends(draws, small);
    with_gains(draws, small)
}

/// The bound that multipliers prove over the program's own box, if they are multipliers of it.
#[tactic(auto, using(pc_program_bound::proofs::WalkParts::whole_box))]
fn bound_of(p: &Program, mult: &Mult) -> Option<i128>
    requires { IsProgram p.now }
{
    if mult.by.len() != p.least.len() || mult.den < 1 {
        return None;
    }
    if !are_fit(mult.by.as_slice()) {
        return None;
    }
    dual_bound(p, p.floor.as_slice(), p.cap.as_slice(), mult)
}

/// Whether the counts are allowed, and are worth what the plain program finds and the multipliers prove.
fn is_best(p: &Program, counts: &[u64], value: i128, mult: &Mult) -> bool
    requires { IsProgram p.now }
{
    counts.len() == p.masks.len()
        && lawful(p, counts)
        && worth(p, counts) == value
        && greatest(p) == Some(value)
        && bound_of(p, mult) == Some(value)
}

/// Whether the plain program finds the same, and the multipliers prove it.
fn agrees(p: &Program, solved: &Solved) -> bool
    requires { IsProgram p.now }
{
    match solved {
        Solved::Best {
            counts,
            value,
            mult,
        } => is_best(p, counts.as_slice(), *value, mult),
        Solved::Nothing { mult: _mult } => greatest(p).is_none(),
    }
}

/// The counts of greatest worth of a program whose constraints share no cell.
fn solved(alloc: Global, p: &Program) -> Result<Solved, Fail> {
    if !is_program(p) {
        return Err(Fail::new("no program"));
    }
    if !has_one_bits(p) {
        return Err(Fail::new("shared cells"));
    }
    Ok(greedy(alloc, p)?)
}

/// Whether what is found is what the plain search finds.
fn is_right(alloc: Global, p: &Program) -> Result<bool, Fail> {
    let solved = solved(alloc, p)?;
    Ok(is_program(p) && agrees(p, &solved))
}

#[test]
fn small_programs(rt: HostRuntime) -> Result<(), Fail> {
    let alloc = rt.alloc();
    let mut draws = Draws { state: 1 };
    for place in 0..300 {
        let p = drawn(&mut draws).program(alloc)?;
        assert!(rt; is_right(alloc, &p)?, "program {place}");
    }
    Ok(())
}
