use super::{is_as_whole, relaxed};
use crate::plain::{Draws, Small, greatest};
use pc_model::Mult;
use pc_program_bound::Program;
use pc_simplex::Relaxed;
use std::alloc::Global;
use std::test::Fail;

fn with_ends(draws: &mut Draws, small: Small) -> Small {
    let mut small = small;
    for place in 0..small.constraints.min(3) {
        let (one, other) = (draws.below(6), draws.below(6));
        small.least[place] = one.min(other);
        small.most[place] = one.max(other);
    }
    small
}

fn with_cells(draws: &mut Draws, small: Small) -> Small {
    let mut small = small;
    for cell in 0..small.cells.min(4) {
        small.masks[cell] = (draws.below(7) + 1) as u32;
        let (one, other) = (draws.below(4), draws.below(4));
        small.floor[cell] = one.min(other) / 2;
        small.cap[cell] = one.max(other);
        small.gain[cell] = draws.below(7) as i128 - 3;
    }
    small
}

/// A program of one to four cells in one to three constraints, in which the cells may share constraints.
fn drawn(draws: &mut Draws) -> Small {
    let mut small = Small::empty();
    small.constraints = draws.below(3) as usize + 1;
    let mut small = with_ends(draws, small);
    small.cells = draws.below(4) as usize + 1;
    with_cells(draws, small)
}

/// The bound of the multipliers before it is divided, by the formula alone.
fn bound(p: &Program, mult: &Mult) -> i128 {
    let mut bound = 0i128;
    let ends = p.least.as_slice().iter().zip(p.most.as_slice().iter());
    for (by, (least, most)) in mult.by.as_slice().iter().zip(ends) {
        let rows = if *by > 0 { *most } else { *least };
        bound = bound.saturating_add(by.saturating_mul(rows as i128));
    }
    for cell in 0..p.masks.len() {
        bound = bound.saturating_add(share(p, mult, cell));
    }
    bound
}

/// What the rows of a cell add to the bound.
fn share(p: &Program, mult: &Mult, cell: usize) -> i128 {
    let (masks, gains) = (p.masks.as_slice(), p.gain.as_slice());
    let (floors, caps) = (p.floor.as_slice(), p.cap.as_slice());
    let Some(mask) = masks.get(cell) else {
        return 0;
    };
    let mut rest = mult
        .den
        .saturating_mul(gains.get(cell).copied().unwrap_or(0));
    let mut bit = 1u32;
    for by in mult.by.as_slice() {
        if mask & bit != 0 {
            rest = rest.saturating_sub(*by);
        }
        bit = bit.wrapping_mul(2);
    }
    let floor = floors.get(cell).copied().unwrap_or(0);
    let cap = caps.get(cell).copied().unwrap_or(0);
    rest.saturating_mul(floor as i128)
        .max(rest.saturating_mul(cap as i128))
}

/// Whether no allocation is worth more than the bound, or there is none in a void box.
fn agrees(p: &Program, relaxed: &Relaxed) -> bool {
    match relaxed {
        Relaxed::Vertex {
            point: _point,
            mult,
        } => match greatest(p) {
            Some(worth) => worth.saturating_mul(mult.den) <= bound(p, mult),
            None => true,
        },
        Relaxed::Void { mult: _mult } => greatest(p).is_none(),
        _ => false,
    }
}

/// Whether the plain search finds nothing better, and the steps over whole rows end alike.
fn is_right(alloc: Global, p: &Program) -> Result<bool, Fail> {
    let found = relaxed(alloc, p, p.floor.as_slice(), p.cap.as_slice())?;
    Ok(agrees(p, &found) && is_as_whole(alloc, p, &found)?)
}

// Where the numbers start, and how many programs are drawn by them.
static DRAWN: [(u64, u32); 2] = [(1, 300), (7, 1000)];

fn are_right(alloc: Global, state: u64, count: u32) -> Result<bool, Fail> {
    let mut draws = Draws { state };
    for _ in 0..count {
        let p = drawn(&mut draws).program(alloc)?;
        if !is_right(alloc, &p)? {
            return Ok(false);
        }
    }
    Ok(true)
}

#[test]
fn no_allocation_is_worth_more(rt: HostRuntime) -> Result<(), Fail> {
    let alloc = rt.alloc();
    for (state, count) in &DRAWN {
        assert!(rt; are_right(alloc, *state, *count)?, "programs from {state}");
    }
    Ok(())
}
