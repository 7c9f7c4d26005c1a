use super::{is_allowed, is_below, solved};
use crate::plain::{Draws, Small, greatest, worth};
use pc_branch::Outcome;
use pc_program_bound::Program;
use std::alloc::Global;
use std::test::Fail;

/// The mask of a cell: any, or first those of a triangle, whose relaxed counts are often halves.
fn mask(draws: &mut Draws, is_triangle: bool, cell: usize) -> u32 {
    if is_triangle && cell < 3 {
        return if cell == 0 {
            3
        } else if cell == 1 {
            6
        } else {
            5
        };
    }
    (draws.below(7) + 1) as u32
}

pub(super) fn with_ends(draws: &mut Draws, small: Small) -> Small {
    let mut small = small;
    for place in 0..small.constraints.min(3) {
        let most = draws.below(4) + 1;
        small.least[place] = if draws.below(3) == 0 { most } else { 0 };
        small.most[place] = most;
    }
    small
}

pub(super) fn gain(draws: &mut Draws) -> i128 {
    let gain = draws.below(3) as i128 + 2;
    if draws.below(5) == 0 { 0 - gain } else { gain }
}

fn with_cells(draws: &mut Draws, small: Small, is_triangle: bool) -> Small {
    let mut small = small;
    for cell in 0..small.cells.min(4) {
        small.masks[cell] = mask(draws, is_triangle, cell);
        small.floor[cell] = draws.below(8) / 7;
        small.cap[cell] = 3 - draws.below(5) / 3;
        small.gain[cell] = gain(draws);
    }
    small
}

/// A program of three or four cells and two or three constraints.
fn drawn(draws: &mut Draws) -> Small {
    let mut small = Small::empty();
    small.constraints = draws.below(6).min(1) as usize + 2;
    let mut small = with_ends(draws, small);
    let is_triangle = draws.below(6) > 0;
    small.cells = draws.below(2) as usize + 3;
    with_cells(draws, small, is_triangle)
}

/// What an answer is by the plain search.
#[derive(Clone, Copy)]
pub(super) enum Verdict {
    Wrong,
    Open,
    Settled,
}

fn if_right(is_right: bool, said: Verdict) -> Verdict {
    if is_right { said } else { Verdict::Wrong }
}

/// Whether the plain search finds no more than what is said, and as much as that where the search came to its end.
pub(super) fn said_of(p: &Program, greatest: Option<i128>, outcome: &Outcome) -> Verdict {
    match outcome {
        Outcome::Best {
            counts,
            value,
            tree: _tree,
        } => {
            let counts = counts.as_slice();
            let is_worth = greatest == Some(*value) && worth(p, counts) == *value;
            if_right(is_worth && is_allowed(p, counts), Verdict::Settled)
        }
        Outcome::Nothing { tree: _tree } => if_right(greatest.is_none(), Verdict::Settled),
        Outcome::Spent {
            bound,
            found,
            tree: _tree,
        } => {
            let is_least = greatest.unwrap_or(i128::MIN) <= *bound;
            if_right(is_least && is_below(p, found, *bound), Verdict::Open)
        }
    }
}

fn said(alloc: Global, p: &Program, greatest: Option<i128>, nodes: u32) -> Result<Verdict, Fail> {
    let outcome = solved(alloc, p, nodes)?;
    Ok(said_of(p, greatest, &outcome))
}

/// Whether what is said with two, three and five nodes is right, and with many settles the program.
fn is_right(alloc: Global, p: &Program, greatest: Option<i128>) -> Result<bool, Fail> {
    for nodes in [2, 3, 5] {
        if let Verdict::Wrong = said(alloc, p, greatest, nodes)? {
            return Ok(false);
        }
    }
    match said(alloc, p, greatest, 10_000)? {
        Verdict::Settled => Ok(true),
        _ => Ok(false),
    }
}

/// Whether one node leaves a bound; none where an answer is wrong.
fn is_left_open(alloc: Global, p: &Program) -> Result<Option<bool>, Fail> {
    let greatest = greatest(p);
    if !is_right(alloc, p, greatest)? {
        return Ok(None);
    }
    match said(alloc, p, greatest, 1)? {
        Verdict::Wrong => Ok(None),
        Verdict::Open => Ok(Some(true)),
        Verdict::Settled => Ok(Some(false)),
    }
}

fn is_split(alloc: Global, small: &Small) -> Result<Option<bool>, Fail> {
    let p = small.program(alloc)?;
    is_left_open(alloc, &p)
}

#[test]
fn small_programs(rt: HostRuntime) -> Result<(), Fail> {
    let alloc = rt.alloc();
    let mut draws = Draws { state: 16 };
    let mut split = 0u32;
    for place in 0..300 {
        let found = is_split(alloc, &drawn(&mut draws))?;
        assert!(rt; found.is_some(), "program {place}");
        if found == Some(true) {
            split = split.saturating_add(1);
        }
    }
    // As many programs need more than one node by a reference implementation.
    assert_eq!(rt; split, 30);
    Ok(())
}
