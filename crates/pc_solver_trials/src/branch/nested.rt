use super::drawn::{Verdict, gain, said_of, with_ends};
use super::solved;
use crate::plain::{Draws, Small, greatest};
use pc_branch::Outcome;
use pc_nested::is_nested;
use pc_program_bound::is_program;
use std::alloc::Global;
use std::test::Fail;

/// The masks of cells of constraints each inside the one before, of two inside a third, of one inside another and one
/// apart, of two that are equal, of three that are, and of three apart.
static FAMILIES: [[u32; 4]; 6] = [
    [0, 1, 3, 7],
    [0, 1, 3, 5],
    [0, 1, 3, 4],
    [0, 3, 7, 3],
    [0, 7, 7, 7],
    [0, 1, 2, 4],
];

fn with_cells(draws: &mut Draws, small: Small, family: usize) -> Small {
    let mut small = small;
    let masks = FAMILIES[family % 6];
    for cell in 0..small.cells.min(4) {
        small.masks[cell] = masks[draws.below(4) as usize % 4];
        small.floor[cell] = draws.below(8) / 7;
        small.cap[cell] = 3 - draws.below(5) / 3;
        small.gain[cell] = gain(draws).saturating_sub(2);
    }
    small
}

/// A program of three or four cells and three nested constraints.
fn drawn(draws: &mut Draws) -> Small {
    let mut small = Small::empty();
    small.constraints = 3;
    let mut small = with_ends(draws, small);
    small.cells = draws.below(2) as usize + 3;
    let family = draws.below(6) as usize;
    with_cells(draws, small, family)
}

fn has_one_leaf(outcome: &Outcome) -> bool {
    match outcome {
        Outcome::Best {
            counts: _counts,
            value: _value,
            tree,
        } => tree.nodes.len() == 1,
        Outcome::Nothing { tree } => tree.nodes.len() == 1,
        Outcome::Spent {
            bound: _bound,
            found: _found,
            tree: _tree,
        } => false,
    }
}

/// Whether one node finds what the plain search finds; and whether that is no counts.
fn is_settled(alloc: Global, small: &Small) -> Result<Option<bool>, Fail> {
    let p = small.program(alloc)?;
    if !is_program(&p) || !is_nested(&p) {
        return Ok(None);
    }
    let greatest = greatest(&p);
    let outcome = solved(alloc, &p, 1)?;
    if !has_one_leaf(&outcome) {
        return Ok(None);
    }
    match said_of(&p, greatest, &outcome) {
        Verdict::Settled => Ok(Some(greatest.is_none())),
        _ => Ok(None),
    }
}

#[test]
fn small_nested_programs(rt: HostRuntime) -> Result<(), Fail> {
    let alloc = rt.alloc();
    let mut draws = Draws { state: 17 };
    let mut void = 0u32;
    for place in 0..500 {
        let found = is_settled(alloc, &drawn(&mut draws))?;
        assert!(rt; found.is_some(), "program {place}");
        if found == Some(true) {
            void = void.saturating_add(1);
        }
    }
    assert!(rt; void > 50 && void < 450, "{void} without counts");
    Ok(())
}
