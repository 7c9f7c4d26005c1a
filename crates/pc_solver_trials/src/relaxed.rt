mod beside;
mod drawn;
mod reference;
mod whole;

use self::beside::is_end;
use self::whole::{steps_of, whole};
use crate::lists::Lists;
use pc_num::are_fit;
use pc_program_bound::{Program, is_box, is_program};
use pc_simplex::{Relaxed, Step, relax};
use std::alloc::Global;
use std::test::Fail;

/// The relaxation of a box that is one of the program's.
fn relaxed(alloc: Global, p: &Program, floor: &[u64], cap: &[u64]) -> Result<Relaxed, Fail> {
    if !is_program(p) || !are_fit(p.gain.as_slice()) {
        return Err(Fail::new("no program"));
    }
    if !is_box(p, floor, cap) {
        return Err(Fail::new("no box"));
    }
    Ok(relax(alloc, p, floor, cap)?)
}

/// Whether the relaxation of the program's own box, which takes the steps over rows in short form first, is what the steps
/// over whole rows end in.
fn is_as_whole(alloc: Global, p: &Program, found: &Relaxed) -> Result<bool, Fail> {
    let (floor, cap) = (p.floor.as_slice(), p.cap.as_slice());
    let end = whole(alloc, p, floor, cap)?;
    Ok(is_end(p, floor, cap, found, &end))
}

// The gains of three cells that are each in two of three constraints, which allow one row each.
static GAINS: [[i128; 3]; 2] = [[1, 1, 1], [GREAT, GREAT, GREAT]];

// A gain with which rows in short form are given up.
const GREAT: i128 = (1 << 86) + 1;

fn triangle(alloc: Global, gain: &[i128]) -> Result<Program, Fail> {
    let lists = Lists {
        masks: &[3, 6, 5],
        least: &[0, 0, 0],
        most: &[1, 1, 1],
        floor: &[0, 0, 0],
        cap: &[1, 1, 1],
        gain,
    };
    Ok(lists.program(alloc)?)
}

static STEPS: [Step; 4] = [
    Step {
        enters: 0,
        leaves: 0,
    },
    Step {
        enters: 1,
        leaves: 4,
    },
    Step {
        enters: 2,
        leaves: 3,
    },
    Step {
        enters: 0,
        leaves: 5,
    },
];

fn takes_steps(alloc: Global, p: &Program, steps: &[Step]) -> Result<bool, Fail> {
    let end = whole(alloc, p, p.floor.as_slice(), p.cap.as_slice())?;
    Ok(steps_of(&end) == steps)
}

#[test]
fn steps_of_a_triangle(rt: HostRuntime) -> Result<(), Fail> {
    let alloc = rt.alloc();
    for (place, gain) in GAINS.iter().enumerate() {
        let p = triangle(alloc, gain)?;
        let is_found = ends_alike(alloc, &p)? && takes_steps(alloc, &p, &STEPS)?;
        assert!(rt; is_found, "program {place}");
    }
    Ok(())
}

// Six triangles: each three constraints of which two share a cell, twice.
static TRIANGLES: Lists<'static> = Lists {
    masks: &[
        3,
        5,
        6,
        3 << 3,
        5 << 3,
        6 << 3,
        3 << 6,
        5 << 6,
        6 << 6,
        3 << 9,
        5 << 9,
        6 << 9,
        3 << 12,
        5 << 12,
        6 << 12,
        3 << 15,
        5 << 15,
        6 << 15,
    ],
    least: &[0; 18],
    most: &[1; 18],
    floor: &[0; 18],
    cap: &[1; 18],
    gain: &[3, 5, 6, 3, 5, 6, 3, 5, 6, 3, 5, 6, 3, 5, 6, 3, 5, 6],
};

fn ends_alike(alloc: Global, p: &Program) -> Result<bool, Fail> {
    let found = relaxed(alloc, p, p.floor.as_slice(), p.cap.as_slice())?;
    is_as_whole(alloc, p, &found)
}

#[test]
fn a_program_of_many_constraints_ends_alike(rt: HostRuntime) -> Result<(), Fail> {
    let alloc = rt.alloc();
    let p = TRIANGLES.program(alloc)?;
    assert!(rt; ends_alike(alloc, &p)?);
    Ok(())
}
