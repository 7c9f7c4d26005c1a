use super::beside::is_end;
use super::relaxed;
use super::whole::{steps_of, whole};
use crate::lists::Lists;
use pc_model::Mult;
use pc_num::{Frac, Memory, put_frac, put_scaled};
use pc_program_bound::Program;
use pc_simplex::{Relaxed, Step};
use std::alloc::Global;
use std::test::Fail;

// Masks, the least and the most of the constraints, and the caps and gains of the cells.
type Numbers = ([u32; 4], [u64; 3], [u64; 3], [u64; 4], [i128; 4]);

const BIG: i128 = 1 << 122;

// A program, the floors and the caps of a box, the relaxation, and the steps on the way to it, as a reference
// implementation has them.
type Case = (Numbers, [u64; 4], [u64; 4], &'static str, &'static str);

static CASES: [Case; 20] = [
    (
        (
            [1, 2, 6, 1],
            [1, 4, 2],
            [1, 5, 5],
            [5, 3, 4, 1],
            [-4, -3, 0, -1],
        ),
        [0, 3, 2, 1],
        [1, 3, 3, 1],
        "vertex 0 3 2 1 by 0 0 0 over 1",
        "",
    ),
    (
        (
            [4, 7, 2, 7],
            [0, 1, 0],
            [3, 3, 2],
            [3, 2, 0, 3],
            [7, 7, -8, -8],
        ),
        [0, 0, 0, 0],
        [3, 2, 0, 3],
        "vertex 1 1 0 0 by 0 0 7 over 1",
        "1-8 0-6",
    ),
    (
        (
            [5, 5, 2, 6],
            [0, 0, 4],
            [3, 3, 5],
            [1, 5, 2, 3],
            [-8, 8, -5, -4],
        ),
        [0, 0, 0, 0],
        [1, 5, 2, 3],
        "vertex 0 3 0 1 by 12 0 -4 over 1",
        "0-0 1-4 3-9 0-0",
    ),
    (
        (
            [6, 5, 6, 2],
            [0, 4, 5],
            [5, 6, 6],
            [3, 5, 5, 4],
            [-5, 7, 7, 9],
        ),
        [0, 0, 0, 0],
        [3, 5, 5, 4],
        "vertex 0 5 1 4 by 0 0 7 over 1",
        "0-0 1-9 2-8 0-0 3-1 5-3 6-6",
    ),
    (
        (
            [6, 5, 4, 7],
            [2, 2, 2],
            [3, 3, 4],
            [1, 1, 5, 1],
            [-7, 9, 0, 7],
        ),
        [0, 0, 0, 0],
        [1, 1, 5, 1],
        "vertex 1 1 0 1 by 0 -7 0 over 1",
        "0-0 1-1 2-9 3-2 0-0 1-3 6-1 0-0 0-8",
    ),
    (
        (
            [5, 6, 4, 3],
            [0, 5, 3],
            [6, 6, 6],
            [5, 3, 0, 5],
            [8, -7, -5, -9],
        ),
        [0, 0, 0, 0],
        [5, 3, 0, 5],
        "vertex 7/2 5/2 0 5/2 by 3 -12 5 over 1",
        "0-9 1-0 3-8 0-4 6-6",
    ),
    (
        (
            [3, 6, 4, 5],
            [3, 1, 5],
            [4, 5, 6],
            [4, 5, 1, 3],
            [1, -7, 8, -8],
        ),
        [0, 0, 0, 0],
        [4, 5, 1, 3],
        "vertex 5/2 5/2 1 3/2 by 0 1 -8 over 1",
        "0-8 2-2 3-7 1-0 4-3 5-9 0-4 3-5",
    ),
    (
        (
            [5, 3, 6, 7],
            [4, 3, 0],
            [5, 6, 4],
            [5, 3, 5, 1],
            [0, -9, -4, 7],
        ),
        [0, 0, 0, 0],
        [5, 3, 5, 1],
        "vertex 2 1 1 1 by -5 -13 5 over 2",
        "0-6 1-7 2-8 3-3",
    ),
    (
        (
            [6, 5, 3, 3],
            [1, 1, 1],
            [5, 2, 4],
            [2, 5, 5, 5],
            [-4, 4, -3, -1],
        ),
        [0, 0, 0, 0],
        [2, 5, 5, 5],
        "vertex 0 4 0 1 by 7 -9 1 over 2",
        "0-8 1-9 2-7 3-2 4-0 6-4 0-6",
    ),
    (
        (
            [5, 5, 3, 6],
            [2, 2, 3],
            [4, 5, 5],
            [3, 0, 3, 3],
            [5, 2, 2, -8],
        ),
        [0, 0, 0, 0],
        [3, 0, 3, 3],
        "vertex 5/2 0 3/2 1/2 by 15 -11 -5 over 2",
        "0-7 3-9 2-8 4-4",
    ),
    (
        (
            [5, 3, 7, 6],
            [1, 2, 3],
            [2, 3, 6],
            [3, 5, 3, 3],
            [-5, 1, -4, -3],
        ),
        [0, 0, 0, 0],
        [3, 5, 3, 3],
        "vertex 1/2 1/2 0 5/2 by -1 3 -9 over 2",
        "0-7 2-0 3-8 0-2 4-9 5-4 1-5",
    ),
    (
        (
            [5, 5, 4, 1],
            [1, 0, 2],
            [6, 1, 4],
            [3, 1, 4, 0],
            [9, 0, 8, -4],
        ),
        [1, 0, 4, 0],
        [2, 0, 4, 0],
        "void by 0 0 1 over 1",
        "",
    ),
    (
        (
            [7, 5, 6, 5],
            [3, 3, 0],
            [5, 4, 1],
            [2, 0, 5, 1],
            [-8, -1, -6, 5],
        ),
        [0, 0, 0, 0],
        [2, 0, 5, 1],
        "void by -1 -1 2 over 1",
        "0-6",
    ),
    (
        (
            [6, 1, 4, 3],
            [4, 0, 0],
            [4, 4, 2],
            [1, 0, 0, 2],
            [-1, -8, -4, -1],
        ),
        [0, 0, 0, 0],
        [1, 0, 0, 2],
        "void by -1 0 0 over 1",
        "1-1 3-3",
    ),
    (
        (
            [5, 7, 5, 1],
            [3, 3, 0],
            [4, 5, 2],
            [5, 3, 4, 1],
            [-8, 8, 7, -5],
        ),
        [0, 0, 0, 0],
        [5, 3, 4, 1],
        "void by -1 -1 2 over 1",
        "0-6 1-0 3-3",
    ),
    (
        (
            [1, 7, 4, 7],
            [1, 2, 2],
            [1, 5, 4],
            [5, 1, 0, 5],
            [0, 1, 3, -4],
        ),
        [0, 0, 0, 0],
        [5, 1, 0, 5],
        "void by 2 -1 -1 over 1",
        "0-7 1-0 2-2 4-1 3-4",
    ),
    (
        (
            [7, 1, 7, 2],
            [3, 0, 3],
            [6, 4, 5],
            [4, 4, 0, 3],
            [-6 * BIG, -6 * BIG, -3 * BIG, -7 * BIG],
        ),
        [3, 3, 0, 0],
        [4, 3, 0, 1],
        "wide",
        "",
    ),
    (
        (
            [2, 3, 6, 6],
            [0, 0, 1],
            [4, 1, 4],
            [1, 4, 3, 3],
            [0, -6 * BIG, 9 * BIG, 0],
        ),
        [0, 0, 0, 0],
        [1, 4, 3, 3],
        "wide",
        "2-5",
    ),
    (
        (
            [3, 5, 5, 4],
            [0, 0, 3],
            [2, 3, 5],
            [2, 2, 5, 5],
            [2 * BIG, 7 * BIG, -3 * BIG, -6 * BIG],
        ),
        [0, 0, 0, 0],
        [2, 2, 5, 5],
        "wide",
        "1-1 2-4 3-9",
    ),
    (
        (
            [3, 4, 3, 5],
            [1, 1, 1],
            [3, 6, 2],
            [3, 0, 4, 3],
            [-6 * BIG, -7 * BIG, -7 * BIG, 4 * BIG],
        ),
        [0, 0, 0, 0],
        [3, 0, 4, 3],
        "wide",
        "0-7 1-1 4-8 3-9 1-1 6-4",
    ),
];

fn put_mult(alloc: Global, text: &mut Vec<u8>, mult: &Mult) -> Result<(), Memory> {
    text.extend_from_slice(b" by")?;
    for number in mult.by.as_slice() {
        text.push(b' ')?;
        put_scaled(alloc, text, *number, 0)?;
    }
    text.extend_from_slice(b" over ")?;
    put_scaled(alloc, text, mult.den, 0)
}

fn put_point(alloc: Global, text: &mut Vec<u8>, point: &[Frac]) -> Result<(), Memory> {
    for count in point {
        text.push(b' ')?;
        put_frac(alloc, text, count)?;
    }
    Ok(())
}

/// The relaxation in words.
fn words_of(alloc: Global, relaxed: &Relaxed) -> Result<Vec<u8>, Memory> {
    let mut text = Vec::new(alloc);
    match relaxed {
        Relaxed::Vertex { point, mult } => {
            text.extend_from_slice(b"vertex")?;
            put_point(alloc, &mut text, point.as_slice())?;
            put_mult(alloc, &mut text, mult)?;
        }
        Relaxed::Void { mult } => {
            text.extend_from_slice(b"void")?;
            put_mult(alloc, &mut text, mult)?;
        }
        Relaxed::Wide { steps: _steps } => text.extend_from_slice(b"wide")?,
        Relaxed::Stalled { steps: _steps } => text.extend_from_slice(b"stalled")?,
    }
    Ok(text)
}

/// The steps, as pairs of the columns that enter and decide.
fn pairs_of(alloc: Global, steps: &[Step]) -> Result<Vec<u8>, Memory> {
    let mut text = Vec::new(alloc);
    for (place, step) in steps.iter().enumerate() {
        if place > 0 {
            text.push(b' ')?;
        }
        put_scaled(alloc, &mut text, i128::from(step.enters), 0)?;
        text.push(b'-')?;
        put_scaled(alloc, &mut text, i128::from(step.leaves), 0)?;
    }
    Ok(text)
}

fn has_words(alloc: Global, relaxed: &Relaxed, wanted: &str) -> Result<bool, Memory> {
    let words = words_of(alloc, relaxed)?;
    Ok(words.as_slice() == wanted.as_bytes())
}

fn has_steps(alloc: Global, steps: &[Step], wanted: &str) -> Result<bool, Memory> {
    let pairs = pairs_of(alloc, steps)?;
    Ok(pairs.as_slice() == wanted.as_bytes())
}

/// Whether the steps are those of the case, and the relaxation is what they end in.
fn has_end(alloc: Global, p: &Program, case: &Case, found: &Relaxed) -> Result<bool, Fail> {
    let (_, floor, cap, _, pairs) = case;
    let end = whole(alloc, p, floor, cap)?;
    Ok(is_end(p, floor, cap, found, &end) && has_steps(alloc, steps_of(&end), pairs)?)
}

fn is_case(alloc: Global, p: &Program, case: &Case) -> Result<bool, Fail> {
    let (_, floor, cap, words, _) = case;
    let found = relaxed(alloc, p, floor, cap)?;
    Ok(has_words(alloc, &found, words)? && has_end(alloc, p, case, &found)?)
}

fn is_right(alloc: Global, case: &Case) -> Result<bool, Fail> {
    let (masks, least, most, cap, gain) = &case.0;
    let lists = Lists {
        masks,
        least,
        most,
        floor: &[0, 0, 0, 0],
        cap,
        gain,
    };
    is_case(alloc, &lists.program(alloc)?, case)
}

#[test]
fn relaxations_of_small_programs(rt: HostRuntime) -> Result<(), Fail> {
    let alloc = rt.alloc();
    for (place, case) in CASES.iter().enumerate() {
        assert!(rt; is_right(alloc, case)?, "relaxation {place}");
    }
    Ok(())
}
