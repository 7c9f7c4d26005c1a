//! The relaxation of a program over a box.
ghost use Rattle.pc_program_bound.specs.Allocation.{IsProgram};

use crate::trials::numbers::{Ends, mult_text};
use crate::trouble::Trouble;
use pc_num::{Frac, are_fit};
use pc_program_bound::{Program, is_box};
use pc_simplex::{Relaxed, relax};
use std::alloc::{AllocError, Global};

/// The relaxation over a box, `FLOOR .. to CAP ..`, or over the program's own.
pub(super) fn relaxed(alloc: Global, p: &Program, rest: &str) -> Result<String, Trouble>
    requires { IsProgram p.now }
{
    let ends = Ends::read(alloc, p, rest)?;
    relaxed_over(alloc, p, ends.floor.as_slice(), ends.cap.as_slice())
}

fn relaxed_over(alloc: Global, p: &Program, floor: &[u64], cap: &[u64]) -> Result<String, Trouble>
    requires { IsProgram p.now }
{
    if !are_fit(p.gain.as_slice()) {
        return Err(Trouble::Gains);
    }
    if !is_box(p, floor, cap) {
        return Err(Trouble::Question);
    }
    let found = relax(alloc, p, floor, cap)?;
    Ok(relaxed_text(alloc, &found)?)
}

fn relaxed_text(alloc: Global, found: &Relaxed) -> Result<String, AllocError> {
    match found {
        Relaxed::Vertex { point, mult } => {
            let point = point_text(alloc, point.as_slice())?;
            let mult = mult_text(alloc, "by", mult)?;
            format!(in alloc; "vertex{point} {mult}")
        }
        Relaxed::Void { mult } => mult_text(alloc, "void by", mult),
        Relaxed::Wide { steps } => {
            let steps = steps.len();
            format!(in alloc; "wide after {steps}")
        }
        Relaxed::Stalled { steps } => {
            let steps = steps.len();
            format!(in alloc; "stalled after {steps}")
        }
    }
}

/// Counts that may be fractions, each after a blank.
fn point_text(alloc: Global, point: &[Frac]) -> Result<String, AllocError> {
    let mut text = String::new(alloc);
    for count in point {
        let more = frac_text(alloc, count)?;
        text.push_str(more.as_str())?;
    }
    Ok(text)
}

fn frac_text(alloc: Global, number: &Frac) -> Result<String, AllocError> {
    let Frac { num, den } = *number;
    if den == 1 {
        format!(in alloc; " {num}")
    } else {
        format!(in alloc; " {num}/{den}")
    }
}
