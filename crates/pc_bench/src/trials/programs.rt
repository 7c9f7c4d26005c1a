//! Questions about a program: its counts, its bounds, and what is found of it.
ghost use Rattle.pc_program_bound.specs.Allocation.{IsProgram};

use crate::reading::read_program;
use crate::trials::numbers::{Ends, read_list, read_mult};
use crate::trials::relaxing::relaxed;
use crate::trials::searching::{found, searched, tree_found};
use crate::trials::sharing::{nested, shared};
use crate::trials::walking::walked;
use crate::trouble::Trouble;
use pc_branch::has_fit_gains;
use pc_model::Mult;
use pc_num::are_fit;
use pc_program_bound::{Program, dual_bound, is_box, is_program, lawful};
use std::alloc::{AllocError, Global};

/// The answer to a question about the program of a text.
pub(super) fn answer(alloc: Global, text: &str, asked: &str) -> Result<String, Trouble> {
    let p = read_program(alloc, text)?;
    if !is_program(&p) {
        return Err(Trouble::Program);
    }
    let (what, rest) = asked.split_once(' ').unwrap_or((asked, ""));
    answer_of(alloc, &p, what, rest)
}

fn answer_of(alloc: Global, p: &Program, what: &str, rest: &str) -> Result<String, Trouble>
    requires { IsProgram p.now }
{
    match what {
        "search" => searched(alloc, p, rest),
        "found" => found(alloc, p, rest),
        "tree" => tree_found(alloc, p, rest),
        "greedy" => shared(alloc, p),
        "nested" => nested(alloc, p),
        "relax" => relaxed(alloc, p, rest),
        "walk" => walked(alloc, p, rest),
        "bound" => bounded(alloc, p, rest),
        "lawful" => are_lawful(alloc, p, rest),
        "gains" => fit_or_wide(alloc, has_fit_gains(alloc, p)?),
        _ => Err(Trouble::Question),
    }
}

fn fit_or_wide(alloc: Global, fit: bool) -> Result<String, Trouble> {
    let text = if fit { "fit" } else { "wide" };
    Ok(String::from_str(alloc, text)?)
}

/// `yes` or `no`.
pub(super) fn yes_or_no(alloc: Global, is_so: bool) -> Result<String, AllocError> {
    String::from_str(alloc, if is_so { "yes" } else { "no" })
}

/// Whether the program allows counts.
fn are_lawful(alloc: Global, p: &Program, rest: &str) -> Result<String, Trouble>
    requires { IsProgram p.now }
{
    let counts = read_list::<u64>(alloc, rest)?;
    Ok(yes_or_no(alloc, is_lawful(p, counts.as_slice()))?)
}

pub(super) fn is_lawful(p: &Program, counts: &[u64]) -> bool
    requires { IsProgram p.now }
{
    counts.len() == p.masks.len() && lawful(p, counts)
}

/// The bound of multipliers over a box.
fn bounded(alloc: Global, p: &Program, rest: &str) -> Result<String, Trouble>
    requires { IsProgram p.now }
{
    let (ends, mult) = rest.split_once("by ").ok_or(Trouble::Question)?;
    let mult = read_mult(alloc, mult)?;
    let ends = Ends::read(alloc, p, ends)?;
    match bound_over(p, ends.floor.as_slice(), ends.cap.as_slice(), &mult)? {
        Some(bound) => Ok(format!(in alloc; "{bound}")?),
        None => Ok(String::from_str(alloc, "wide")?),
    }
}

fn bound_over(p: &Program, floor: &[u64], cap: &[u64], mult: &Mult) -> Result<Option<i128>, Trouble>
    requires { IsProgram p.now }
{
    if mult.by.len() != p.least.len() || mult.den < 1 || !are_fit(mult.by.as_slice()) {
        return Err(Trouble::Question);
    }
    if !is_box(p, floor, cap) {
        return Err(Trouble::Question);
    }
    Ok(dual_bound(p, floor, cap, mult))
}
