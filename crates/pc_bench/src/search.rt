use crate::reading::read_program;
use crate::trouble::Trouble;
use pc_branch::{Outcome, has_fit_gains, solve};
use pc_program_bound::{Program, is_program};
use std::alloc::Global;
use std::fs;
use std::rt::Files;

/// The greatest number of nodes that a search may be given.
const GREATEST: u32 = 100_000;

/// Searches for the greatest worth of the program of a file, and prints what came of it.
pub(crate) fn tell<R: Files + Print + AllocGlobal>(
    rt: &R,
    file: &str,
    nodes: &str,
) -> Result<(), Trouble> {
    let nodes = nodes.parse::<u32>().map_err(|_| Trouble::Usage)?;
    let text = fs::read_to_string(rt, file)?;
    let program = read_program(rt.alloc(), text.as_str())?;
    let outcome = search(rt.alloc(), &program, nodes)?;
    tell_outcome(rt, &program, &outcome)
}

fn tell_outcome(rt: &impl Print, program: &Program, outcome: &Outcome) -> Result<(), Trouble> {
    match outcome {
        Outcome::Best { value, tree, .. } => {
            let nodes = tree.nodes.len();
            println!(rt; "best {value} nodes {nodes}")?;
        }
        Outcome::Nothing { tree } => {
            let nodes = tree.nodes.len();
            println!(rt; "nothing nodes {nodes}")?;
        }
        Outcome::Spent { bound, found, tree } => {
            let nodes = tree.nodes.len();
            match found {
                Some(counts) => {
                    let value = worth(program, counts.as_slice())?;
                    println!(rt; "spent {bound} found {value} nodes {nodes}")?;
                }
                None => println!(rt; "spent {bound} found none nodes {nodes}")?,
            }
        }
    }
    Ok(())
}

/// Searches for the greatest worth of a program by a tree of so many nodes.
pub(crate) fn search(alloc: Global, p: &Program, nodes: u32) -> Result<Outcome, Trouble> {
    if nodes == 0 || nodes > GREATEST {
        return Err(Trouble::Usage);
    }
    if !is_program(p) {
        return Err(Trouble::Program);
    }
    if !has_fit_gains(alloc, p)? {
        return Err(Trouble::Gains);
    }
    Ok(solve(alloc, p, nodes)?)
}

/// What counts are worth.
pub(crate) fn worth(p: &Program, counts: &[u64]) -> Result<i128, Trouble> {
    let mut sum = 0i128;
    for (gain, count) in p.gain.as_slice().iter().zip(counts) {
        let part = gain.checked_mul(i128::from(*count)).ok_or(Trouble::Gains)?;
        sum = sum.checked_add(part).ok_or(Trouble::Gains)?;
    }
    Ok(sum)
}
