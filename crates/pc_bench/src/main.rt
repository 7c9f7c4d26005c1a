//! What the scripts of bench/ measure. Its words are tasks with `then` between them, and it prints a line for each:
//! `cells FAMILY CONSTRAINTS TIMES` divides the domain of generated constraints so often, and tells how many leaves and
//! cells there are; where that is 0, it takes in the last constraint after all others, and tells the cuts that it takes and
//! the leaves before. `search FILE NODES` searches for the greatest worth of the program of a file, and tells what was found
//! and how many nodes the tree has. `trials` asks the questions of data/trials (docs/TRIALS.md), and tells of each family how
//! many there are, and which answers differ from what is wanted.
#![tactic(auto)]

mod divide;
mod draws;
mod family;
mod reading;
mod search;
mod shops;
mod trials;
mod trouble;

use std::env;
use std::process::ExitCode;
use std::rt::{Env, Files};
use trouble::Trouble;

fn main(rt: HostRuntime) -> ExitCode {
    match run_all(&rt) {
        Ok(()) => ExitCode::from(0),
        Err(trouble) => {
            let _ = eprintln!(rt; "pc_bench: {trouble}");
            ExitCode::from(trouble.status())
        }
    }
}

fn run_all<R: Env + Files + Print + AllocGlobal + Clone + Drop>(rt: &R) -> Result<(), Trouble> {
    let words: Vec<String> = env::args(rt)?.skip(1).collect(rt.alloc())?;
    for task in words.as_slice().split(|word| word.as_str() == "then") {
        run(rt, task)?;
    }
    Ok(())
}

fn run<R: Files + Print + AllocGlobal + Clone + Drop>(
    rt: &R,
    task: &[String],
) -> Result<(), Trouble> {
    match task {
        [what, family, constraints, times] if what.as_str() == "cells" => {
            divide::tell(rt, family.as_str(), constraints.as_str(), times.as_str())
        }
        [what, file, nodes] if what.as_str() == "search" => {
            search::tell(rt, file.as_str(), nodes.as_str())
        }
        [what] if what.as_str() == "trials" => trials::tell(rt),
        _ => Err(Trouble::Usage),
    }
}
