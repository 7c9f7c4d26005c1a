//! What is tried of whole commands, over files in memory: the examples of the guide, and the trials (docs/TRIALS.md). It says of
//! each example whether its report is the one that stands beside it, and of each family of trials how many cases it has, with
//! what was wanted and what came where these differ.
#![tactic(auto)]

mod case;
mod command;
mod content;
mod difference;
mod edit;
mod example;
mod family;
mod line;
mod trial;
mod trouble;

use std::process::ExitCode;
use std::rt::Files;
use trouble::Trouble;

/// The folders of the examples.
const EXAMPLES: [&str; 21] = [
    "shop",
    "shop-prove",
    "shop-check",
    "shop-show",
    "month",
    "week",
    "covered",
    "uncovered",
    "outside",
    "parts",
    "hierarchy",
    "observed",
    "overlap",
    "groups",
    "quantile",
    "session",
    "always",
    "impossible",
    "conflict",
    "outer",
    "undecided",
];

fn main(rt: HostRuntime) -> ExitCode {
    match try_all(&rt) {
        Ok(()) => ExitCode::from(0),
        Err(_) => ExitCode::from(1),
    }
}

fn try_all<R: Files + Print + AllocGlobal + Clone + Drop>(rt: &R) -> Result<(), Trouble> {
    for folder in EXAMPLES {
        example::compare(rt, folder)?;
    }
    family::try_families(rt)
}
