mod drawn;
mod nested;

use crate::plain::worth;
use pc_branch::{Outcome, has_fit_gains, solve};
use pc_list::Seq;
use pc_program_bound::{Program, is_program, lawful};
use std::alloc::Global;
use std::test::Fail;

/// What a search says of a program whose numbers are in order.
fn solved(alloc: Global, p: &Program, nodes: u32) -> Result<Outcome, Fail> {
    if !is_program(p) || nodes < 1 || nodes > 100_000 {
        return Err(Fail::new("no program"));
    }
    if !has_fit_gains(alloc, p)? {
        return Err(Fail::new("wide gains"));
    }
    Ok(solve(alloc, p, nodes)?)
}

/// Whether the program allows the counts.
fn is_allowed(p: &Program, counts: &[u64]) -> bool {
    if !is_program(p) || counts.len() != p.masks.len() {
        return false;
    }
    lawful(p, counts)
}

/// Whether what was found, if anything, is allowed and worth less than the bound.
fn is_below(p: &Program, found: &Option<Seq<u64>>, bound: i128) -> bool {
    match found {
        Some(counts) => {
            let counts = counts.as_slice();
            is_allowed(p, counts) && worth(p, counts) < bound
        }
        None => true,
    }
}
