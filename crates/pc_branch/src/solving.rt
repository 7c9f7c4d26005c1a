ghost use Rattle.std.specs.Prelude.{◌≡◌, ◌≤◌, ◌<◌, ℕ, All, IfOk, MatchOption, ⊤};
ghost use Rattle.pc_program_bound.specs.Allocation.{IsProgram};
ghost use Rattle.pc_program_bound.specs.Bound.{IsFit, HasFitWidth};
ghost use Rattle.pc_branch.specs.Licence.{no_multipliers};
ghost use Rattle.pc_branch.specs.Outcome.{IsOutcome, IsDecided, IsEasyProgram};
ghost use Rattle.pc_branch.specs.Steps.{budget_of, IsAt};

use crate::ended::outcome;
use crate::one_leaf::in_one_leaf;
use crate::outcome::Outcome;
use crate::search::{Hand, Search};
use crate::start::start;
use pc_nested::{is_nested, solve_nested};
use pc_num::Memory;
use pc_program::{greedy, has_one_bits};
use pc_program_bound::Program;
use std::alloc::Global;

/// The greatest worth of a program, by a tree of at most so many nodes. Where any two constraints share no cell or one is
/// inside the other, there are at most 40 cells, and each gain is below 2^87 in size, it is found without a search.
pub fn solve(alloc: Global, p: &Program, nodes: u32) -> Result<Outcome, Memory>
    requires program { IsProgram p.now }
    requires width { HasFitWidth p.now (no_multipliers p.now) }
    requires nodes { (1 ≤ nodes) × (nodes ≤ 100_000) }
    ensures outcome { IfOk result (IsOutcome p.now nodes) }
    ensures nested { IsEasyProgram p.now → IfOk result IsDecided }
{
    if has_one_bits(p) {
        return in_one_leaf(alloc, greedy(alloc, p)?, nodes);
    }
    if is_nested(p) {
        return in_one_leaf(alloc, solve_nested(alloc, p)?, nodes);
    }
    search(alloc, p, nodes)
}

fn search(alloc: Global, p: &Program, nodes: u32) -> Result<Outcome, Memory>
    requires program { IsProgram p.now }
    requires width { HasFitWidth p.now (no_multipliers p.now) }
    requires nodes { (1 ≤ nodes) × (nodes ≤ 100_000) }
    ensures { IfOk result (IsOutcome p.now nodes) }
{
    let (mut search, hand) = start(alloc, p, nodes)?;
    let hand = go_on(alloc, p, &mut search, hand)?;
    outcome(alloc, p, search, hand)
}

/// Splits node after node, until the search is over or there is no room. It answers the node that there was no room for.
fn go_on(
    alloc: Global,
    p: &Program,
    search: &mut Search,
    hand: Option<Hand>,
) -> Result<Option<Hand>, Memory>
    requires program { IsProgram p.now }
    requires width { HasFitWidth p.now (no_multipliers p.now) }
    requires few { budget_of search.old ≤ 100_000 }
    requires at { IsAt p.now search.old hand }
    ensures at { IfOk result (λ hand. IsAt p.now search.new hand) }
    ensures spent { IfOk result (λ hand. MatchOption hand ⊤ (λ _. search.new.frontier.room < 2)) }
    ensures budget { IfOk result (λ _. budget_of search.new ≡ budget_of search.old) }
{
    let mut hand = hand;
    while let Some(next) = hand {
        if search.frontier.room() < 2 {
            return Ok(hand);
        }
        let first = search.divide(alloc, p, next)?;
        hand = search.pick_child(first);
    }
    Ok(None)
}
