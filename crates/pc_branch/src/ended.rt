ghost use Rattle.std.specs.Prelude.{◌≡◌, ◌≤◌, ◌<◌, IfOk, MatchOption, ⊤};
ghost use Rattle.pc_program_bound.specs.Allocation.{IsProgram};
ghost use Rattle.pc_program_bound.specs.Bound.{HasFitWidth};
ghost use Rattle.pc_branch.specs.Licence.{no_multipliers};
ghost use Rattle.pc_branch.specs.Outcome.{IsOutcome};
ghost use Rattle.pc_branch.specs.Steps.{budget_of, counts_found, IsAt, outcome_of};

use crate::outcome::Outcome;
use crate::search::{Found, Hand, Search, is_worth};
use crate::tree::tree_of;
use pc_list::Seq;
use pc_model::Tree;
use pc_num::Memory;
use pc_program_bound::Program;
use std::alloc::Global;

/// What a search has come to that is over, or has no room to split a node.
pub(crate) fn outcome(
    alloc: Global,
    p: &Program,
    search: Search,
    hand: Option<Hand>,
) -> Result<Outcome, Memory>
    requires program { IsProgram p.now }
    requires width { HasFitWidth p.now (no_multipliers p.now) }
    requires few { budget_of search ≤ 100_000 }
    requires at { IsAt p.now search hand }
    requires spent { MatchOption hand ⊤ (λ _. search.frontier.room < 2) }
    ensures { IfOk result (IsOutcome p.now (budget_of search)) }
{
    let tree = tree_of(alloc, &search.frontier, search.visited.as_slice())?;
    let Search {
        frontier: _,
        visited: _,
        found,
        halted,
    } = search;
    Ok(outcome_of(hand, found, halted, tree))
}

/// A node that is left, or a bound that halted the search above what was found, leaves it open; else what was found is
/// the best.
fn outcome_of(hand: Option<Hand>, found: Option<Found>, halted: Option<i128>, tree: Tree) -> Outcome
    ensures { result ≡ outcome_of hand found halted tree }
{
    if let Some(hand) = hand {
        return spent(hand.bound, found, tree);
    }
    if let Some(bound) = halted {
        if !is_worth(&found, bound) {
            return spent(bound, found, tree);
        }
    }
    match found {
        Some(Found { counts, value }) => Outcome::Best {
            counts,
            value,
            tree,
        },
        None => Outcome::Nothing { tree },
    }
}

fn spent(bound: i128, found: Option<Found>, tree: Tree) -> Outcome
    ensures { result ≡ Outcome.Spent bound (counts_found found) tree }
{
    Outcome::Spent {
        bound,
        found: counts_of(found),
        tree,
    }
}

fn counts_of(found: Option<Found>) -> Option<Seq<u64>>
    ensures { result ≡ counts_found found }
{
    match found {
        Some(Found { counts, value: _ }) => Some(counts),
        None => None,
    }
}
