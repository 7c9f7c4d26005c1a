ghost use Rattle.std.specs.Prelude.{◌≡◌, ◌≤◌, nat_abs, length, All, IfOk};
ghost use Rattle.pc_program_bound.specs.Allocation.{IsProgram};
ghost use Rattle.pc_branch.specs.Ends.{HasSmallGains};
ghost use Rattle.pc_branch.specs.Outcome.{IsOutcome, IsDecided};
ghost use Rattle.pc_agg_search.specs.Limits.{greatest_gain, IsSought, IsClosed};
ghost use Rattle.pc_agg_search.specs.Problem.{IsEasyFor, IsPosed, gained_program};

use crate::gains::gained_program;
use crate::problem::Problem;
use pc_branch::{Outcome, solve};
use pc_list::Seq;
use pc_model::Tree;
use pc_num::Memory;
use pc_program_bound::Program;
use std::alloc::Global;

/// The most that an allocation of a program can be worth, with the tree that shows it, and the best allocation that was
/// found. It is worth less where the budget of nodes was spent.
#[derive(Debug, Drop)]
pub struct Limit {
    pub program: Program,
    pub most: i128,
    pub tree: Tree,
    pub found: Option<Seq<u64>>,
}

/// What a search says of a program. The tree of a program without allocations has void leaves alone.
#[derive(Debug, Drop)]
pub enum Sought {
    Within(Limit),
    Nothing(Tree),
}

/// Searches the program of the cells' counts with these gains, by a tree of at most so many nodes.
pub fn seek(alloc: Global, problem: &Problem<'_>, gains: Seq<i128>) -> Result<Sought, Memory>
    requires posed { IsPosed problem.now }
    requires sized { length gains ≡ length problem.now.cells.now.cells }
    requires small_gains { All (λ gain. nat_abs gain ≤ greatest_gain) gains }
    ensures sought { IfOk result (IsSought (gained_program problem.now gains) problem.now.nodes) }
    ensures nested { IsEasyFor problem.now → IfOk result (IsClosed (gained_program problem.now gains)) }
{
    let program = gained_program(alloc, problem, gains)?;
    let outcome = solve(alloc, &program, problem.nodes)?;
    Ok(sought_of(program, outcome, problem.nodes))
}

/// What an outcome says of its program.
fn sought_of(program: Program, outcome: Outcome, nodes: u32) -> Sought
    requires program { IsProgram program }
    requires small { HasSmallGains program }
    requires outcome { IsOutcome program nodes outcome }
    ensures sought { IsSought program nodes result }
    ensures decided { IsDecided outcome → IsClosed program result }
{
    match outcome {
        Outcome::Best {
            counts,
            value,
            tree,
        } => Sought::Within(Limit {
            program,
            most: value,
            tree,
            found: Some(counts),
        }),
        Outcome::Nothing { tree } => Sought::Nothing(tree),
        Outcome::Spent { bound, found, tree } => Sought::Within(Limit {
            program,
            most: bound,
            tree,
            found,
        }),
    }
}
