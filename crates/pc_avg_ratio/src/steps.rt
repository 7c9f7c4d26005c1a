ghost use Rattle.std.specs.Prelude.{◌≡◌, ◌≤◌, ◌^◌, pos, nat_abs, ◌*ℤ◌, ◌<ℤ◌, IfOk};
ghost use Rattle.pc_program_bound.specs.Allocation.{worth};
ghost use Rattle.pc_branch.specs.Outcome.{IsEasyProgram, IsOutcome};
ghost use Rattle.pc_proof.specs.Table.{ratio_of};
ghost use Rattle.pc_avg_ratio.specs.declared.highest.Highest.TheVariants as highests;
ghost use Rattle.pc_avg_ratio.specs.declared.steps.Step.TheVariants as steps;
ghost use Rattle.pc_avg_ratio.specs.Average.{IsAsked, IsStepOver, outcome_of};
ghost use Rattle.pc_avg_ratio.specs.Fractional.{program_at, ratio_with, rows_with, IsFractional, IsLawful, IsOutermost};
ghost use Rattle.pc_avg_ratio.specs.Highest.{IsHighest, IsStepSurely, IsStepWithin, IsSpent, IsSurely};
ghost use Rattle.pc_avg_ratio.specs.Steps.{AreBest, IsProgramAt, IsStanding};

use crate::average::Average;
use crate::fractional::{Fractional, excess, over_before, rows_with};
use crate::highest::Highest;
use crate::programs::program_at;
use crate::raised::raised;
use crate::standing::{Standing, standing_at};
use pc_agg_search::flat_tree;
use pc_branch::{Outcome, solve};
use pc_list::Seq;
use pc_model::Tree;
use pc_num::Memory;
use pc_program_bound::{Program, tree_bound};
use std::alloc::Global;

/// More rows than there can be.
const TOO_MANY_ROWS: u64 = 201_000_001;

/// How often the steps go on from counts of a spent search, which need not have fewer rows.
const TRIES: u32 = 3;

/// A greater ratio, or what the steps end in.
#[derive(Debug, Drop)]
pub(crate) enum Step {
    Better(Standing),
    End(Highest),
}

/// What a search leaves whose budget is spent.
#[derive(Debug, Drop)]
pub(crate) struct SpentSearch {
    pub bound: i128,
    pub found: Option<Seq<u64>>,
    pub tree: Tree,
}

/// The greatest ratio, from counts with a row on: while the best counts at a ratio have a greater one, they have fewer rows.
/// Each step searches one program by a tree of at most so many nodes. No row has a number above the outermost.
pub fn greatest_ratio(
    alloc: Global,
    f: &Fractional,
    outermost: i128,
    start: Seq<u64>,
    nodes: u32,
) -> Result<Highest, Memory>
    requires fractional { IsFractional f.now }
    requires outermost { IsOutermost f.now outermost }
    requires lawful { IsLawful f.now start }
    requires some { pos 0 <ℤ rows_with f.now start }
    requires nodes { (1 ≤ nodes) × (nodes ≤ 100_000) }
    ensures highest { IfOk result (IsHighest f.now outermost nodes (ratio_with f.now start)) }
    ensures nested { IsEasyProgram f.now.rows → IfOk result IsSurely }
{
    let average = Average {
        fraction: f,
        outermost,
        nodes,
    };
    let mut standing = standing_at(f, start, TOO_MANY_ROWS, TRIES);
    loop {
        match take_step(alloc, &average, standing)? {
            Step::Better(next) => standing = next,
            Step::End(highest) => return Ok(highest),
        }
    }
}

/// One step: the program at the ratio.
fn take_step(alloc: Global, average: &Average<'_>, standing: Standing) -> Result<Step, Memory>
    requires asked { IsAsked average.now }
    requires standing { IsStanding average.now.fraction.now standing }
    ensures step { IfOk result (IsStepOver average.now standing) }
    ensures nested { IsEasyProgram average.now.fraction.now.rows → IfOk result IsStepSurely }
{
    let program = program_at(alloc, average.fraction, standing.ratio)?;
    match solve(alloc, &program, average.nodes)? {
        Outcome::Best {
            counts,
            value,
            tree,
        } => Ok(after_best(average.fraction, standing, counts, value, tree)),
        Outcome::Spent { bound, found, tree } => {
            let spent = SpentSearch { bound, found, tree };
            after_spent(alloc, average, &program, standing, spent)
        }
        Outcome::Nothing { tree: _ } => unreachable!(),
    }
}

/// Where the best counts are not above the ratio, it is the greatest; else they have a greater one and fewer rows.
fn after_best(f: &Fractional, standing: Standing, counts: Seq<u64>, value: i128, tree: Tree) -> Step
    requires fractional { IsFractional f.now }
    requires standing { IsStanding f.now standing }
    requires best { AreBest f.now (ratio_of standing.ratio) counts }
    requires value { worth (program_at f.now (ratio_of standing.ratio)) counts ≡ value }
    requires small { nat_abs value ≤ 10 ^ 37 }
    ensures step { IsStepWithin f.now standing tree value result }
    ensures surely { IsStepSurely result }
{
    let Standing {
        counts: reached,
        ratio,
        limit: _,
        tries,
    } = standing;
    if over_before(f, ratio) + value <= 0 {
        return Step::End(Highest::Reached {
            ratio,
            counts: reached,
            tree,
        });
    }
    let limit = rows_with(f, counts.as_slice()) as u64;
    Step::Better(standing_at(f, counts, limit, tries))
}

/// Where the budget was spent, the bound may still show that the ratio is the greatest, and so may the outermost number. Else
/// the steps go on from what was found, some times, or end above the ratio.
fn after_spent(
    alloc: Global,
    average: &Average<'_>,
    program: &Program,
    standing: Standing,
    spent: SpentSearch,
) -> Result<Step, Memory>
    requires asked { IsAsked average.now }
    requires standing { IsStanding average.now.fraction.now standing }
    requires program { IsProgramAt average.now.fraction.now (ratio_of standing.ratio) program.now }
    requires outcome { IsOutcome program.now average.now.nodes (outcome_of spent) }
    ensures { IfOk result (IsStepOver average.now standing) }
{
    let SpentSearch { bound, found, tree } = spent;
    let fraction = average.fraction;
    let ratio = standing.ratio;
    if over_before(fraction, ratio) + bound <= 0 {
        return Ok(reached(standing, tree));
    }
    if average.outermost * ratio.den <= ratio.num {
        let tree = flat_tree(alloc, program.least.len())?;
        return Ok(reached(standing, tree));
    }
    if let Some(counts) = found {
        if standing.tries > 0 && excess(fraction, ratio, counts.as_slice()) > 0 {
            let next = standing_at(fraction, counts, standing.limit, standing.tries - 1);
            return Ok(Step::Better(next));
        }
    }
    end_above(alloc, average, program, standing, bound, tree)
}

/// The ratio is the greatest.
fn reached(standing: Standing, tree: Tree) -> Step
    ensures { result ≡ steps.End (highests.Reached standing.ratio standing.counts tree) }
{
    Step::End(Highest::Reached {
        ratio: standing.ratio,
        counts: standing.counts,
        tree,
    })
}

/// What the tree of a spent search leaves over, unless its bound is lower than that of the search and leaves nothing.
fn end_above(
    alloc: Global,
    average: &Average<'_>,
    program: &Program,
    standing: Standing,
    bound: i128,
    tree: Tree,
) -> Result<Step, Memory>
    requires asked { IsAsked average.now }
    requires standing { IsStanding average.now.fraction.now standing }
    requires program { IsProgramAt average.now.fraction.now (ratio_of standing.ratio) program.now }
    requires outcome { IsSpent program.now average.now.nodes bound tree }
    requires under { standing.ratio.num <ℤ (average.now.outermost *ℤ standing.ratio.den) }
    ensures { IfOk result (IsStepOver average.now standing) }
{
    let fraction = average.fraction;
    let ratio = standing.ratio;
    let most = match tree_bound(alloc, program, &tree)? {
        Some(most) => most,
        None => unreachable!(),
    };
    let left = over_before(fraction, ratio) + most;
    if left <= 0 {
        return Ok(reached(standing, tree));
    }
    let value = raised(fraction, ratio, left, average.outermost);
    Ok(Step::End(Highest::Above {
        ratio,
        counts: standing.counts,
        tree,
        value,
    }))
}
