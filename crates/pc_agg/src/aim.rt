ghost use Rattle.std.specs.Prelude.{◌≡◌, true, None, IfOk};
ghost use Rattle.pc_model.specs.Accepted.{IsQuery};
ghost use Rattle.pc_model.specs.Right.{always_has_value};
ghost use Rattle.pc_agg_search.specs.declared.extreme.Extreme.TheVariants.{Low};
ghost use Rattle.pc_agg_search.specs.Ends.{program_towards};
ghost use Rattle.pc_agg_search.specs.Limits.{IsReached};
ghost use Rattle.pc_agg_search.specs.Problem.{IsEasyFor, IsPosed, setting_of};
ghost use Rattle.pc_agg.specs.Posed.{AreAimedAt, AreAimedReachedAt, IsAimOf, IsAimReachedAt, IsAimedAt};

use pc_agg_search::{Extreme, Limit, Problem, Sought, Targets, find_targets, seek};
use pc_list::Seq;
use pc_model::{Row, Tree};
use pc_num::Memory;
use std::alloc::Global;

/// The most that lost rows can gain towards an end, and a row of each cell that gains it.
#[derive(Drop)]
pub(crate) struct Aim {
    pub limit: Limit,
    pub picks: Seq<Row>,
}

/// An aim, or the tree that shows that no lost rows meet the constraints.
#[derive(Drop)]
pub(crate) enum Aimed {
    At(Aim),
    Nothing(Tree),
}

/// The aims of both ends.
#[derive(Drop)]
pub(crate) struct Aims {
    pub low: Aim,
    pub high: Aim,
}

/// Both aims, or the tree that shows that no lost rows meet the constraints.
#[derive(Drop)]
pub(crate) enum BothAimed {
    At(Aims),
    Nothing(Tree),
}

/// Searches the programs of both ends of a count or a sum.
pub(crate) fn aim_at_both(alloc: Global, problem: &Problem<'_>) -> Result<BothAimed, Memory>
    requires posed { IsPosed problem.now }
    requires query { IsQuery problem.now.schema.now problem.now.query.now }
    requires ungrouped { problem.now.query.now.group ≡ None }
    requires has_value { always_has_value problem.now.query.now.agg ≡ true }
    ensures aimed { IfOk result (AreAimedAt problem.now) }
    ensures nested { IsEasyFor problem.now → IfOk result (AreAimedReachedAt problem.now) }
{
    let extreme = Extreme::Low;
    match aim_at(alloc, problem, extreme)? {
        Aimed::At(low) => aim_on(alloc, problem, low),
        Aimed::Nothing(tree) => Ok(BothAimed::Nothing(tree)),
    }
}

/// Searches the program of the high end too.
fn aim_on(alloc: Global, problem: &Problem<'_>, low: Aim) -> Result<BothAimed, Memory>
    requires posed { IsPosed problem.now }
    requires query { IsQuery problem.now.schema.now problem.now.query.now }
    requires ungrouped { problem.now.query.now.group ≡ None }
    requires has_value { always_has_value problem.now.query.now.agg ≡ true }
    requires low { IsAimOf problem.now Low low }
    ensures aimed { IfOk result (AreAimedAt problem.now) }
    ensures nested { IsEasyFor problem.now → IsReached (program_towards (setting_of problem.now) problem.now.query.now.agg Low) low.limit.most low.limit.found → IfOk result (AreAimedReachedAt problem.now) }
{
    let extreme = Extreme::High;
    match aim_at(alloc, problem, extreme)? {
        Aimed::At(high) => Ok(BothAimed::At(Aims { low, high })),
        Aimed::Nothing(tree) => Ok(BothAimed::Nothing(tree)),
    }
}

/// Searches the program of an end of a count or a sum.
pub(crate) fn aim_at(
    alloc: Global,
    problem: &Problem<'_>,
    extreme: Extreme,
) -> Result<Aimed, Memory>
    requires posed { IsPosed problem.now }
    requires query { IsQuery problem.now.schema.now problem.now.query.now }
    requires ungrouped { problem.now.query.now.group ≡ None }
    requires has_value { always_has_value problem.now.query.now.agg ≡ true }
    ensures aimed { IfOk result (IsAimedAt problem.now extreme) }
    ensures nested { IsEasyFor problem.now → IfOk result (IsAimReachedAt problem.now extreme) }
{
    let targets = find_targets(alloc, problem, extreme)?;
    let Targets { gains, picks } = targets;
    match seek(alloc, problem, gains)? {
        Sought::Within(limit) => Ok(Aimed::At(Aim { limit, picks })),
        Sought::Nothing(tree) => Ok(Aimed::Nothing(tree)),
    }
}
