//! The range of a quantile.
ghost use Rattle.std.specs.Prelude.{◌≡◌, ◌≤◌, All, IfOk};
ghost use Rattle.std.specs.List.{AllPass};
ghost use Rattle.pc_model.specs.Accepted.{AreConstraints};
ghost use Rattle.pc_model.specs.Membership.{in_domain};
ghost use Rattle.pc_model.specs.WellFormed.{IsWellFormed};
ghost use Rattle.pc_branch_licences.specs.Pools.{AreLawful};
ghost use Rattle.pc_agg.specs.Grounds.{AreGrounds, HasValues};
ghost use Rattle.pc_agg_search.specs.Problem.{IsEasyFor};
ghost use Rattle.pc_quantile.specs.Answered.{IsAlwaysFrom, IsBetween, IsOwedFor, IsPairOf, IsPairSurely, impossible, pair_at};
ghost use Rattle.pc_quantile.specs.Climbing.{HaveValue, MayHaveValue};
ghost use Rattle.pc_quantile.specs.Licensed.{Owes};
ghost use Rattle.pc_quantile.specs.Measure.{IsMeasured, cells_for, has_numbers};
ghost use Rattle.pc_lang.specs.Quantiles.{IsQuantile};
ghost use Rattle.pc_quantile.specs.Measured.{least_of};

use crate::answer::{QuantileAnswer, QuantileLack, QuantileRelation};
use crate::judged::{always_as, judge, told_relation};
use crate::measure::{Measure, is_observed};
use crate::stand::{On, Stand, Stood, search_end};
use pc_agg::{Grounded, Grounds, ground, relation_from, rows_of_cells};
use pc_agg_search::{Extreme, FoundCounts, Problem};
use pc_cells::decompose;
use pc_lang::Quantile;
use pc_model::{Agg, Constraint, Query, Schema};
use pc_num::Memory;
use pc_rows::Rows;
use std::alloc::Global;

/// The range of a quantile over the rows that it is asked of, observed and lost ones, and whether there is such a row, by
/// searches of at most so many nodes each.
pub fn bound_quantile(
    alloc: Global,
    schema: &Schema,
    rows: &Rows,
    constraints: &[Constraint],
    asked: &Quantile,
    nodes: u32,
) -> Result<QuantileAnswer, Memory>
    requires well_formed { IsWellFormed schema.now }
    requires observed { AllPass (in_domain schema.now) rows.now }
    requires constraints { AreConstraints schema.now constraints.now }
    requires asked { IsQuantile schema.now asked.now }
    requires nodes { (1 ≤ nodes) × (nodes ≤ 100_000) }
    ensures owes { IfOk result (Owes schema.now rows.now constraints.now asked.now nodes) }
{
    let query = least_of(asked)?;
    let seen = rows.numbers(alloc, &query)?;
    let cells = decompose(alloc, schema, constraints, &query.chosen)?;
    let problem = Problem {
        schema,
        constraints,
        query: &query,
        cells: &cells,
        nodes,
    };
    let measure = Measure {
        problem,
        asked,
        seen: seen.as_slice(),
    };
    bound(alloc, &measure)
}

/// The query of the least number of the same rows.
pub(crate) fn least_of(asked: &Quantile) -> Result<Query, Memory>
    ensures { IfOk result (λ query. query ≡ least_of asked.now) }
{
    Ok(Query {
        agg: Agg::Min,
        column: Some(asked.column),
        chosen: asked.chosen.clone()?,
        group: None,
    })
}

fn bound(alloc: Global, measure: &Measure<'_>) -> Result<QuantileAnswer, Memory>
    requires measured { IsMeasured measure.now }
    ensures owed { IfOk result (IsOwedFor measure.now) }
{
    match ground(alloc, &measure.problem, is_observed(measure.seen))? {
        Grounded::Impossible(_) => Ok(impossible()),
        Grounded::Always(_, found) => always(alloc, measure, found),
        Grounded::Open(grounds) => between(alloc, measure, grounds),
    }
}

/// No lost rows meet the constraints.
pub(crate) fn impossible() -> QuantileAnswer
    ensures { result ≡ impossible }
{
    QuantileAnswer {
        relation: QuantileRelation::Impossible,
        lack: QuantileLack::Silent,
        ends: None,
    }
}

/// No list has a row that the quantile is asked of.
fn always(
    alloc: Global,
    measure: &Measure<'_>,
    found: FoundCounts,
) -> Result<QuantileAnswer, Memory>
    requires measured { IsMeasured measure.now }
    requires lawful { All (AreLawful (cells_for measure.now)) found }
    ensures { IfOk result (IsAlwaysFrom measure.now found) }
{
    let picks = rows_of_cells(alloc, measure.problem.cells)?;
    let relation = relation_from(alloc, picks.as_slice(), found.as_slice())?;
    Ok(always_as(told_relation(relation)))
}

/// The answer between both ends.
fn between(alloc: Global, measure: &Measure<'_>, grounds: Grounds) -> Result<QuantileAnswer, Memory>
    requires measured { IsMeasured measure.now }
    requires grounds { AreGrounds (cells_for measure.now) (has_numbers measure.now.seen.now) measure.now.problem.nodes grounds }
    ensures { IfOk result (IsBetween measure.now grounds) }
{
    let Grounds { lacking, found } = grounds;
    match stand_both(alloc, measure, found)? {
        Pair::Empty => Ok(impossible()),
        Pair::At { low, high, found } => {
            judge(alloc, measure, Grounds { lacking, found }, low, high)
        }
    }
}

/// Both ends, with all counts that were found, or that there is no list.
#[derive(Drop)]
enum Pair {
    At {
        low: Stand,
        high: Stand,
        found: FoundCounts,
    },
    Empty,
}

fn stand_both(alloc: Global, measure: &Measure<'_>, found: FoundCounts) -> Result<Pair, Memory>
    requires measured { IsMeasured measure.now }
    requires some { HasValues (cells_for measure.now) (has_numbers measure.now.seen.now) }
    requires lawful { All (AreLawful (cells_for measure.now)) found }
    requires doubt { MayHaveValue measure.now found }
    ensures pair { IfOk result (IsPairOf measure.now found) }
    ensures nested { IsEasyFor measure.now.problem → HaveValue measure.now found → IfOk result IsPairSurely }
{
    let stood = search_end(alloc, measure, Extreme::Low, found)?;
    let On { stand: low, found } = match stood {
        Stood::At(on) => on,
        Stood::Empty => return Ok(Pair::Empty),
    };
    let stood = search_end(alloc, measure, Extreme::High, found)?;
    Ok(pair_at(low, stood))
}

/// The low end, with what the search of the high one came to.
fn pair_at(low: Stand, stood: Stood) -> Pair
    ensures { result ≡ pair_at low stood }
{
    match stood {
        Stood::At(On { stand: high, found }) => Pair::At { low, high, found },
        Stood::Empty => Pair::Empty,
    }
}
