//! One test: whether some list of rows is possible for constraints.
ghost use Rattle.std.specs.Prelude.{◌≡◌, ◌≤◌, pos, None, IfOk};
ghost use Rattle.pc_model.specs.Accepted.{AreConstraints};
ghost use Rattle.pc_model.specs.WellFormed.{HaveFewNames, IsWellFormed};
ghost use Rattle.pc_agg_search.specs.Easy.{IsEasy};
ghost use Rattle.pc_conflict.specs.Testing.{IsTested, IsTestedSurely, all_rows, none_seen, tested_as};

use pc_agg::{Settled, settle};
use pc_cells::decompose;
use pc_list::Seq;
use pc_model::{Agg, Area, Constraint, Folded, Query, Run, Schema};
use pc_num::Memory;
use pc_proof::Relation;
use std::alloc::Global;

/// A list of rows that is possible, or that none is, or that the budget does not tell.
#[derive(Drop)]
pub(crate) enum Tested {
    Possible(Seq<Run>),
    Impossible,
    Undecided,
}

/// Whether a list of rows is possible for the constraints, by the cells of the whole domain.
pub(crate) fn test(
    alloc: Global,
    schema: &Schema,
    constraints: &[Constraint],
    nodes: u32,
) -> Result<Tested, Memory>
    requires well_formed { IsWellFormed schema.now }
    requires accepted { AreConstraints schema.now constraints.now }
    requires nodes { (1 ≤ nodes) × (nodes ≤ 100_000) }
    ensures tested { IfOk result (IsTested schema.now constraints.now nodes) }
    ensures nested { IsEasy schema.now constraints.now → IfOk result IsTestedSurely }
{
    let query = all_rows(alloc, schema)?;
    let seen = none_seen();
    let cells = decompose(alloc, schema, constraints, &query.chosen)?;
    let settled = settle(alloc, schema, &seen, constraints, &cells, &query, nodes)?;
    Ok(tested_as(settled))
}

/// How many rows there are in the whole domain.
fn all_rows(alloc: Global, schema: &Schema) -> Result<Query, Memory>
    requires { HaveFewNames schema.now.columns }
    ensures { IfOk result (λ query. query ≡ all_rows schema.now) }
{
    let whole = schema.whole(alloc)?;
    let chosen = Area::of_box(alloc, whole)?;
    Ok(Query {
        agg: Agg::Count,
        column: None,
        chosen,
        group: None,
    })
}

/// What no rows come to.
fn none_seen() -> Folded
    ensures { result ≡ none_seen }
{
    Folded {
        count: 0,
        sum: 0,
        least: None,
        greatest: None,
    }
}

fn tested_as(settled: Settled) -> Tested
    ensures { result ≡ tested_as settled.relation }
{
    let Settled {
        relation,
        lack: _lack,
        found: _found,
    } = settled;
    match relation {
        Relation::Possible(runs) => Tested::Possible(runs),
        Relation::Impossible(_) => Tested::Impossible,
        Relation::Undecided => Tested::Undecided,
    }
}
