ghost use Rattle.std.specs.Prelude.{◌≡◌, IfOk};
ghost use Rattle.pc_model.specs.Right.{always_has_value};
ghost use Rattle.pc_agg_search.specs.Asked.{AreAsked};
ghost use Rattle.pc_agg_search.specs.Problem.{IsPosed, setting_of};
ghost use Rattle.pc_agg.specs.Extremes.{HasLawful, IsSettledFrom};
ghost use Rattle.pc_agg.specs.Calls.{AreFound, OwesSettling, SettlesRows};

use crate::grounds::{Grounded, ground};
use crate::judged::{relation_from, settle_found};
use crate::settling::{Settled, impossible, rows_of_cells, settle_totals};
use pc_agg_search::Problem;
use pc_cells::Cells;
use pc_model::{Agg, Constraint, Folded, Query, Schema};
use pc_num::Memory;
use pc_proof::{AlwaysBy, Lack};
use std::alloc::Global;

/// Settles whether lost rows can meet the constraints, and whether the aggregate can be without a value: by the most and
/// the fewest rows that can be lost, and the most and the fewest of those that the query chooses.
pub fn settle(
    alloc: Global,
    schema: &Schema,
    seen: &Folded,
    constraints: &[Constraint],
    cells: &Cells,
    query: &Query,
    nodes: u32,
) -> Result<Settled, Memory>
    requires asked { AreAsked schema.now seen.now constraints.now cells.now query.now nodes }
    ensures lawful { IfOk result (λ settled. AreFound schema.now constraints.now cells.now query.now settled.found) }
    ensures owes { IfOk result (OwesSettling schema.now seen.now constraints.now cells.now query.now nodes) }
    ensures rows { IfOk result (SettlesRows schema.now constraints.now cells.now query.now) }
{
    let problem = Problem {
        schema,
        constraints,
        query,
        cells,
        nodes,
    };
    if always_has_value(query.agg) {
        return settle_totals(alloc, &problem);
    }
    let observed = seen.count > 0;
    let grounded = ground(alloc, &problem, observed)?;
    settle_grounded(alloc, &problem, grounded)
}

/// Whether the aggregate has a value over any rows.
fn always_has_value(agg: Agg) -> bool
    ensures { result ≡ always_has_value agg }
{
    match agg {
        Agg::Count | Agg::Sum => true,
        Agg::Min | Agg::Max | Agg::Avg => false,
    }
}

/// What is settled, with lists of what was found.
fn settle_grounded(
    alloc: Global,
    problem: &Problem<'_>,
    grounded: Grounded,
) -> Result<Settled, Memory>
    requires posed { IsPosed problem.now }
    requires grounded { HasLawful (setting_of problem.now) grounded }
    ensures { IfOk result (IsSettledFrom (setting_of problem.now) grounded) }
{
    let picks = rows_of_cells(alloc, problem.cells)?;
    let picks = picks.as_slice();
    match grounded {
        Grounded::Impossible(why) => Ok(impossible(alloc, why)),
        Grounded::Always(tree, found) => {
            let relation = relation_from(alloc, picks, found.as_slice())?;
            let lack = Lack::Always(AlwaysBy::Tree(tree));
            Ok(Settled {
                relation,
                lack,
                found,
            })
        }
        Grounded::Open(grounds) => settle_found(alloc, problem, grounds, picks),
    }
}
