ghost use Rattle.std.specs.Prelude.{◌≡◌, ◌<◌, All, IfOk, is_some, length};
ghost use Rattle.pc_model.specs.declared.query.Agg.TheVariants as aggs;
ghost use Rattle.pc_branch_licences.specs.Pools.{AreLawful};
ghost use Rattle.pc_agg_search.specs.Asked.{AreAsked};
ghost use Rattle.pc_agg.specs.Extremes.{agg_of, key_at, pair_at, seen_number, test_at, IsPairSurely};
ghost use Rattle.pc_agg.specs.Grounds.{HasValues};
ghost use Rattle.pc_agg_search.specs.Problem.{IsEasyFor, IsPosed, setting_of};
ghost use Rattle.pc_agg_search.specs.Posing.{IsAsked};
ghost use Rattle.pc_agg.specs.Calls.{OwesCall, OwesProblem, ShowsRows};
ghost use Rattle.pc_agg.specs.ShownRows.{HasShownRows};
ghost use Rattle.pc_agg.specs.Posed.{HaveValue, IsPairAt, MayHaveValue};
ghost use Rattle.pc_agg_search.specs.Posed.{AsksNumbers};

use crate::bounds::impossible_by;
use crate::grounds::{Grounded, Grounds, ground};
use crate::judged::{always_by, judge};
use crate::ladder::Test;
use crate::stand::{On, Stand, Stood, search_end};
use pc_agg_search::{Extreme, FoundCounts, Problem};
use pc_cells::Cells;
use pc_model::{Constraint, Folded, Query, Schema, Tree};
use pc_num::Memory;
use pc_proof::{AlwaysBy, Answer, Why};
use std::alloc::Global;

/// The range of the least number that a column has among the rows that the query chooses, where those observed come to
/// `seen`, and whether there is such a row, by searches of at most so many nodes each.
pub fn bound_min(
    alloc: Global,
    schema: &Schema,
    seen: &Folded,
    constraints: &[Constraint],
    cells: &Cells,
    query: &Query,
    nodes: u32,
) -> Result<Answer, Memory>
    requires asked { AreAsked schema.now seen.now constraints.now cells.now query.now nodes }
    requires least { query.now.agg ≡ aggs.Min }
    ensures owes { OwesCall schema.now seen.now constraints.now cells.now query.now nodes result }
    ensures rows { IfOk result (ShowsRows schema.now constraints.now cells.now query.now) }
{
    let problem = Problem {
        schema,
        constraints,
        query,
        cells,
        nodes,
    };
    bound_extreme(alloc, &problem, seen, Extreme::Low)
}

/// The range of the greatest number that a column has among the rows that the query chooses, where those observed come to
/// `seen`, and whether there is such a row, by searches of at most so many nodes each.
pub fn bound_max(
    alloc: Global,
    schema: &Schema,
    seen: &Folded,
    constraints: &[Constraint],
    cells: &Cells,
    query: &Query,
    nodes: u32,
) -> Result<Answer, Memory>
    requires asked { AreAsked schema.now seen.now constraints.now cells.now query.now nodes }
    requires greatest { query.now.agg ≡ aggs.Max }
    ensures owes { OwesCall schema.now seen.now constraints.now cells.now query.now nodes result }
    ensures rows { IfOk result (ShowsRows schema.now constraints.now cells.now query.now) }
{
    let problem = Problem {
        schema,
        constraints,
        query,
        cells,
        nodes,
    };
    bound_extreme(alloc, &problem, seen, Extreme::High)
}

/// The far end is the low one of a least number, and the high one of a greatest.
fn bound_extreme(
    alloc: Global,
    problem: &Problem<'_>,
    seen: &Folded,
    far: Extreme,
) -> Result<Answer, Memory>
    requires asked { IsAsked problem.now seen.now }
    requires extreme { problem.now.query.now.agg ≡ agg_of far }
    ensures owes { IfOk result (OwesProblem problem.now seen.now) }
    ensures rows { IfOk result (HasShownRows (setting_of problem.now)) }
{
    let number = seen_number(seen, far);
    let observed = number.is_some();
    let grounded = ground(alloc, problem, observed)?;
    let Grounds { lacking, found } = match grounded {
        Grounded::Impossible(why) => return Ok(impossible_by(why)),
        Grounded::Always(tree, found) => {
            return always_by(alloc, problem.cells, found.as_slice(), AlwaysBy::Tree(tree));
        }
        Grounded::Open(grounds) => grounds,
    };
    let pair = stand_both(alloc, problem, far, number, found)?;
    match pair {
        Pair::Empty(tree) => Ok(impossible_by(Why::Void(tree))),
        Pair::At { low, high, found } => judge(alloc, problem, observed, lacking, low, high, found),
    }
}

/// The least or the greatest number of the observed rows.
fn seen_number(seen: &Folded, far: Extreme) -> Option<i64>
    ensures { result ≡ seen_number seen.now far }
{
    match far {
        Extreme::Low => seen.least,
        Extreme::High => seen.greatest,
    }
}

/// Both ends, with all counts that were found, or a tree that shows that there is no list.
#[derive(Drop)]
enum Pair {
    At {
        low: Stand,
        high: Stand,
        found: FoundCounts,
    },
    Empty(Tree),
}

fn stand_both(
    alloc: Global,
    problem: &Problem<'_>,
    far: Extreme,
    number: Option<i64>,
    found: FoundCounts,
) -> Result<Pair, Memory>
    requires posed { IsPosed problem.now }
    requires numbers { AsksNumbers problem.now }
    requires some { HasValues (setting_of problem.now) (is_some number) }
    requires lawful { All (AreLawful (setting_of problem.now)) found }
    requires doubt { MayHaveValue problem.now number found }
    ensures pair { IfOk result (IsPairAt problem.now far number found) }
    ensures nested { IsEasyFor problem.now → 0 < length found → HaveValue problem.now number found → IfOk result IsPairSurely }
{
    let stood = search_end(
        alloc,
        problem,
        Extreme::Low,
        test_at(far, Extreme::Low),
        key_at(Extreme::Low, number),
        found,
    )?;
    let On { stand: low, found } = match stood {
        Stood::At(on) => on,
        Stood::Empty(tree) => return Ok(Pair::Empty(tree)),
    };
    let stood = search_end(
        alloc,
        problem,
        Extreme::High,
        test_at(far, Extreme::High),
        key_at(Extreme::High, number),
        found,
    )?;
    Ok(pair_at(low, stood))
}

/// The low end, with what the search of the high one came to.
fn pair_at(low: Stand, stood: Stood) -> Pair
    ensures { result ≡ pair_at low stood }
{
    match stood {
        Stood::At(On { stand: high, found }) => Pair::At { low, high, found },
        Stood::Empty(tree) => Pair::Empty(tree),
    }
}

/// The far end is reached, and the near one avoided.
fn test_at(far: Extreme, extreme: Extreme) -> Test
    ensures { result ≡ test_at far extreme }
{
    if far == extreme {
        Test::Reach
    } else {
        Test::Avoid
    }
}

/// The key of the observed rows at an end.
fn key_at(extreme: Extreme, number: Option<i64>) -> Option<i128>
    ensures { result ≡ key_at extreme number }
{
    let number = i128::from(number?);
    match extreme {
        Extreme::Low => Some(-number),
        Extreme::High => Some(number),
    }
}
