//! Weights for constraints that a search shows to allow no lost rows: the multipliers by which it
//! shows that. They are held against each class before a shortage is told of them, so nothing is
//! promised of them here.
ghost use Rattle.std.specs.Prelude.{◌≡◌, ◌≤◌, ◌+ℤ◌, ◌*ℤ◌, IfOk, IfSome};
ghost use Rattle.pc_model.specs.Accepted.{AreConstraints};
ghost use Rattle.pc_model.specs.WellFormed.{HaveFewNames, IsWellFormed};
ghost use Rattle.pc_conflict.specs.Testing.{all_rows, none_seen};

use crate::lacks::with_lacks;
use pc_agg::settle;
use pc_cells::decompose;
use pc_model::{Agg, Area, Constraint, Folded, Mult, Query, Schema, Tree, TreeNode};
use pc_num::{Memory, fit_add, fit_mul};
use pc_proof::{Relation, Why};
use std::alloc::Global;

/// A weight for each constraint, where a search for the most and the fewest lost rows shows at once
/// that there are none: one below 0 for so many times its least, one above 0 for so many times its
/// most.
pub(crate) fn weights_of(
    alloc: Global,
    schema: &Schema,
    constraints: &[Constraint],
    nodes: u32,
) -> Result<Option<Vec<i128>>, Memory>
    requires well_formed { IsWellFormed schema.now }
    requires accepted { AreConstraints schema.now constraints.now }
    requires nodes { (1 ≤ nodes) × (nodes ≤ 100_000) }
{
    let query = all_rows(alloc, schema)?;
    let seen = none_seen();
    let cells = decompose(alloc, schema, constraints, &query.chosen)?;
    let settled = settle(alloc, schema, &seen, constraints, &cells, &query, nodes)?;
    match multipliers_in(alloc, &settled.relation)? {
        Some(weights) => Ok(with_lacks(weights, constraints, cells.cells.as_slice())),
        None => Ok(None),
    }
}

/// How many rows there are in the whole domain.
fn all_rows(alloc: Global, schema: &Schema) -> Result<Query, Memory>
    requires { HaveFewNames schema.now.columns }
    ensures { IfOk result (λ query. query ≡ all_rows schema.now) }
{
    let whole = schema.whole(alloc)?;
    let chosen = Area::of_box(alloc, whole)?;
    Ok(Query {
        agg: Agg::Count,
        column: None,
        chosen,
        group: None,
    })
}

/// What no rows come to.
fn none_seen() -> Folded
    ensures { result ≡ none_seen }
{
    Folded {
        count: 0,
        sum: 0,
        least: None,
        greatest: None,
    }
}

/// The multipliers by which there are no lost rows.
fn multipliers_in(alloc: Global, relation: &Relation) -> Result<Option<Vec<i128>>, Memory> {
    match relation {
        Relation::Impossible(Why::Void(tree)) => of_void(alloc, tree),
        Relation::Impossible(Why::Cross(most, fewest)) => of_both(alloc, most, fewest),
        Relation::Impossible(Why::Ends(_, _)) => Ok(None),
        Relation::Possible(_) | Relation::Undecided => Ok(None),
    }
}

/// The multipliers of a tree that is one void leaf.
fn of_void(alloc: Global, tree: &Tree) -> Result<Option<Vec<i128>>, Memory> {
    match tree.nodes.as_slice() {
        [TreeNode::Void { mult }] => {
            let mut weights = Vec::new(alloc);
            weights.extend_from_slice(mult.by.as_slice())?;
            Ok(Some(weights))
        }
        _ => Ok(None),
    }
}

/// The multipliers of two trees, each of one leaf, added up over one denominator: those for the most
/// rows and those for the fewest, of which each row has one more and one less.
fn of_both(alloc: Global, most: &Tree, fewest: &Tree) -> Result<Option<Vec<i128>>, Memory> {
    match (most.nodes.as_slice(), fewest.nodes.as_slice()) {
        ([TreeNode::Bound { mult: most }], [TreeNode::Bound { mult: fewest }]) => {
            added(alloc, most, fewest)
        }
        _ => Ok(None),
    }
}

/// Both multipliers of each constraint, unless one of them does not fit.
fn added(alloc: Global, most: &Mult, fewest: &Mult) -> Result<Option<Vec<i128>>, Memory> {
    let others = fewest.by.as_slice();
    let mut weights = Vec::new(alloc);
    for (place, by) in most.by.as_slice().iter().enumerate() {
        if others.len() <= place {
            return Ok(None);
        }
        match weight(*by, most.den, others[place], fewest.den) {
            Some(weight) => weights.push(weight)?,
            None => return Ok(None),
        }
    }
    Ok(Some(weights))
}

/// Two multipliers, each over its denominator, as one over the product of both.
fn weight(most: i128, most_den: i128, fewest: i128, fewest_den: i128) -> Option<i128>
    ensures { IfSome result (λ weight. weight ≡ most *ℤ fewest_den +ℤ fewest *ℤ most_den) }
{
    let first = fit_mul(most, fewest_den)?;
    let second = fit_mul(fewest, most_den)?;
    fit_add(first, second)
}
