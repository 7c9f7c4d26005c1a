//! The changes that are weighed, and what constraints are after one.
ghost use Rattle.std.specs.Prelude.{◌≡◌, ◌++◌, IfOk, map};
ghost use Rattle.pc_model.specs.WellFormed.{HaveFewNames};
ghost use Rattle.pc_desk_weigh.specs.Changes.{change_at, changed, changed_at, changes_if, changes_of, is_asked_of, with_limit};

use crate::change::{Change, Limit};
use crate::limits::limits_of;
use pc_list::Seq;
use pc_model::{Constraint, Schema};
use pc_num::Memory;
use std::alloc::Global;

/// The changes of all constraints, or of the one at a place, in their order.
pub(crate) fn changes_of(
    alloc: Global,
    schema: &Schema,
    constraints: &[Constraint],
    asked: Option<usize>,
) -> Result<Seq<Change>, Memory>
    requires names { HaveFewNames schema.now.columns }
    ensures { IfOk result (λ changes. changes ≡ changes_of schema.now constraints.now asked) }
{
    let mut changes = Seq::new(alloc);
    for (place, constraint) in constraints.iter().enumerate() {
        changes = with_changes_if(alloc, changes, schema, asked, place, constraint)?;
    }
    Ok(changes)
}

// These, and those of the constraint where it is asked of.
fn with_changes_if(
    alloc: Global,
    changes: Seq<Change>,
    schema: &Schema,
    asked: Option<usize>,
    place: usize,
    constraint: &Constraint,
) -> Result<Seq<Change>, Memory>
    requires names { HaveFewNames schema.now.columns }
    ensures { IfOk result (λ new. new ≡ changes ++ changes_if schema.now asked (place, constraint.now)) }
{
    if !is_asked_of(asked, place) {
        return Ok(changes);
    }
    let limits = limits_of(alloc, schema, constraint)?;
    with_changes(changes, place, limits.as_slice())
}

fn is_asked_of(asked: Option<usize>, place: usize) -> bool
    ensures { result ≡ is_asked_of asked place }
{
    match asked {
        None => true,
        Some(asked) => place == asked,
    }
}

fn with_changes(changes: Seq<Change>, place: usize, limits: &[Limit]) -> Result<Seq<Change>, Memory>
    ensures { IfOk result (λ new. new ≡ changes ++ map (change_at place) limits.now) }
{
    let mut changes = changes;
    for limit in limits {
        let limit = *limit;
        changes.push(Change { place, limit })?;
    }
    Ok(changes)
}

/// The constraints, of which the one at the change's place has the limit and is else as it was.
pub(crate) fn changed(
    alloc: Global,
    schema: &Schema,
    constraints: &[Constraint],
    change: Change,
) -> Result<Seq<Constraint>, Memory>
    requires names { HaveFewNames schema.now.columns }
    ensures { IfOk result (λ new. new ≡ changed schema.now constraints.now change) }
{
    let mut all = Seq::new(alloc);
    for (place, constraint) in constraints.iter().enumerate() {
        let new = changed_at(alloc, schema, change, place, constraint)?;
        all.push(new)?;
    }
    Ok(all)
}

fn changed_at(
    alloc: Global,
    schema: &Schema,
    change: Change,
    place: usize,
    constraint: &Constraint,
) -> Result<Constraint, Memory>
    requires names { HaveFewNames schema.now.columns }
    ensures { IfOk result (λ new. new ≡ changed_at schema.now change (place, constraint.now)) }
{
    let copy = copy_of(constraint)?;
    if place == change.place {
        return with_limit(alloc, schema, change.limit, copy);
    }
    Ok(copy)
}

fn copy_of(constraint: &Constraint) -> Result<Constraint, Memory>
    ensures { IfOk result (λ copy. copy ≡ constraint.now) }
{
    Ok(constraint.clone()?)
}

fn with_limit(
    alloc: Global,
    schema: &Schema,
    limit: Limit,
    constraint: Constraint,
) -> Result<Constraint, Memory>
    requires names { HaveFewNames schema.now.columns }
    ensures { IfOk result (λ new. new ≡ with_limit schema.now limit constraint) }
{
    let mut new = constraint;
    match limit {
        Limit::Least(least) => new.least = least,
        Limit::Most(most) => new.most = most,
        Limit::Values => new.values = schema.whole(alloc)?,
    }
    Ok(new)
}
