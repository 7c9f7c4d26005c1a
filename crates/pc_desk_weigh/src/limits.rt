//! Which limits of a constraint may be changed, each to what.
ghost use Rattle.std.specs.Prelude.{◌≡◌, ◌++◌, IfOk};
ghost use Rattle.pc_model.specs.WellFormed.{HaveFewNames};
ghost use Rattle.pc_desk_weigh.specs.Changes.{any_values, fewer_at_most, limits_of, more_at_least, more_at_most, none_at_least};
ghost use Rattle.pc_desk_weigh.specs.Listed.{listed};

use crate::change::Limit;
use pc_lang::is_whole;
use pc_list::Seq;
use pc_model::{Constraint, Schema};
use pc_num::Memory;
use std::alloc::Global;

/// The most lost rows that a constraint may allow.
const MOST: u64 = 10_000_000;

/// The limits that a constraint may get, one at a time.
#[tactic(auto, unfolding(crate::specs::Changes::limits_of))]
pub(crate) fn limits_of(
    alloc: Global,
    schema: &Schema,
    constraint: &Constraint,
) -> Result<Seq<Limit>, Memory>
    requires names { HaveFewNames schema.now.columns }
    ensures { IfOk result (λ limits. limits ≡ limits_of schema.now constraint.now) }
{
    let limits = first_limit(alloc, more_at_least(constraint))?;
    let limits = with_limit(limits, none_at_least(constraint))?;
    let limits = with_limit(limits, fewer_at_most(constraint))?;
    let limits = with_limit(limits, more_at_most(constraint))?;
    with_limit(limits, any_values(schema, constraint))
}

fn first_limit(alloc: Global, limit: Option<Limit>) -> Result<Seq<Limit>, Memory>
    ensures { IfOk result (λ limits. limits ≡ listed limit) }
{
    let mut limits = Seq::new(alloc);
    if let Some(limit) = limit {
        limits.push(limit)?;
    }
    Ok(limits)
}

fn with_limit(limits: Seq<Limit>, limit: Option<Limit>) -> Result<Seq<Limit>, Memory>
    ensures { IfOk result (λ new. new ≡ limits ++ listed limit) }
{
    let mut limits = limits;
    if let Some(limit) = limit {
        limits.push(limit)?;
    }
    Ok(limits)
}

fn more_at_least(constraint: &Constraint) -> Option<Limit>
    ensures { listed result ≡ more_at_least constraint.now }
{
    if constraint.least < constraint.most {
        Some(Limit::Least(constraint.least + 1))
    } else {
        None
    }
}

fn none_at_least(constraint: &Constraint) -> Option<Limit>
    ensures { listed result ≡ none_at_least constraint.now }
{
    if constraint.least == 0 {
        None
    } else {
        Some(Limit::Least(0))
    }
}

fn fewer_at_most(constraint: &Constraint) -> Option<Limit>
    ensures { listed result ≡ fewer_at_most constraint.now }
{
    if constraint.least < constraint.most {
        Some(Limit::Most(constraint.most - 1))
    } else {
        None
    }
}

fn more_at_most(constraint: &Constraint) -> Option<Limit>
    ensures { listed result ≡ more_at_most constraint.now }
{
    if constraint.most < MOST {
        Some(Limit::Most(constraint.most + 1))
    } else {
        None
    }
}

fn any_values(schema: &Schema, constraint: &Constraint) -> Option<Limit>
    requires names { HaveFewNames schema.now.columns }
    ensures { listed result ≡ any_values schema.now constraint.now }
{
    if is_whole(schema, &constraint.values) {
        None
    } else {
        Some(Limit::Values)
    }
}
