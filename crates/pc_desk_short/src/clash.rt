ghost use Rattle.std.specs.Prelude.{◌≤◌, IfOk, IfSome};
ghost use Rattle.pc_model.specs.Accepted.{AreConstraints};
ghost use Rattle.pc_model.specs.WellFormed.{IsWellFormed};
ghost use Rattle.pc_desk_short.specs.Clashes.{IsClash, IsShortage};

use crate::multipliers::weights_of;
use crate::shortage::{Shortage, shortage_by};
use pc_conflict::{Conflict, find};
use pc_model::{Constraint, Schema};
use pc_num::Memory;
use std::alloc::Global;

/// Why constraints allow no lost rows: what some need is more than others have room for; or what was
/// found of which of them contradict each other.
#[derive(Debug, Drop)]
pub enum Clash {
    Short(Shortage),
    Conflict(Conflict),
}

/// Why constraints allow no lost rows, by searches of at most so many nodes each: as one sum, where
/// the search that shows it leaves one, and else by which of them contradict each other.
pub fn clash_of(
    alloc: Global,
    schema: &Schema,
    constraints: &[Constraint],
    nodes: u32,
) -> Result<Clash, Memory>
    requires well_formed { IsWellFormed schema.now }
    requires accepted { AreConstraints schema.now constraints.now }
    requires nodes { (1 ≤ nodes) × (nodes ≤ 100_000) }
    ensures clash { IfOk result (IsClash schema.now constraints.now nodes) }
{
    match shortage_found(alloc, schema, constraints, nodes)? {
        Some(shortage) => Ok(Clash::Short(shortage)),
        None => Ok(Clash::Conflict(find(alloc, schema, constraints, nodes)?)),
    }
}

/// The shortage that a search shows, if it shows one.
fn shortage_found(
    alloc: Global,
    schema: &Schema,
    constraints: &[Constraint],
    nodes: u32,
) -> Result<Option<Shortage>, Memory>
    requires well_formed { IsWellFormed schema.now }
    requires accepted { AreConstraints schema.now constraints.now }
    requires nodes { (1 ≤ nodes) × (nodes ≤ 100_000) }
    ensures { IfOk result (λ found. IfSome found (IsShortage schema.now constraints.now)) }
{
    match weights_of(alloc, schema, constraints, nodes)? {
        Some(weights) => shortage_by(alloc, schema, constraints, weights.as_slice()),
        None => Ok(None),
    }
}
