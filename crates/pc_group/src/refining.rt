ghost use Rattle.std.specs.Prelude.{◌≡◌, ◌≤◌, length, true, All, List, OnOk};
ghost use Rattle.pc_model.specs.declared.area.Area.{Area};
ghost use Rattle.pc_model.specs.Accepted.{AreConstraints, IsQuery, constraint_limit};
ghost use Rattle.pc_model.specs.Boxes.{IsAreaOf, IsServable};
ghost use Rattle.pc_model.specs.WellFormed.{IsWellFormed};
ghost use Rattle.pc_cells_tree.specs.Linked.{IsTree, IsDividedFor, KeepsInner};
ghost use Rattle.pc_cells_tree.specs.Owned.{HasOwnCuts};
ghost use Rattle.pc_group.specs.Trees.{AreDividedFor, HasCutsForSome};
ghost use Rattle.pc_group.specs.Wanted.{Wanted, wanted_by};

use crate::wanted::areas_of;
use pc_cells::Shared;
use pc_model::{Area, Constraint, Query, Schema};
use pc_num::Memory;
use std::alloc::Global;
use std::slice::from_ref;

/// Cuts the shared tree on for each block of the query; what it was divided for before it still is. After `Memory` it
/// may have been cut on for some of them.
pub fn divide_for(
    alloc: Global,
    schema: &Schema,
    constraints: &[Constraint],
    query: &Query,
    shared: &mut Shared,
) -> Result<(), Memory>
    requires well_formed { IsWellFormed schema.now }
    requires accepted { AreConstraints schema.now constraints.now }
    requires asked { IsQuery schema.now query.now }
    requires tree { IsTree schema.now shared.old.nodes }
    ensures tree { IsTree schema.now shared.new.nodes }
    ensures kept { KeepsInner shared.old.nodes shared.new.nodes }
    ensures divided { OnOk result (AreDividedFor schema.now constraints.now shared.new.nodes (wanted_by schema.now query.now)) }
    ensures still { (blocks : List Wanted) → AreDividedFor schema.now constraints.now shared.old.nodes blocks → AreDividedFor schema.now constraints.now shared.new.nodes blocks }
{
    let areas = areas_of(alloc, schema, from_ref(query))?;
    refine_for_all(schema, constraints, areas.as_slice(), shared)
}

/// Cuts the shared tree on until each leaf can be marked for each of the areas, by no cut that none of them needs. After
/// `Memory` it may have been cut on for some of them.
pub fn refine_for_all(
    schema: &Schema,
    constraints: &[Constraint],
    areas: &[Area],
    shared: &mut Shared,
) -> Result<(), Memory>
    requires well_formed { IsWellFormed schema.now }
    requires few { length constraints.now ≤ constraint_limit }
    requires servable { All (IsServable schema.now) constraints.now }
    requires areas { All (λ (area : Area). IsAreaOf schema.now area) areas.now }
    requires tree { IsTree schema.now shared.old.nodes }
    ensures tree { IsTree schema.now shared.new.nodes }
    ensures kept { KeepsInner shared.old.nodes shared.new.nodes }
    ensures own { HasOwnCuts schema.now shared.old.nodes → HasOwnCuts schema.now shared.new.nodes }
    ensures needed { HasCutsForSome schema.now constraints.now areas.now
        shared.old.nodes shared.new.nodes }
    ensures divided { OnOk result (All (λ (area : Area). IsDividedFor schema.now constraints.now area shared.new.nodes) areas.now) }
{
    for area in areas {
        shared.refine(schema, constraints, area)?;
    }
    Ok(())
}
