//! The tests of constraints, one after the other: the next is left out where the others still contradict each other.
ghost use Rattle.std.specs.Prelude.{◌≡◌, suc, ◌≤◌, ◌<◌, length, All, IfOk};
ghost use Rattle.pc_model.specs.Accepted.{AreConstraints, constraint_limit};
ghost use Rattle.pc_model.specs.WellFormed.{IsWellFormed};
ghost use Rattle.pc_agg_search.specs.Easy.{IsEasy};
ghost use Rattle.pc_conflict.specs.Conflicts.{IsConflict, IsDecided};
ghost use Rattle.pc_conflict.specs.Deleting.{IsDeletion, with_member};
ghost use Rattle.pc_conflict.specs.Deletion.{AreContrary};
ghost use Rattle.pc_conflict.specs.Testing.{Concludes, IsStepped, IsSteppedOn};

use crate::conflict::Conflict;
use crate::copies::constraints_at;
use crate::places::{all_places, tested_at};
use crate::testing::{Tested, test};
use crate::thinning::without_each;
use pc_list::Seq;
use pc_model::{Constraint, Run, Schema};
use pc_num::Memory;
use std::alloc::Global;

/// The constraints that the tests so far keep, by their places, and for each the list of rows that its test found.
#[derive(Drop)]
pub(crate) struct Deletion {
    pub(crate) members: Seq<u32>,
    pub(crate) found: Seq<Seq<Run>>,
}

/// What is kept after one test more, or the places of the constraints that it leaves open.
#[derive(Drop)]
pub(crate) enum Stepped {
    Next(Deletion),
    Undecided(Seq<u32>),
}

/// Which constraints contradict each other, by a search of at most so many nodes at each end of each test: first all are tested,
/// then each is left out, in order, where those that are left still contradict each other.
pub fn find(
    alloc: Global,
    schema: &Schema,
    constraints: &[Constraint],
    nodes: u32,
) -> Result<Conflict, Memory>
    requires well_formed { IsWellFormed schema.now }
    requires accepted { AreConstraints schema.now constraints.now }
    requires nodes { (1 ≤ nodes) × (nodes ≤ 100_000) }
    ensures found { IfOk result (IsConflict schema.now constraints.now nodes) }
    ensures nested { IsEasy schema.now constraints.now → IfOk result IsDecided }
{
    match test(alloc, schema, constraints, nodes)? {
        Tested::Possible(runs) => Ok(Conflict::Possible(runs)),
        Tested::Impossible => find_core(alloc, schema, constraints, nodes),
        Tested::Undecided => {
            let tested = all_places(alloc, constraints.len() as u32)?;
            Ok(Conflict::Undecided { tested })
        }
    }
}

/// What the tests keep of constraints that contradict each other.
fn find_core(
    alloc: Global,
    schema: &Schema,
    constraints: &[Constraint],
    nodes: u32,
) -> Result<Conflict, Memory>
    requires well_formed { IsWellFormed schema.now }
    requires accepted { AreConstraints schema.now constraints.now }
    requires nodes { (1 ≤ nodes) × (nodes ≤ 100_000) }
    requires contrary { AreContrary schema.now constraints.now }
    ensures found { IfOk result (IsConflict schema.now constraints.now nodes) }
    ensures nested { IsEasy schema.now constraints.now → IfOk result IsDecided }
{
    let mut deletion = Deletion {
        members: Seq::new(alloc),
        found: Seq::new(alloc),
    };
    for place in 0..constraints.len() as u32 {
        match step(alloc, schema, constraints, place, deletion, nodes)? {
            Stepped::Next(next) => deletion = next,
            Stepped::Undecided(tested) => return Ok(Conflict::Undecided { tested }),
        }
    }
    core_of(alloc, constraints, deletion)
}

/// The test of what is left without the constraint of a place.
fn step(
    alloc: Global,
    schema: &Schema,
    constraints: &[Constraint],
    place: u32,
    deletion: Deletion,
    nodes: u32,
) -> Result<Stepped, Memory>
    requires well_formed { IsWellFormed schema.now }
    requires accepted { AreConstraints schema.now constraints.now }
    requires nodes { (1 ≤ nodes) × (nodes ≤ 100_000) }
    requires there { place < length constraints.now }
    requires deletion { IsDeletion schema.now constraints.now place deletion }
    ensures stepped { IfOk result (IsStepped schema.now constraints.now nodes (suc place)) }
    ensures nested { IsEasy schema.now constraints.now → IfOk result IsSteppedOn }
{
    let count = constraints.len() as u32;
    let tested = tested_at(alloc, deletion.members.as_slice(), place, count)?;
    let part = constraints_at(alloc, constraints, tested.as_slice())?;
    match test(alloc, schema, part.as_slice(), nodes)? {
        Tested::Possible(runs) => Ok(Stepped::Next(kept(deletion, place, runs)?)),
        Tested::Impossible => Ok(Stepped::Next(deletion)),
        Tested::Undecided => Ok(Stepped::Undecided(tested)),
    }
}

/// What is kept, and the constraint of the place with it.
fn kept(deletion: Deletion, place: u32, runs: Seq<Run>) -> Result<Deletion, Memory>
    ensures { IfOk result (λ more. more ≡ with_member deletion place runs) }
{
    let Deletion {
        mut members,
        mut found,
    } = deletion;
    members.push(place)?;
    found.push(runs)?;
    Ok(Deletion { members, found })
}

/// What is kept after the last test, each member with a list that is possible for the others.
fn core_of(
    alloc: Global,
    constraints: &[Constraint],
    deletion: Deletion,
) -> Result<Conflict, Memory>
    requires few { length constraints.now ≤ constraint_limit }
    requires inside { All (λ member. member < length constraints.now) deletion.members }
    requires even { length deletion.found ≡ length deletion.members }
    ensures found { IfOk result (Concludes constraints.now deletion) }
    ensures decided { IfOk result IsDecided }
{
    let Deletion { members, found } = deletion;
    let without = without_each(alloc, constraints, members.as_slice(), found.as_slice())?;
    Ok(Conflict::Core { members, without })
}
