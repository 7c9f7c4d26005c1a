//! The lists of rows for the members of a core: of what was found for each, the rows that the other members speak of.
ghost use Rattle.std.specs.Prelude.{◌≡◌, ◌<◌, ◌≤◌, length, All, IfOk};
ghost use Rattle.pc_model.specs.Accepted.{constraint_limit};
ghost use Rattle.pc_conflict.specs.Besides.{is_spoken_of, spoken_runs};
ghost use Rattle.pc_conflict.specs.Deleting.{AreFreeWithout, runs_without};

use crate::copies::constraints_at;
use crate::places::{others, tested_at};
use pc_list::Seq;
use pc_model::{Constraint, Row, Run};
use pc_num::Memory;
use std::alloc::Global;

/// For each member runs that stand for a list that is possible for the others.
pub(crate) fn without_each(
    alloc: Global,
    constraints: &[Constraint],
    members: &[u32],
    found: &[Seq<Run>],
) -> Result<Seq<Seq<Run>>, Memory>
    requires few { length constraints.now ≤ constraint_limit }
    requires inside { All (λ member. member < length constraints.now) members.now }
    requires even { length found.now ≡ length members.now }
    ensures { IfOk result (AreFreeWithout constraints.now members.now found.now) }
{
    let mut without = Seq::new(alloc);
    for (index, member) in members.iter().enumerate() {
        let runs = without_member(
            alloc,
            constraints,
            members,
            *member,
            found[index].as_slice(),
        )?;
        without.push(runs)?;
    }
    Ok(without)
}

/// Of the runs that were found for a member, those that the other members speak of, among what was tested.
fn without_member(
    alloc: Global,
    constraints: &[Constraint],
    members: &[u32],
    member: u32,
    runs: &[Run],
) -> Result<Seq<Run>, Memory>
    requires few { length constraints.now ≤ constraint_limit }
    requires inside { All (λ member. member < length constraints.now) members.now }
    requires there { member < length constraints.now }
    ensures { IfOk result (λ kept. kept ≡ runs_without constraints.now members.now member runs.now) }
{
    let tested = tested_at(alloc, members, member, constraints.len() as u32)?;
    let whole = constraints_at(alloc, constraints, tested.as_slice())?;
    let others = others(alloc, members, member)?;
    let rest = constraints_at(alloc, constraints, others.as_slice())?;
    spoken_runs(alloc, whole.as_slice(), rest.as_slice(), runs)
}

/// The runs of rows that some of the rest speak of.
fn spoken_runs(
    alloc: Global,
    whole: &[Constraint],
    rest: &[Constraint],
    runs: &[Run],
) -> Result<Seq<Run>, Memory>
    ensures { IfOk result (λ kept. kept ≡ spoken_runs whole.now rest.now runs.now) }
{
    let mut kept = Seq::new(alloc);
    for run in runs {
        if is_spoken_of(whole, rest, &run.row) {
            kept.push(run.clone()?)?;
        }
    }
    Ok(kept)
}

fn is_spoken_of(whole: &[Constraint], rest: &[Constraint], row: &Row) -> bool
    ensures { result ≡ is_spoken_of whole.now rest.now row.now }
{
    rest.iter()
        .any(|constraint| constraint.speaks_of(whole, row))
}
