ghost use Rattle.std.specs.Prelude.{◌≡◌, ◌++◌, IfOk, OnOk};
ghost use Rattle.pc_model.specs.Accepted.{AreConstraints};
ghost use Rattle.pc_model.specs.WellFormed.{IsWellFormed};
ghost use Rattle.pc_desk_try.specs.Beside.{AreBeside};
ghost use Rattle.pc_desk_run.specs.Texts.{IsNoteBeside, beside_line, beside_names, name_if, note_on, note_with, titled_line};

use pc_desk_try::{opening_beside, put_written_name};
use pc_list::Seq;
use pc_model::{Constraint, Schema};
use pc_num::Memory;
use std::alloc::Global;

/// Said before the names of constraints that open rows beside others.
const BESIDE: &str = "\
rows may be lost that one constraint alone speaks of, beside others that it crosses (see pc_desk opens):";

/// What is said beside answers under these constraints.
pub(crate) fn note_on(alloc: Global, constraints: &[Constraint]) -> Result<Seq<u8>, Memory>
    ensures { IfOk result (λ note. note ≡ note_on constraints.now) }
{
    if constraints.is_empty() {
        let note = b"no constraints: no row is taken as lost\n";
        return Ok(Seq::from_slice(alloc, note)?);
    }
    Ok(Seq::new(alloc))
}

/// .. and which of them let rows be lost that no other speaks of, beside constraints that they cross.
pub(crate) fn note_beside(
    alloc: Global,
    schema: &Schema,
    constraints: &[Constraint],
) -> Result<Seq<u8>, Memory>
    requires well_formed { IsWellFormed schema.now }
    requires accepted { AreConstraints schema.now constraints.now }
    ensures { IfOk result (IsNoteBeside schema.now constraints.now) }
{
    let truths = opening_beside(alloc, schema, constraints)?;
    note_with(alloc, constraints, truths.as_slice())
}

fn note_with(alloc: Global, constraints: &[Constraint], truths: &[bool]) -> Result<Seq<u8>, Memory>
    ensures { IfOk result (λ note. note ≡ note_with constraints.now truths.now) }
{
    let mut note = note_on(alloc, constraints)?.into_vec();
    let names = beside_names(alloc, constraints, truths)?;
    put_beside_line(&mut note, names.as_slice())?;
    Ok(Seq::from_vec(note))
}

// Nothing is said of no names.
fn put_beside_line(out: &mut Vec<u8>, names: &[u8]) -> Result<(), Memory>
    ensures { OnOk result (out.new.items ≡ out.old.items ++ beside_line names.now) }
{
    match names {
        [] => Ok(()),
        _ => put_line_of(out, BESIDE, names),
    }
}

#[tactic(auto, unfolding(crate::specs::Texts::titled_line))]
fn put_line_of(out: &mut Vec<u8>, title: &str, names: &[u8]) -> Result<(), Memory>
    ensures { OnOk result (out.new.items ≡ out.old.items ++ titled_line title.now names.now) }
{
    out.extend_from_slice(title.as_bytes())?;
    out.extend_from_slice(names)?;
    out.push(b'\n')?;
    Ok(())
}

#[tactic(auto, using(crate::proofs::Noting::steps))]
fn beside_names(
    alloc: Global,
    constraints: &[Constraint],
    truths: &[bool],
) -> Result<Vec<u8>, Memory>
    ensures { IfOk result (λ names. names.items ≡ beside_names constraints.now truths.now) }
{
    let mut names = Vec::new(alloc);
    for (place, constraint) in constraints.iter().enumerate() {
        if truths.len() <= place {
            return Ok(names);
        }
        put_name_if(alloc, &mut names, constraint, truths[place])?;
    }
    Ok(names)
}

#[tactic(auto, unfolding(crate::specs::Texts::name_if))]
fn put_name_if(
    alloc: Global,
    out: &mut Vec<u8>,
    constraint: &Constraint,
    told: bool,
) -> Result<(), Memory>
    ensures { OnOk result (out.new.items ≡ out.old.items ++ name_if constraint.now told) }
{
    if !told {
        return Ok(());
    }
    out.push(b' ')?;
    put_written_name(alloc, out, constraint)
}
