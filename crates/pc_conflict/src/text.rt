//! The text of which constraints contradict each other.
ghost use Rattle.std.specs.Prelude.{◌≡◌, ◌++◌, codes, IfOk, OnErr, OnOk};
ghost use Rattle.pc_report.specs.Report.{titled_text};
ghost use Rattle.pc_report.specs.RunLines.{HaveScales};
ghost use Rattle.pc_conflict.specs.Texts.{conflict_text, core_text, next_rules_text, rule_at, rule_name, rules_text, undecided_text, without_text, withouts_text};

use crate::conflict::Conflict;
use pc_lang_tokens::put_name;
use pc_list::Seq;
use pc_model::{Constraint, Run, Schema, When};
use pc_num::Memory;
use pc_report::put_runs;
use std::alloc::Global;

/// Appends the text of an answer: its first line, and for each member one with the runs that are possible without it. A place
/// that is none of the list has an empty name.
pub fn put_conflict(
    alloc: Global,
    schema: &Schema,
    out: &mut Vec<u8>,
    constraints: &[Constraint],
    answer: &Conflict,
) -> Result<(), Memory>
    requires { HaveScales schema.now.columns }
    ensures ok { OnOk result (out.new.items ≡ out.old.items ++ conflict_text schema.now constraints.now answer.now) }
    ensures err { OnErr result (out.new.items ≡ out.old.items) }
{
    let text = text_of(alloc, schema, constraints, answer)?;
    out.extend_from_slice(text.as_slice())?;
    Ok(())
}

fn text_of(
    alloc: Global,
    schema: &Schema,
    constraints: &[Constraint],
    answer: &Conflict,
) -> Result<Vec<u8>, Memory>
    requires { HaveScales schema.now.columns }
    ensures { IfOk result (λ text. text.items ≡ conflict_text schema.now constraints.now answer.now) }
{
    let mut text = Vec::new(alloc);
    put_answer(alloc, schema, &mut text, constraints, answer)?;
    Ok(text)
}

fn put_answer(
    alloc: Global,
    schema: &Schema,
    out: &mut Vec<u8>,
    constraints: &[Constraint],
    answer: &Conflict,
) -> Result<(), Memory>
    requires { HaveScales schema.now.columns }
    ensures { OnOk result (out.new.items ≡ out.old.items ++ conflict_text schema.now constraints.now answer.now) }
{
    match answer {
        Conflict::Possible(runs) => put_possible(alloc, schema, out, runs.as_slice()),
        Conflict::Core { members, without } => put_core(
            alloc,
            schema,
            out,
            constraints,
            members.as_slice(),
            without.as_slice(),
        ),
        Conflict::Undecided { tested } => {
            put_undecided(alloc, out, constraints, tested.as_slice())
        }
    }
}

#[tactic(auto, unfolding(pc_report::specs::Report::titled_text))]
fn put_possible(
    alloc: Global,
    schema: &Schema,
    out: &mut Vec<u8>,
    runs: &[Run],
) -> Result<(), Memory>
    requires { HaveScales schema.now.columns }
    ensures { OnOk result (out.new.items ≡ out.old.items ++ titled_text schema.now (codes "conflict none") runs.now) }
{
    put_title(out, "conflict none")?;
    put_runs(alloc, schema, out, runs)
}

// Appends a line.
fn put_title(out: &mut Vec<u8>, title: &str) -> Result<(), Memory>
    ensures { OnOk result (out.new.items ≡ out.old.items ++ (title.now ++ codes "\n")) }
{
    out.extend_from_slice(title.as_bytes())?;
    out.push(b'\n')?;
    Ok(())
}

#[tactic(auto, unfolding(crate::specs::Texts::core_text))]
fn put_core(
    alloc: Global,
    schema: &Schema,
    out: &mut Vec<u8>,
    constraints: &[Constraint],
    members: &[u32],
    without: &[Seq<Run>],
) -> Result<(), Memory>
    requires { HaveScales schema.now.columns }
    ensures { OnOk result (out.new.items ≡ out.old.items ++ core_text schema.now constraints.now members.now without.now) }
{
    out.extend_from_slice(b"conflict ")?;
    put_rules(alloc, out, constraints, members)?;
    out.push(b'\n')?;
    put_withouts(alloc, schema, out, constraints, members, without)
}

#[tactic(auto, unfolding(crate::specs::Texts::undecided_text))]
fn put_undecided(
    alloc: Global,
    out: &mut Vec<u8>,
    constraints: &[Constraint],
    tested: &[u32],
) -> Result<(), Memory>
    ensures { OnOk result (out.new.items ≡ out.old.items ++ undecided_text constraints.now tested.now) }
{
    put_title(out, "conflict undecided")?;
    out.extend_from_slice(b"tested ")?;
    put_rules(alloc, out, constraints, tested)?;
    out.push(b'\n')?;
    Ok(())
}

// Appends for each member its name, and the runs of a list that is possible for the others.
#[tactic(auto, using(crate::proofs::Withouts::steps))]
fn put_withouts(
    alloc: Global,
    schema: &Schema,
    out: &mut Vec<u8>,
    constraints: &[Constraint],
    members: &[u32],
    without: &[Seq<Run>],
) -> Result<(), Memory>
    requires { HaveScales schema.now.columns }
    ensures { OnOk result (out.new.items ≡ out.old.items ++ withouts_text schema.now constraints.now members.now without.now) }
{
    for (index, member) in members.iter().enumerate() {
        if without.len() <= index {
            return Ok(());
        }
        put_without(
            alloc,
            schema,
            out,
            constraints,
            *member,
            without[index].as_slice(),
        )?;
    }
    Ok(())
}

#[tactic(auto, unfolding(crate::specs::Texts::without_text, pc_report::specs::Report::titled_text))]
fn put_without(
    alloc: Global,
    schema: &Schema,
    out: &mut Vec<u8>,
    constraints: &[Constraint],
    member: u32,
    runs: &[Run],
) -> Result<(), Memory>
    requires { HaveScales schema.now.columns }
    ensures { OnOk result (out.new.items ≡ out.old.items ++ without_text schema.now constraints.now member runs.now) }
{
    out.extend_from_slice(b"without ")?;
    put_rule(alloc, out, constraints, member)?;
    out.push(b'\n')?;
    put_runs(alloc, schema, out, runs)
}

// Appends the names of the constraints at these places, with a comma and a space between two.
fn put_rules(
    alloc: Global,
    out: &mut Vec<u8>,
    constraints: &[Constraint],
    places: &[u32],
) -> Result<(), Memory>
    ensures { OnOk result (out.new.items ≡ out.old.items ++ rules_text constraints.now places.now) }
{
    match places {
        [place, places @ ..] => {
            put_rule(alloc, out, constraints, *place)?;
            put_next_rules(alloc, out, constraints, places)
        }
        [] => Ok(()),
    }
}

#[tactic(auto, using(std::proofs::lemmas::List::flat_map_more), unfolding(crate::specs::Texts::next_rules_text))]
fn put_next_rules(
    alloc: Global,
    out: &mut Vec<u8>,
    constraints: &[Constraint],
    places: &[u32],
) -> Result<(), Memory>
    ensures { OnOk result (out.new.items ≡ out.old.items ++ next_rules_text constraints.now places.now) }
{
    for place in places {
        put_next_rule(alloc, out, constraints, *place)?;
    }
    Ok(())
}

fn put_next_rule(
    alloc: Global,
    out: &mut Vec<u8>,
    constraints: &[Constraint],
    place: u32,
) -> Result<(), Memory>
    ensures { OnOk result (out.new.items ≡ out.old.items ++ (codes ", " ++ rule_at constraints.now place)) }
{
    out.extend_from_slice(b", ")?;
    put_rule(alloc, out, constraints, place)
}

// Appends the name of the constraint at a place.
fn put_rule(
    alloc: Global,
    out: &mut Vec<u8>,
    constraints: &[Constraint],
    place: u32,
) -> Result<(), Memory>
    ensures { OnOk result (out.new.items ≡ out.old.items ++ rule_at constraints.now place) }
{
    match constraints.get(place as usize) {
        Some(constraint) => put_rule_name(alloc, out, constraint),
        None => Ok(()),
    }
}

fn put_rule_name(alloc: Global, out: &mut Vec<u8>, constraint: &Constraint) -> Result<(), Memory>
    ensures { OnOk result (out.new.items ≡ out.old.items ++ rule_name constraint.now.when constraint.now.name) }
{
    match &constraint.when {
        When::Boxes(_) => put_name(alloc, out, constraint.name.as_str()),
        When::Outside => {
            out.extend_from_slice(b"outside")?;
            Ok(())
        }
    }
}
