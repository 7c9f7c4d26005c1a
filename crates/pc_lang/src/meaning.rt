ghost use Rattle.std.specs.Prelude.{◌≡◌, IfOk};
ghost use Rattle.std.specs.Char.{is_ascii_digit};
ghost use Rattle.std.specs.List.{list_all};
ghost use Rattle.pc_model.specs.Refusals.{Answers};
ghost use Rattle.pc_model.specs.WellFormed.{IsWellFormed};
ghost use Rattle.pc_lang.specs.Meaning.{IsAcceptedAfter, at_most_limit, constraint_of, count_of, has_name, in_order, name_of, new_constraint, when_of};

use crate::area::area_of;
use crate::canonical_part::no_text;
use crate::part::region_of;
use pc_lang_grammar::{Head, Line};
use pc_list::Text;
use pc_model::{Constraint, ReadStop, Reason, Region, Schema, When, read_number};
use std::alloc::Global;

const MOST_CONSTRAINTS: usize = 20;

const MOST_ROWS: u64 = 10_000_000;

/// The constraint that a line stands for, after those before it.
#[tactic(auto, using(crate::proofs::AcceptedLines::line_is_accepted))]
pub(crate) fn constraint_of(
    alloc: Global,
    schema: &Schema,
    before: &[Constraint],
    line: Line,
) -> Result<Constraint, ReadStop>
    requires well_formed { IsWellFormed schema.now }
    ensures answers { Answers result (constraint_of schema.now before.now line) }
    ensures accepted { IfOk result (IsAcceptedAfter schema.now before.now line) }
{
    checked_constraint(alloc, schema, before, line)
}

#[tactic(auto, unfolding(crate::specs::Meaning::constraint_of))]
fn checked_constraint(
    alloc: Global,
    schema: &Schema,
    before: &[Constraint],
    line: Line,
) -> Result<Constraint, ReadStop>
    requires well_formed { IsWellFormed schema.now }
    ensures { Answers result (constraint_of schema.now before.now line) }
{
    if MOST_CONSTRAINTS <= before.len() {
        return Err(ReadStop::Reason(Reason::TooMany));
    }
    if is_named_already(before, &line.head) {
        return Err(ReadStop::Reason(Reason::RepeatedName));
    }
    new_constraint(alloc, schema, line)
}

// Whether the name of a line stands before it. That of the rows outside is the empty text.
fn is_named_already(before: &[Constraint], head: &Head) -> bool
    ensures { result ≡ has_name before.now (name_of head.now) }
{
    match head {
        Head::Named { name, .. } => has_name(before, name.as_bytes()),
        Head::Outside => has_name(before, &[]),
    }
}

fn has_name(constraints: &[Constraint], name: &[u8]) -> bool
    ensures { result ≡ has_name constraints.now name.now }
{
    constraints
        .iter()
        .any(|constraint| constraint.name.as_bytes() == name)
}

#[tactic(auto, unfolding(crate::specs::Meaning::new_constraint))]
fn new_constraint(alloc: Global, schema: &Schema, line: Line) -> Result<Constraint, ReadStop>
    requires well_formed { IsWellFormed schema.now }
    ensures { Answers result (new_constraint schema.now line) }
{
    let when = when_of(alloc, schema, &line.head)?;
    let values = region_of(alloc, schema, &line.values)?;
    let least = count_of(line.least.as_slice())?;
    let most = count_of(line.most.as_slice())?;
    Ok(in_order(own_name(alloc, line.head), when, values, least, most)?)
}

#[tactic(auto, unfolding(crate::specs::Meaning::when_of))]
fn when_of(alloc: Global, schema: &Schema, head: &Head) -> Result<When, ReadStop>
    requires { IsWellFormed schema.now }
    ensures { Answers result (when_of schema.now head.now) }
{
    match head {
        Head::Named { when, .. } => Ok(When::Boxes(area_of(alloc, schema, when)?)),
        Head::Outside => Ok(When::Outside),
    }
}

fn own_name(alloc: Global, head: Head) -> Text
    ensures { result ≡ name_of head }
{
    match head {
        Head::Named { name, .. } => name,
        Head::Outside => no_text(alloc),
    }
}

fn in_order(
    name: Text,
    when: When,
    values: Region,
    least: u64,
    most: u64,
) -> Result<Constraint, Reason>
    ensures { result ≡ in_order name when values least most }
{
    if most < least {
        return Err(Reason::LeastOverMost);
    }
    Ok(Constraint {
        name,
        when,
        values,
        least,
        most,
    })
}

// A number of rows is spelled by digits alone.
#[tactic(auto, unfolding(crate::specs::Meaning::count_of))]
fn count_of(text: &[u8]) -> Result<u64, Reason>
    ensures { result ≡ count_of text.now }
{
    if !are_digits(text) {
        return Err(Reason::BadNumber);
    }
    let number = read_number(text, 0)?;
    at_most_limit(number.unsigned_abs())
}

pub(crate) fn are_digits(text: &[u8]) -> bool
    ensures { result ≡ list_all is_ascii_digit text.now }
{
    text.iter().all(|byte| byte.is_ascii_digit())
}

fn at_most_limit(rows: u64) -> Result<u64, Reason>
    ensures { result ≡ at_most_limit rows }
{
    if MOST_ROWS < rows {
        return Err(Reason::PastLimit);
    }
    Ok(rows)
}
