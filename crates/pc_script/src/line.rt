ghost use Rattle.std.specs.Prelude.{◌≡◌, ◌≤◌, drop, length, IfOk};
ghost use Rattle.pc_model.specs.declared.schema.Schema.{Schema};
ghost use Rattle.pc_model.specs.Accepted.{AreConstraints};
ghost use Rattle.pc_model.specs.Refusals.{Answers};
ghost use Rattle.pc_model.specs.WellFormed.{IsWellFormed};
ghost use Rattle.pc_script.specs.Reading.{CanTake};
ghost use Rattle.pc_script.specs.Script.{added, added_row, added_rule, asked, dropped, dropped_row, dropped_rule, line_of};

use crate::known::Known;
use crate::places::{place_of, rule_place};
use crate::words::first_word;
use pc_lang::{constraint_from, query_from, rule_from};
use pc_model::{ReadStop, Reason, Schema};
use pc_rows::row_of;
use pc_session::{Edit, Line};
use std::alloc::Global;

const MOST_ROWS: u64 = 1_000_000;

const MOST_QUESTIONS: u64 = 1000;

/// The line that a text spells, with what is known of those before it.
#[tactic(auto, unfolding(crate::specs::Script::line_of))]
pub(crate) fn line_of(
    alloc: Global,
    schema: &Schema,
    known: &Known,
    text: &[u8],
) -> Result<Line, ReadStop>
    requires well_formed { IsWellFormed schema.now }
    requires accepted { AreConstraints schema.now known.now.constraints }
    ensures answers { Answers result (line_of schema.now known.now text.now) }
    ensures can { IfOk result (CanTake schema.now known.now) }
{
    let (word, rest) = first_word(text);
    if word == b"ask".as_slice() {
        return asked(alloc, schema, known, rest);
    }
    if word == b"add".as_slice() {
        return added(alloc, schema, known, rest);
    }
    if word == b"drop".as_slice() {
        return dropped(alloc, schema, known, rest);
    }
    Err(ReadStop::Reason(Reason::Unexpected))
}

#[tactic(auto, unfolding(crate::specs::Script::asked))]
fn asked(alloc: Global, schema: &Schema, known: &Known, text: &[u8]) -> Result<Line, ReadStop>
    requires { IsWellFormed schema.now }
    ensures answers { Answers result (asked schema.now known.now.questions text.now) }
    ensures can { IfOk result (CanTake schema.now known.now) }
{
    if MOST_QUESTIONS <= known.questions {
        return Err(ReadStop::Reason(Reason::TooMany));
    }
    let query = query_from(alloc, schema, text)?;
    Ok(Line::Asks(query))
}

#[tactic(auto, unfolding(crate::specs::Script::added))]
fn added(alloc: Global, schema: &Schema, known: &Known, text: &[u8]) -> Result<Line, ReadStop>
    requires well_formed { IsWellFormed schema.now }
    requires accepted { AreConstraints schema.now known.now.constraints }
    ensures answers { Answers result (added schema.now known.now text.now) }
    ensures can { IfOk result (CanTake schema.now known.now) }
{
    let (word, rest) = first_word(text);
    if word == b"row".as_slice() {
        return added_row(alloc, schema, known, rest);
    }
    if word == b"rule".as_slice() {
        return added_rule(alloc, schema, known, rest);
    }
    Err(ReadStop::Reason(Reason::Unexpected))
}

#[tactic(auto, unfolding(crate::specs::Script::dropped))]
fn dropped(alloc: Global, schema: &Schema, known: &Known, text: &[u8]) -> Result<Line, ReadStop>
    requires { AreConstraints schema.now known.now.constraints }
    ensures answers { Answers result (dropped known.now text.now) }
    ensures can { IfOk result (CanTake schema.now known.now) }
{
    let (word, rest) = first_word(text);
    if word == b"row".as_slice() {
        return dropped_row(known, rest);
    }
    if word == b"rule".as_slice() {
        return dropped_rule(alloc, known, rest);
    }
    Err(ReadStop::Reason(Reason::Unexpected))
}

#[tactic(auto, using(pc_model::proofs::FewNames::have_few_names), unfolding(crate::specs::Script::added_row))]
fn added_row(alloc: Global, schema: &Schema, known: &Known, text: &[u8]) -> Result<Line, ReadStop>
    requires { IsWellFormed schema.now }
    ensures answers { Answers result (added_row schema.now known.now.rows text.now) }
    ensures can { IfOk result (CanTake schema.now known.now) }
{
    if MOST_ROWS <= known.rows {
        return Err(ReadStop::Reason(Reason::TooMany));
    }
    let row = row_of(alloc, schema, after_separator(text))?;
    Ok(Line::Edits(Edit::AddRow(row)))
}

// A text without the blank that parts it from the words before it.
fn after_separator(text: &[u8]) -> &[u8]
    ensures { result.now ≡ drop 1 text.now }
{
    match text {
        [_, rest @ ..] => rest,
        [] => text,
    }
}

#[tactic(auto, unfolding(crate::specs::Script::added_rule))]
fn added_rule(alloc: Global, schema: &Schema, known: &Known, text: &[u8]) -> Result<Line, ReadStop>
    requires well_formed { IsWellFormed schema.now }
    requires accepted { AreConstraints schema.now known.now.constraints }
    ensures answers { Answers result (added_rule schema.now known.now.constraints text.now) }
    ensures can { IfOk result (CanTake schema.now known.now) }
{
    let constraint = constraint_from(alloc, schema, known.constraints.as_slice(), text)?;
    Ok(Line::Edits(Edit::AddRule(constraint)))
}

#[tactic(auto, unfolding(crate::specs::Script::dropped_row))]
fn dropped_row(known: &Known, text: &[u8]) -> Result<Line, ReadStop>
    ensures answers { Answers result (dropped_row known.now.rows text.now) }
    ensures can { (schema : Schema) → IfOk result (CanTake schema known.now) }
{
    let at = place_of(known.rows, text)?;
    Ok(Line::Edits(Edit::DropRow(at)))
}

#[tactic(auto, unfolding(crate::specs::Script::dropped_rule))]
fn dropped_rule(alloc: Global, known: &Known, text: &[u8]) -> Result<Line, ReadStop>
    requires { length known.now.constraints ≤ 20 }
    ensures answers { Answers result (dropped_rule known.now.constraints text.now) }
    ensures can { (schema : Schema) → IfOk result (CanTake schema known.now) }
{
    let name = rule_from(alloc, text)?;
    let at = rule_place(known.constraints.as_slice(), name.as_bytes())?;
    Ok(Line::Edits(Edit::DropRule(at)))
}
