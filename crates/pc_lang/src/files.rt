ghost use Rattle.std.specs.Prelude.{◌≡◌, get_or, ◌∷◌, ◌++◌, [], IfOk};
ghost use Rattle.pc_model.specs.Accepted.{AreConstraints, IsQuery};
ghost use Rattle.pc_model.specs.Refusals.{Answers, Gives};
ghost use Rattle.pc_model.specs.WellFormed.{IsWellFormed};
ghost use Rattle.pc_lang.specs.Files.{line_from, question_from, constraint_from, with_line, with_line_at, constraints_from, lines_of, constraints_of, constraints_after, limits_of, refusal_of_limits, query_from, query_at, line_number, constraint_lines, left_after};
ghost use Rattle.pc_lang.specs.Meaning.{IsNamed};

use crate::lines::{first_line, is_passed_over, without_return};
use crate::meaning::constraint_of;
use crate::query::query_of;
use pc_lang_grammar::{Line, Question, read_line, read_question};
use pc_lang_tokens::read_tokens;
use pc_list::Seq;
use pc_model::{Constraint, Fault, FileKind, Query, ReadStop, Refusal, Schema, text_of};
use std::alloc::Global;

/// Reads the constraints of a file. The place of a fault is the number of its line, and 0 for the file as a whole.
pub fn read_constraints(
    alloc: Global,
    schema: &Schema,
    bytes: &[u8],
) -> Result<Seq<Constraint>, Refusal>
    requires well_formed { IsWellFormed schema.now }
    ensures gives { Gives result (constraints_of schema.now bytes.now) }
    ensures accepted { IfOk result (AreConstraints schema.now) }
{
    constraints_after(alloc, schema, Seq::new(alloc), bytes)
}

/// Reads the lines of a file of limits after these constraints, as if they went on in one file. The place of a fault is
/// that in the file of limits.
#[tactic(auto, unfolding(crate::specs::Files::limits_of), using(crate::proofs::FileLines::limits_refused))]
pub fn read_limits(
    alloc: Global,
    schema: &Schema,
    constraints: Seq<Constraint>,
    bytes: &[u8],
) -> Result<Seq<Constraint>, Refusal>
    requires well_formed { IsWellFormed schema.now }
    requires accepted { AreConstraints schema.now constraints }
    ensures gives { Gives result (limits_of schema.now constraints bytes.now) }
    ensures accepted { IfOk result (AreConstraints schema.now) }
{
    match constraints_after(alloc, schema, constraints, bytes) {
        Ok(all) => Ok(all),
        Err(refusal) => Err(of_limits(refusal)),
    }
}

fn of_limits(refusal: Refusal) -> Refusal
    ensures { result ≡ refusal_of_limits refusal }
{
    match refusal {
        Refusal::Fault(fault) => Refusal::Fault(Fault {
            file: FileKind::Limits,
            place: fault.place,
            reason: fault.reason,
        }),
        Refusal::Memory => Refusal::Memory,
    }
}

#[tactic(auto, using(crate::proofs::FileLines::texts))]
fn constraints_after(
    alloc: Global,
    schema: &Schema,
    before: Seq<Constraint>,
    bytes: &[u8],
) -> Result<Seq<Constraint>, Refusal>
    requires well_formed { IsWellFormed schema.now }
    requires accepted { AreConstraints schema.now before }
    ensures gives { Gives result (constraints_after schema.now before bytes.now) }
    ensures accepted { IfOk result (AreConstraints schema.now) }
{
    match text_of(bytes) {
        Ok(text) => constraints_of_text(alloc, schema, before, text),
        Err(reason) => Err(ReadStop::Reason(reason).at(FileKind::Constraints, 0)),
    }
}

/// Reads a query. The place of a fault is the given one.
pub fn read_query(alloc: Global, schema: &Schema, text: &str, place: u64) -> Result<Query, Refusal>
    requires well_formed { IsWellFormed schema.now }
    ensures gives { Gives result (query_at schema.now place text.now) }
    ensures accepted { IfOk result (IsQuery schema.now) }
{
    match query_from(alloc, schema, text.as_bytes()) {
        Ok(query) => Ok(query),
        Err(stop) => Err(stop.at(FileKind::Query, place)),
    }
}

/// The number of the line on which the constraint at a place, from 0, stands in a file that is accepted.
pub fn line_number(bytes: &[u8], place: usize) -> u64
    ensures { result ≡ line_number bytes.now place }
{
    match text_of(bytes) {
        Ok(text) => number_in(text, place),
        Err(_) => 0,
    }
}

#[tactic(auto, using(crate::proofs::FileLines::numbers))]
fn number_in(text: &[u8], place: usize) -> u64
    ensures { result ≡ get_or (constraint_lines 1 (lines_of text.now)) place 0 }
{
    let mut before = place;
    let mut number = 1;
    let mut rest = text;
    while let Some((line, after)) = first_line(rest) {
        let Some(left) = left_after(line, before) else {
            return number;
        };
        before = left;
        number += 1;
        rest = after;
    }
    match left_after(rest, before) {
        None => number,
        Some(_) => 0,
    }
}

// How many constraints stand before one after this line, of so many before the line; none where the line has that one.
#[tactic(auto, unfolding(crate::specs::Files::left_after))]
fn left_after(line: &[u8], before: usize) -> Option<usize>
    ensures { result ≡ left_after line.now before }
{
    if is_passed_over(without_return(line)) {
        return Some(before);
    }
    before.checked_sub(1)
}

fn constraints_of_text(
    alloc: Global,
    schema: &Schema,
    before: Seq<Constraint>,
    text: &[u8],
) -> Result<Seq<Constraint>, Refusal>
    requires well_formed { IsWellFormed schema.now }
    requires accepted { AreConstraints schema.now before }
    ensures gives { Gives result (constraints_from schema.now 1 before (lines_of text.now)) }
    ensures accepted { IfOk result (AreConstraints schema.now) }
{
    let mut constraints = before;
    let mut place = 1;
    let mut rest = text;
    while let Some((line, after)) = first_line(rest) {
        constraints = with_line_at(alloc, schema, place, constraints, line)?;
        place += 1;
        rest = after;
    }
    with_line_at(alloc, schema, place, constraints, rest)
}

fn with_line_at(
    alloc: Global,
    schema: &Schema,
    place: u64,
    before: Seq<Constraint>,
    line: &[u8],
) -> Result<Seq<Constraint>, Refusal>
    requires well_formed { IsWellFormed schema.now }
    requires accepted { AreConstraints schema.now before }
    ensures gives { Gives result (with_line_at schema.now place before line.now) }
    ensures accepted { IfOk result (AreConstraints schema.now) }
{
    match with_line(alloc, schema, before, without_return(line)) {
        Ok(constraints) => Ok(constraints),
        Err(stop) => Err(stop.at(FileKind::Constraints, place)),
    }
}

#[tactic(auto, unfolding(crate::specs::Files::with_line))]
fn with_line(
    alloc: Global,
    schema: &Schema,
    mut before: Seq<Constraint>,
    line: &[u8],
) -> Result<Seq<Constraint>, ReadStop>
    requires well_formed { IsWellFormed schema.now }
    requires accepted { AreConstraints schema.now before }
    ensures answers { Answers result (with_line schema.now before line.now) }
    ensures accepted { IfOk result (AreConstraints schema.now) }
{
    if is_passed_over(line) {
        return Ok(before);
    }
    let constraint = constraint_from(alloc, schema, before.as_slice(), line)?;
    before.push(constraint)?;
    Ok(before)
}

/// Reads the constraint that all of a text spells, after those before it.
#[tactic(auto, unfolding(crate::specs::Files::constraint_from))]
pub fn constraint_from(
    alloc: Global,
    schema: &Schema,
    before: &[Constraint],
    line: &[u8],
) -> Result<Constraint, ReadStop>
    requires well_formed { IsWellFormed schema.now }
    requires accepted { AreConstraints schema.now before.now }
    ensures answers { Answers result (constraint_from schema.now before.now line.now) }
    ensures accepted { IfOk result (λ c. AreConstraints schema.now (before.now ++ c ∷ [])) }
{
    let line = line_from(alloc, line)?;
    constraint_of(alloc, schema, before, line)
}

// The line that the text spells.
#[tactic(auto, using(crate::proofs::ReadTexts::line_steps), unfolding(crate::specs::Files::line_from))]
fn line_from(alloc: Global, text: &[u8]) -> Result<Line, ReadStop>
    ensures answers { Answers result (line_from text.now) }
    ensures named { IfOk result (λ line. IsNamed line.head) }
{
    let tokens = read_tokens(alloc, text)?;
    Ok(read_line(alloc, tokens.list.as_slice())?)
}

#[tactic(auto, unfolding(crate::specs::Files::question_from))]
fn question_from(alloc: Global, text: &[u8]) -> Result<Question, ReadStop>
    ensures { Answers result (question_from text.now) }
{
    let tokens = read_tokens(alloc, text)?;
    Ok(read_question(alloc, tokens.list.as_slice())?)
}

/// Reads the query that all of a text spells.
#[tactic(auto, unfolding(crate::specs::Files::query_from))]
pub fn query_from(alloc: Global, schema: &Schema, text: &[u8]) -> Result<Query, ReadStop>
    requires well_formed { IsWellFormed schema.now }
    ensures answers { Answers result (query_from schema.now text.now) }
    ensures accepted { IfOk result (IsQuery schema.now) }
{
    let question = question_from(alloc, text)?;
    query_of(alloc, schema, &question)
}
