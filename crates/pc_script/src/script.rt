ghost use Rattle.std.specs.Prelude.{◌≡◌, ◌≤◌, [], length, IfOk};
ghost use Rattle.pc_model.specs.Accepted.{AreConstraints};
ghost use Rattle.pc_model.specs.Refusals.{Answers, Gives, placed};
ghost use Rattle.pc_model.specs.WellFormed.{IsWellFormed};
ghost use Rattle.pc_model.specs.declared.fault.FileKind.TheVariants as files;
ghost use Rattle.pc_lang.specs.Files.{lines_of, without_return};
ghost use Rattle.pc_session.specs.Edited.{CanFollowAll, Held};
ghost use Rattle.pc_script.specs.Reading.{CanTake, GivesLines, HasRoom, IsReadingOf, ReadsOn, reading_then};
ghost use Rattle.pc_script.specs.Script.{line_at, lines_from, script_of, with_line};

use crate::known::Known;
use crate::line::line_of;
use pc_lang::{first_line, is_passed_over, without_return};
use pc_list::Seq;
use pc_model::{Constraint, FileKind, ReadStop, Reason, Refusal, Schema, text_of};
use pc_num::Memory;
use pc_rows::Rows;
use pc_session::{Line, copies_of};
use std::alloc::Global;

const MOST_LINES: usize = 10_000;

/// The lines that were read, and what is known after them.
#[derive(Debug, Drop)]
pub(crate) struct Reading {
    pub(crate) lines: Seq<Line>,
    pub(crate) known: Known,
}

/// Reads a script over the rows and constraints that are held at its start. The place of a fault is the number of its
/// line, and 0 for the script as a whole.
#[tactic(auto, unfolding(crate::specs::Script::script_of))]
pub fn read_script(
    alloc: Global,
    schema: &Schema,
    rows: &Rows,
    constraints: &[Constraint],
    bytes: &[u8],
) -> Result<Seq<Line>, Refusal>
    requires well_formed { IsWellFormed schema.now }
    requires accepted { AreConstraints schema.now constraints.now }
    ensures gives { Gives result (script_of schema.now (record { rows = rows.now; constraints = constraints.now }) bytes.now) }
    ensures can { IfOk result (CanFollowAll schema.now (record { rows = rows.now; constraints = constraints.now })) }
{
    match text_of(bytes) {
        Ok(text) => lines_of_text(alloc, schema, rows, constraints, text),
        Err(reason) => Err(ReadStop::Reason(reason).at(FileKind::Script, 0)),
    }
}

fn lines_of_text(
    alloc: Global,
    schema: &Schema,
    rows: &Rows,
    constraints: &[Constraint],
    text: &[u8],
) -> Result<Seq<Line>, Refusal>
    requires well_formed { IsWellFormed schema.now }
    requires accepted { AreConstraints schema.now constraints.now }
    ensures gives { Gives result (lines_from schema.now (record { rows = rows.now; constraints = constraints.now }) 1 [] (lines_of text.now)) }
    ensures can { IfOk result (CanFollowAll schema.now (record { rows = rows.now; constraints = constraints.now })) }
{
    let mut reading = begin(alloc, rows, constraints)?;
    let mut place = 1;
    let mut rest = text;
    while let Some((line, after)) = first_line(rest) {
        reading = with_line_at(alloc, schema, place, reading, line)?;
        place += 1;
        rest = after;
    }
    let reading = with_line_at(alloc, schema, place, reading, rest)?;
    Ok(reading.lines)
}

fn begin(alloc: Global, rows: &Rows, constraints: &[Constraint]) -> Result<Reading, Memory>
    ensures lines { IfOk result (λ reading. reading.lines ≡ []) }
    ensures constraints { IfOk result (λ reading. reading.known.constraints ≡ constraints.now) }
    ensures reading { IfOk result (λ reading. (schema : Schema) → IsReadingOf schema (record { rows = rows.now; constraints = constraints.now }) reading) }
{
    Ok(Reading {
        lines: Seq::new(alloc),
        known: Known {
            rows: rows.count(),
            constraints: copies_of(alloc, constraints)?,
            questions: 0,
        },
    })
}

fn with_line_at(
    alloc: Global,
    schema: &Schema,
    place: u64,
    before: Reading,
    line: &[u8],
) -> Result<Reading, Refusal>
    requires well_formed { IsWellFormed schema.now }
    requires accepted { AreConstraints schema.now before.known.constraints }
    ensures gives { (start : Held) → IsReadingOf schema.now start before → GivesLines schema.now start result (placed files.Script place (with_line schema.now start before.lines (without_return line.now))) }
    ensures accepted { IfOk result (λ after. AreConstraints schema.now after.known.constraints) }
{
    match with_line(alloc, schema, before, without_return(line)) {
        Ok(after) => Ok(after),
        Err(stop) => Err(stop.at(FileKind::Script, place)),
    }
}

#[tactic(auto, using(crate::proofs::OneMore::steps, crate::proofs::ScriptLines::one_line))]
fn with_line(
    alloc: Global,
    schema: &Schema,
    before: Reading,
    text: &[u8],
) -> Result<Reading, ReadStop>
    requires well_formed { IsWellFormed schema.now }
    requires accepted { AreConstraints schema.now before.known.constraints }
    ensures reads { (start : Held) → IsReadingOf schema.now start before → ReadsOn schema.now start result (with_line schema.now start before.lines text.now) }
    ensures accepted { IfOk result (λ after. AreConstraints schema.now after.known.constraints) }
{
    if is_passed_over(text) {
        return Ok(before);
    }
    let line = line_at(alloc, schema, before.lines.len(), &before.known, text)?;
    Ok(with_one_more(before, line)?)
}

// The lines with one more, which can be followed there.
fn with_one_more(before: Reading, line: Line) -> Result<Reading, Memory>
    requires room { HasRoom before.known line }
    ensures { IfOk result (λ after. after ≡ reading_then before line) }
{
    let Reading { mut lines, known } = before;
    let known = known.then(&line)?;
    lines.push(line)?;
    Ok(Reading { lines, known })
}

#[tactic(auto, unfolding(crate::specs::Script::line_at))]
fn line_at(
    alloc: Global,
    schema: &Schema,
    count: usize,
    known: &Known,
    text: &[u8],
) -> Result<Line, ReadStop>
    requires well_formed { IsWellFormed schema.now }
    requires accepted { AreConstraints schema.now known.now.constraints }
    ensures answers { Answers result (line_at schema.now count known.now text.now) }
    ensures can { IfOk result (CanTake schema.now known.now) }
{
    if MOST_LINES <= count {
        return Err(ReadStop::Reason(Reason::TooMany));
    }
    line_of(alloc, schema, known, text)
}
