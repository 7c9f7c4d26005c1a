ghost use Rattle.std.specs.Prelude.{◌≡◌, true, false};
ghost use Rattle.pc_model.specs.WellFormed.{IsWellFormed};
ghost use Rattle.pc_model.specs.Accepted.{IsQuery};
ghost use Rattle.pc_document_format.specs.Formats.{read_line};
ghost use Rattle.pc_document.specs.Places.{IsLineStart, Reads, lines_at};
ghost use Rattle.pc_document.specs.Reading.{read_end, read_ends, end_after, tagged_end};
ghost use Rattle.pc_document_lines.specs.ValueLines.{read_end_line};

use crate::halt::Halt;
use crate::places::first_line_at;
use crate::proof::proof_at;
use crate::runs::runs_at;
use pc_document_lines::{EndLine, Side, read_end_line};
use pc_model::{Query, Schema};
use pc_proof::{End, Mark};
use std::alloc::Global;

/// The two ends from a place on, and the place after them.
#[tactic(auto, unfolding(crate::specs::Reading::read_ends))]
pub(crate) fn ends_at(
    alloc: Global,
    schema: &Schema,
    query: &Query,
    bytes: &[u8],
    at: usize,
) -> Result<(Option<(End, End)>, usize), Halt>
    requires well_formed { IsWellFormed schema.now }
    requires query { IsQuery schema.now query.now }
    requires start { IsLineStart bytes.now at }
    ensures { Reads bytes.now result (read_ends schema.now query.now (lines_at bytes.now at)) }
{
    let (low, at) = end_at(alloc, schema, query, Side::Low, bytes, at)?;
    let (high, at) = end_at(alloc, schema, query, Side::High, bytes, at)?;
    Ok((Some((low, high)), at))
}

#[tactic(auto, unfolding(crate::specs::Reading::read_end))]
fn end_at(
    alloc: Global,
    schema: &Schema,
    query: &Query,
    side: Side,
    bytes: &[u8],
    at: usize,
) -> Result<(End, usize), Halt>
    requires well_formed { IsWellFormed schema.now }
    requires query { IsQuery schema.now query.now }
    requires start { IsLineStart bytes.now at }
    ensures { Reads bytes.now result (read_end schema.now query.now side (lines_at bytes.now at)) }
{
    let (line, at) = end_line_at(alloc, schema, query, side, bytes, at)?;
    end_after(alloc, schema, query, line, bytes, at)
}

fn end_line_at(
    alloc: Global,
    schema: &Schema,
    query: &Query,
    side: Side,
    bytes: &[u8],
    at: usize,
) -> Result<(EndLine, usize), Halt>
    requires well_formed { IsWellFormed schema.now }
    requires query { IsQuery schema.now query.now }
    requires start { IsLineStart bytes.now at }
    ensures { Reads bytes.now result (read_line (read_end_line schema.now query.now side) (lines_at bytes.now at)) }
{
    let (line, next) = first_line_at(bytes, at)?;
    match read_end_line(alloc, schema, query, side, line)? {
        Some(line) => Ok((line, next)),
        None => Err(Halt::Fault { at }),
    }
}

/// The end whose line was read, with its runs where it is exact, and its proof.
fn end_after(
    alloc: Global,
    schema: &Schema,
    query: &Query,
    line: EndLine,
    bytes: &[u8],
    at: usize,
) -> Result<(End, usize), Halt>
    requires well_formed { IsWellFormed schema.now }
    requires query { IsQuery schema.now query.now }
    requires start { IsLineStart bytes.now at }
    ensures { Reads bytes.now result (tagged_end schema.now query.now line (lines_at bytes.now at)) }
{
    if line.exact {
        return exact_end(alloc, schema, query, line, bytes, at);
    }
    outer_end(alloc, schema, query, line, bytes, at)
}

fn exact_end(
    alloc: Global,
    schema: &Schema,
    query: &Query,
    line: EndLine,
    bytes: &[u8],
    at: usize,
) -> Result<(End, usize), Halt>
    requires well_formed { IsWellFormed schema.now }
    requires query { IsQuery schema.now query.now }
    requires start { IsLineStart bytes.now at }
    ensures { Reads bytes.now result (end_after schema.now query.now true line.value (lines_at bytes.now at)) }
{
    let (runs, at) = runs_at(alloc, schema, bytes, at)?;
    let (proof, at) = proof_at(alloc, schema, query, bytes, at)?;
    let end = End {
        value: line.value,
        mark: Mark::Exact(runs),
        proof,
    };
    Ok((end, at))
}

fn outer_end(
    alloc: Global,
    schema: &Schema,
    query: &Query,
    line: EndLine,
    bytes: &[u8],
    at: usize,
) -> Result<(End, usize), Halt>
    requires well_formed { IsWellFormed schema.now }
    requires query { IsQuery schema.now query.now }
    requires start { IsLineStart bytes.now at }
    ensures { Reads bytes.now result (end_after schema.now query.now false line.value (lines_at bytes.now at)) }
{
    let (proof, at) = proof_at(alloc, schema, query, bytes, at)?;
    let end = End {
        value: line.value,
        mark: Mark::Outer,
        proof,
    };
    Ok((end, at))
}
