ghost use Rattle.std.specs.Prelude.{◌≡◌};
ghost use Rattle.pc_model.specs.WellFormed.{IsWellFormed};
ghost use Rattle.pc_model.specs.Accepted.{IsQuery};
ghost use Rattle.pc_document_format.specs.Formats.{read_line};
ghost use Rattle.pc_document.specs.Places.{IsLineStart, Reads, lines_at};
ghost use Rattle.pc_document.specs.Reading.{read_proof, read_bounded, read_crossing, tagged_proof};
ghost use Rattle.pc_document_lines.specs.ValueLines.{read_proof_line, read_outer_line};

use crate::halt::Halt;
use crate::places::first_line_at;
use crate::tree::tree_at;
use pc_document_lines::{ProofLine, Side, read_outer_line, read_proof_line};
use pc_model::{Query, Schema};
use pc_num::Frac;
use pc_proof::{Bounded, Proof};
use std::alloc::Global;

/// The proof of an end that begins at a place, and the place after it.
#[tactic(auto, unfolding(crate::specs::Reading::read_proof))]
pub(crate) fn proof_at(
    alloc: Global,
    schema: &Schema,
    query: &Query,
    bytes: &[u8],
    at: usize,
) -> Result<(Proof, usize), Halt>
    requires well_formed { IsWellFormed schema.now }
    requires query { IsQuery schema.now query.now }
    requires start { IsLineStart bytes.now at }
    ensures { Reads bytes.now result (read_proof schema.now query.now (lines_at bytes.now at)) }
{
    let (line, at) = proof_line_at(alloc, schema, query, bytes, at)?;
    tagged_proof_at(alloc, line, bytes, at)
}

fn proof_line_at(
    alloc: Global,
    schema: &Schema,
    query: &Query,
    bytes: &[u8],
    at: usize,
) -> Result<(ProofLine, usize), Halt>
    requires well_formed { IsWellFormed schema.now }
    requires query { IsQuery schema.now query.now }
    requires start { IsLineStart bytes.now at }
    ensures { Reads bytes.now result (read_line (read_proof_line schema.now query.now) (lines_at bytes.now at)) }
{
    let (line, next) = first_line_at(bytes, at)?;
    match read_proof_line(alloc, schema, query, line)? {
        Some(line) => Ok((line, next)),
        None => Err(Halt::Fault { at }),
    }
}

fn tagged_proof_at(
    alloc: Global,
    line: ProofLine,
    bytes: &[u8],
    at: usize,
) -> Result<(Proof, usize), Halt>
    requires start { IsLineStart bytes.now at }
    ensures { Reads bytes.now result (tagged_proof line (lines_at bytes.now at)) }
{
    match line {
        ProofLine::Rows => Ok((Proof::Rows, at)),
        ProofLine::Tree => {
            let (tree, at) = tree_at(alloc, bytes, at)?;
            Ok((Proof::Tree(tree), at))
        }
        ProofLine::At(ratio) => {
            let (tree, at) = tree_at(alloc, bytes, at)?;
            Ok((Proof::At(ratio, tree), at))
        }
        ProofLine::Values => Ok((Proof::Values, at)),
    }
}

fn outer_line_at(
    alloc: Global,
    schema: &Schema,
    query: &Query,
    side: Side,
    bytes: &[u8],
    at: usize,
) -> Result<(Frac, usize), Halt>
    requires well_formed { IsWellFormed schema.now }
    requires query { IsQuery schema.now query.now }
    requires start { IsLineStart bytes.now at }
    ensures { Reads bytes.now result (read_line (read_outer_line schema.now query.now side) (lines_at bytes.now at)) }
{
    let (line, next) = first_line_at(bytes, at)?;
    match read_outer_line(alloc, schema, query, side, line)? {
        Some(value) => Ok((value, next)),
        None => Err(Halt::Fault { at }),
    }
}

/// An outer end with its proof.
#[tactic(auto, unfolding(crate::specs::Reading::read_bounded))]
fn bounded_at(
    alloc: Global,
    schema: &Schema,
    query: &Query,
    side: Side,
    bytes: &[u8],
    at: usize,
) -> Result<(Bounded, usize), Halt>
    requires well_formed { IsWellFormed schema.now }
    requires query { IsQuery schema.now query.now }
    requires start { IsLineStart bytes.now at }
    ensures { Reads bytes.now result (read_bounded schema.now query.now side (lines_at bytes.now at)) }
{
    let (value, at) = outer_line_at(alloc, schema, query, side, bytes, at)?;
    let (proof, at) = proof_at(alloc, schema, query, bytes, at)?;
    Ok((Bounded { value, proof }, at))
}

/// Two outer ends with their proofs, the low one first.
#[tactic(auto, unfolding(crate::specs::Reading::read_crossing))]
pub(crate) fn crossing_at(
    alloc: Global,
    schema: &Schema,
    query: &Query,
    bytes: &[u8],
    at: usize,
) -> Result<((Bounded, Bounded), usize), Halt>
    requires well_formed { IsWellFormed schema.now }
    requires query { IsQuery schema.now query.now }
    requires start { IsLineStart bytes.now at }
    ensures { Reads bytes.now result (read_crossing schema.now query.now (lines_at bytes.now at)) }
{
    let (low, at) = bounded_at(alloc, schema, query, Side::Low, bytes, at)?;
    let (high, at) = bounded_at(alloc, schema, query, Side::High, bytes, at)?;
    Ok(((low, high), at))
}
