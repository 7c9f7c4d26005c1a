ghost use Rattle.std.specs.Prelude.{◌≡◌, ◌++◌, ◌≤◌, IfOk, OnOk, Some, codes, drop, true};
ghost use Rattle.pc_model.specs.WellFormed.{IsWellFormed};
ghost use Rattle.pc_document_format.specs.Formats.{if_spelled};
ghost use Rattle.pc_proof.specs.Form.{IsFormedRatio};
ghost use Rattle.pc_report.specs.Units.{average_text};
ghost use Rattle.pc_document_lines.specs.Likely.{IsLikely};
ghost use Rattle.pc_document_lines.specs.ValueLines.{IsProofLine, is_proof_line, likely_proof, proof_text, read_proof_line};

use crate::tags::ProofLine;
use crate::values::{is_ratio, likely_average};
use pc_model::{Query, Schema};
use pc_num::{Frac, Memory, put_frac};
use pc_report::{in_column, scale_for};
use std::alloc::Global;

/// Appends the line of a proof.
#[tactic(auto, unfolding(crate::specs::ValueLines::proof_text))]
pub fn put_proof_line(
    alloc: Global,
    schema: &Schema,
    out: &mut Vec<u8>,
    query: &Query,
    line: &ProofLine,
) -> Result<(), Memory>
    requires well_formed { IsWellFormed schema.now }
    requires formed { IsProofLine line.now }
    ensures { OnOk result (out.new.items ≡ out.old.items ++ proof_text schema.now query.now line.now) }
{
    match line {
        ProofLine::Rows => put_word(out, "by rows"),
        ProofLine::Tree => put_word(out, "by tree"),
        ProofLine::At(ratio) => put_ratio(alloc, out, ratio, scale_for(schema, query.column)),
        ProofLine::Values => put_word(out, "by values"),
    }
}

fn put_word(out: &mut Vec<u8>, word: &str) -> Result<(), Memory>
    ensures { OnOk result (out.new.items ≡ out.old.items ++ word.now) }
{
    out.extend_from_slice(word.as_bytes())?;
    Ok(())
}

#[tactic(auto, using(crate::proofs::EndsRead::ratio_printable))]
fn put_ratio(alloc: Global, out: &mut Vec<u8>, ratio: &Frac, scale: u8) -> Result<(), Memory>
    requires formed { IsFormedRatio ratio.now }
    requires few { scale ≤ 6 }
    ensures { OnOk result (out.new.items ≡ out.old.items ++ (codes "by at " ++ average_text scale ratio.now)) }
{
    out.extend_from_slice(b"by at ")?;
    put_frac(alloc, out, &in_column(ratio, scale))
}

/// The line of a proof that this is, or none.
#[tactic(auto, using(crate::proofs::NumbersLikely::none_likely, crate::proofs::ProofLinesBack::read_proof), unfolding(crate::specs::ValueLines::read_proof_line))]
pub fn read_proof_line(
    alloc: Global,
    schema: &Schema,
    query: &Query,
    line: &[u8],
) -> Result<Option<ProofLine>, Memory>
    requires { IsWellFormed schema.now }
    ensures { IfOk result (λ found. found ≡ read_proof_line schema.now query.now line.now) }
{
    match likely_proof(alloc, schema, query, line)? {
        Some(proof) => if_spelled(alloc, schema, query, line, proof),
        None => Ok(None),
    }
}

// The line of a proof, if it may stand and this is its text.
fn if_spelled(
    alloc: Global,
    schema: &Schema,
    query: &Query,
    line: &[u8],
    proof: ProofLine,
) -> Result<Option<ProofLine>, Memory>
    requires well_formed { IsWellFormed schema.now }
    requires reduced { is_proof_line proof ≡ true → IsProofLine proof }
    ensures { IfOk result (λ found. found ≡ if_spelled (proof_text schema.now query.now) is_proof_line line.now (Some proof)) }
{
    if !is_proof_line(&proof) {
        return Ok(None);
    }
    let mut text = Vec::new(alloc);
    put_proof_line(alloc, schema, &mut text, query, &proof)?;
    if text.as_slice() != line {
        return Ok(None);
    }
    Ok(Some(proof))
}

fn is_proof_line(line: &ProofLine) -> bool
    ensures { result ≡ is_proof_line line.now }
{
    match line {
        ProofLine::At(ratio) => is_ratio(ratio),
        ProofLine::Rows | ProofLine::Tree | ProofLine::Values => true,
    }
}

// The only line of a proof that this can be, or none where that may not stand.
#[tactic(auto, using(crate::proofs::ProofLinesBack::no_ratio, pc_report::proofs::Scales::scales), unfolding(crate::specs::ValueLines::likely_proof))]
fn likely_proof(
    alloc: Global,
    schema: &Schema,
    query: &Query,
    line: &[u8],
) -> Result<Option<ProofLine>, Memory>
    requires { IsWellFormed schema.now }
    ensures { IfOk result (λ found. IsLikely is_proof_line (likely_proof schema.now query.now line.now) found) }
{
    if line == b"by rows".as_slice() {
        return Ok(Some(ProofLine::Rows));
    }
    if line == b"by tree".as_slice() {
        return Ok(Some(ProofLine::Tree));
    }
    if line == b"by values".as_slice() {
        return Ok(Some(ProofLine::Values));
    }
    let scale = scale_for(schema, query.column);
    match likely_average(alloc, scale, after_at(line))? {
        Some(ratio) => Ok(Some(ProofLine::At(ratio))),
        None => Ok(None),
    }
}

// What stands after `by at `.
fn after_at(line: &[u8]) -> &[u8]
    ensures { result.now ≡ drop 6 line.now }
{
    line.get(6..).unwrap_or_default()
}
