ghost use Rattle.std.specs.Prelude.{◌≡◌, ◌++◌, ◌∷◌, IfOk, OnOk, Some, map, true};
ghost use Rattle.pc_model.specs.WellFormed.{IsWellFormed};
ghost use Rattle.pc_document_format.specs.Formats.{if_spelled};
ghost use Rattle.pc_proof.specs.Form.{IsFormedValue};
ghost use Rattle.pc_document_lines.specs.Likely.{IsLikely};
ghost use Rattle.pc_document_lines.specs.ValueLines.{end_line_of, end_of_pieces, end_text, exact_of, is_end_line, is_value_of, likely_end, likely_value, mark_word, outer_value, read_end_line, read_outer_line, side_word};

use crate::pieces::pieces_of;
use crate::tags::{EndLine, Side};
use crate::values::{is_value, likely_value};
use pc_model::{Query, Schema};
use pc_num::{Frac, Memory};
use pc_report::{put_value, scale_for};
use std::alloc::Global;

/// Appends the line of an end.
#[tactic(auto, using(crate::proofs::EndsRead::printable, pc_report::proofs::Scales::scales), unfolding(crate::specs::ValueLines::end_text))]
pub fn put_end_line(
    alloc: Global,
    schema: &Schema,
    out: &mut Vec<u8>,
    query: &Query,
    side: Side,
    end: &EndLine,
) -> Result<(), Memory>
    requires well_formed { IsWellFormed schema.now }
    requires formed { IsFormedValue query.now.agg end.now.value }
    ensures { OnOk result (out.new.items ≡ out.old.items ++ end_text schema.now query.now side end.now) }
{
    out.extend_from_slice(side_word(side).as_bytes())?;
    out.push(b' ')?;
    put_value(alloc, schema, out, query, &end.value)?;
    out.push(b' ')?;
    out.extend_from_slice(mark_word(end.exact).as_bytes())?;
    Ok(())
}

fn side_word(side: Side) -> &'static str
    ensures { result.now ≡ side_word side }
{
    match side {
        Side::Low => "low",
        Side::High => "high",
    }
}

fn mark_word(exact: bool) -> &'static str
    ensures { result.now ≡ mark_word exact }
{
    if exact { "exact" } else { "outer" }
}

/// The end whose line this is, or none.
#[tactic(auto, using(crate::proofs::NumbersLikely::none_likely, crate::proofs::ValuesBack::read_end), unfolding(crate::specs::ValueLines::read_end_line))]
pub fn read_end_line(
    alloc: Global,
    schema: &Schema,
    query: &Query,
    side: Side,
    line: &[u8],
) -> Result<Option<EndLine>, Memory>
    requires { IsWellFormed schema.now }
    ensures { IfOk result (λ found. found ≡ read_end_line schema.now query.now side line.now) }
{
    match likely_end(alloc, schema, query, line)? {
        Some(end) => if_spelled(alloc, schema, query, side, line, end),
        None => Ok(None),
    }
}

// The end, if it may stand and this is its line.
fn if_spelled(
    alloc: Global,
    schema: &Schema,
    query: &Query,
    side: Side,
    line: &[u8],
    end: EndLine,
) -> Result<Option<EndLine>, Memory>
    requires well_formed { IsWellFormed schema.now }
    requires reduced { is_value_of query.now.agg end.value ≡ true → IsFormedValue query.now.agg end.value }
    ensures { IfOk result (λ found. found ≡ if_spelled (end_text schema.now query.now side) (is_end_line query.now) line.now (Some end)) }
{
    if !is_value(query.agg, &end.value) {
        return Ok(None);
    }
    let mut text = Vec::new(alloc);
    put_end_line(alloc, schema, &mut text, query, side, &end)?;
    if text.as_slice() != line {
        return Ok(None);
    }
    Ok(Some(end))
}

// The only end whose line this can be, or none where that may not stand.
#[tactic(auto, unfolding(crate::specs::ValueLines::likely_end))]
fn likely_end(
    alloc: Global,
    schema: &Schema,
    query: &Query,
    line: &[u8],
) -> Result<Option<EndLine>, Memory>
    requires { IsWellFormed schema.now }
    ensures { IfOk result (λ found. IsLikely (is_end_line query.now) (likely_end schema.now query.now line.now) (found)) }
{
    let pieces = pieces_of(alloc, line, b' ')?;
    end_of_pieces(alloc, schema, query, pieces.as_slice())
}

fn end_of_pieces(
    alloc: Global,
    schema: &Schema,
    query: &Query,
    pieces: &[&[u8]],
) -> Result<Option<EndLine>, Memory>
    requires { IsWellFormed schema.now }
    ensures { IfOk result (λ found. IsLikely (is_end_line query.now) (end_of_pieces schema.now query.now (map (λ piece. piece.now) pieces.now)) (found)) }
{
    match pieces {
        [_, number, mark] => end_of(alloc, schema, query, number, mark),
        _ => Ok(None),
    }
}

#[tactic(auto, using(crate::proofs::EndsRead::unmarked, crate::proofs::EndsRead::worthless, pc_report::proofs::Scales::scales))]
fn end_of(
    alloc: Global,
    schema: &Schema,
    query: &Query,
    number: &[u8],
    mark: &[u8],
) -> Result<Option<EndLine>, Memory>
    requires { IsWellFormed schema.now }
    ensures { IfOk result (λ found. IsLikely (is_end_line query.now) (end_line_of (likely_value schema.now query.now number.now) (exact_of mark.now)) (found)) }
{
    let Some(exact) = exact_of(mark) else {
        return Ok(None);
    };
    let scale = scale_for(schema, query.column);
    match likely_value(alloc, query.agg, scale, number)? {
        Some(value) => Ok(Some(EndLine { value, exact })),
        None => Ok(None),
    }
}

fn exact_of(mark: &[u8]) -> Option<bool>
    ensures { result ≡ exact_of mark.now }
{
    if mark == b"exact".as_slice() {
        return Some(true);
    }
    if mark == b"outer".as_slice() {
        return Some(false);
    }
    None
}

/// The value of the outer end whose line this is, or none.
#[tactic(auto, unfolding(crate::specs::ValueLines::read_outer_line))]
pub fn read_outer_line(
    alloc: Global,
    schema: &Schema,
    query: &Query,
    side: Side,
    line: &[u8],
) -> Result<Option<Frac>, Memory>
    requires { IsWellFormed schema.now }
    ensures { IfOk result (λ found. found ≡ read_outer_line schema.now query.now side line.now) }
{
    Ok(outer_value(read_end_line(alloc, schema, query, side, line)?))
}

fn outer_value(found: Option<EndLine>) -> Option<Frac>
    ensures { result ≡ outer_value (found) }
{
    match found {
        Some(end) if !end.exact => Some(end.value),
        _ => None,
    }
}
