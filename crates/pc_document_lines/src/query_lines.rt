ghost use Rattle.std.specs.Prelude.{◌≡◌, ◌++◌, drop, true, IfOk, IfSome, MatchOption, None, OnOk, Some};
ghost use Rattle.pc_model.specs.Accepted.{IsQuery};
ghost use Rattle.pc_model.specs.WellFormed.{IsWellFormed};
ghost use Rattle.pc_document_format.specs.Formats.{if_spelled};
ghost use Rattle.pc_document_lines.specs.TokenLines.{likely_query, query_line_text, read_query_line};

use pc_lang::{put_query, read_query};
use pc_model::{Query, Refusal, Schema};
use pc_num::Memory;
use std::alloc::Global;
use std::str;

/// Appends the line of a query.
#[tactic(auto, unfolding(crate::specs::TokenLines::query_line_text))]
pub fn put_query_line(
    alloc: Global,
    schema: &Schema,
    out: &mut Vec<u8>,
    query: &Query,
) -> Result<(), Memory>
    requires well_formed { IsWellFormed schema.now }
    requires accepted { IsQuery schema.now query.now }
    ensures { OnOk result (out.new.items ≡ out.old.items ++ query_line_text schema.now query.now) }
{
    out.extend_from_slice(b"query ")?;
    put_query(alloc, schema, out, query)
}

/// The query whose line this is, or none.
#[tactic(auto, using(crate::proofs::QueryReading::steps))]
pub fn read_query_line(alloc: Global, schema: &Schema, line: &[u8]) -> Result<Option<Query>, Memory>
    requires well_formed { IsWellFormed schema.now }
    ensures found { IfOk result (λ found. found ≡ read_query_line schema.now line.now) }
    ensures accepted { IfOk result (λ found. IfSome found (IsQuery schema.now)) }
{
    match likely_query(alloc, schema, line)? {
        Some(query) => if_spelled(alloc, schema, line, query),
        None => Ok(None),
    }
}

// The query, if this is its line.
fn if_spelled(
    alloc: Global,
    schema: &Schema,
    line: &[u8],
    query: Query,
) -> Result<Option<Query>, Memory>
    requires well_formed { IsWellFormed schema.now }
    requires accepted { IsQuery schema.now query }
    ensures found { IfOk result (λ found. found ≡ if_spelled (query_line_text schema.now) (λ one. true) line.now (Some query)) }
    ensures accepted { IfOk result (λ found. IfSome found (IsQuery schema.now)) }
{
    let mut text = Vec::new(alloc);
    put_query_line(alloc, schema, &mut text, &query)?;
    if text.as_slice() != line {
        return Ok(None);
    }
    Ok(Some(query))
}

// The only query whose line this can be. A line that is no text is that of none.
#[tactic(auto, using(crate::proofs::QueryReading::likely_steps), unfolding(crate::specs::TokenLines::likely_query))]
fn likely_query(alloc: Global, schema: &Schema, line: &[u8]) -> Result<Option<Query>, Memory>
    requires well_formed { IsWellFormed schema.now }
    ensures { IfOk result (λ found. MatchOption found (read_query_line schema.now line.now ≡ None) (λ query. (likely_query schema.now line.now ≡ Some query) × IsQuery schema.now query)) }
{
    let Ok(text) = str::from_utf8(after_word(line)) else {
        return Ok(None);
    };
    match read_query(alloc, schema, text, 0) {
        Ok(query) => Ok(Some(query)),
        Err(Refusal::Fault(_)) => Ok(None),
        Err(Refusal::Memory) => Err(Memory),
    }
}

// What stands after the word and its space.
fn after_word(line: &[u8]) -> &[u8]
    ensures { result.now ≡ drop 6 line.now }
{
    if line.len() < 6 {
        return &[];
    }
    &line[6..]
}
