ghost use Rattle.std.specs.Prelude.{◌≡◌, IfOk, IfSome, option_map};
ghost use Rattle.pc_model.specs.WellFormed.{IsWellFormed};
ghost use Rattle.pc_desk_meanings.specs.Atoms.{IsRefusedAtom};
ghost use Rattle.pc_desk_meanings.specs.Meanings.{TellsLine, TellsQuery, before_frequency, lined, or_else, other_words, query_words, words_in};

use crate::atom::{Atom, refused_atom};
use crate::piece::{atom_words, grouped_words, measured_words, spelled};
use crate::words::sentence;
use pc_lang_tokens::Token;
use pc_model::{Reason, Schema};
use pc_num::Memory;
use std::alloc::Global;

/// What is told of the line of a constraint that is read, and refused for this reason: a line of its own.
#[tactic(auto, using(crate::proofs::Telling::line_told))]
pub fn meaning_of_line(
    alloc: Global,
    schema: &Schema,
    tokens: &[Token],
    reason: Reason,
) -> Result<Vec<u8>, Memory>
    requires { IsWellFormed schema.now }
    ensures tells { IfOk result (λ text. TellsLine schema.now tokens.now reason text.items) }
{
    let clauses = before_frequency(tokens);
    let found = refused_atom(alloc, schema, clauses)?;
    let words = words_in(alloc, schema, clauses, reason, found)?;
    let all = or_other(alloc, words, tokens, reason)?;
    lined(alloc, all.as_slice())
}

fn or_other(
    alloc: Global,
    words: Option<Vec<u8>>,
    tokens: &[Token],
    reason: Reason,
) -> Result<Vec<u8>, Memory>
    ensures { IfOk result (λ text. text.items ≡ or_else (option_map (λ some. some.items) words) (other_words tokens.now reason)) }
{
    match words {
        Some(words) => Ok(words),
        None => other_words(alloc, tokens, reason),
    }
}

// The words of the condition, where it is refused for this reason.
fn words_in(
    alloc: Global,
    schema: &Schema,
    clauses: &[Token],
    reason: Reason,
    found: Option<Atom>,
) -> Result<Option<Vec<u8>>, Memory>
    requires well_formed { IsWellFormed schema.now }
    requires found { IfSome found (IsRefusedAtom schema.now clauses.now) }
    ensures { IfOk result (λ words. option_map (λ some. some.items) words ≡ words_in schema.now clauses.now reason found) }
{
    let Some(atom) = found else {
        return Ok(None);
    };
    if atom.reason != reason {
        return Ok(None);
    }
    Ok(Some(atom_words(alloc, schema, clauses, atom)?))
}

// The tokens without those of the least and the greatest number of rows.
fn before_frequency(tokens: &[Token]) -> &[Token]
    ensures { result.now ≡ before_frequency tokens.now }
{
    &tokens[..tokens.len().saturating_sub(4)]
}

#[tactic(auto, unfolding(crate::specs::Meanings::other_words))]
fn other_words(alloc: Global, tokens: &[Token], reason: Reason) -> Result<Vec<u8>, Memory>
    ensures { IfOk result (λ text. text.items ≡ other_words tokens.now reason) }
{
    let mut text = match reason {
        Reason::RepeatedName => spelled(alloc, tokens, 0, 1)?,
        Reason::BadNumber | Reason::PastLimit | Reason::LeastOverMost => {
            spelled(alloc, tokens, tokens.len().saturating_sub(3), tokens.len())?
        }
        _ => Vec::new(alloc),
    };
    if !text.is_empty() {
        text.extend_from_slice(b": ".as_slice())?;
    }
    text.extend_from_slice(sentence(reason))?;
    Ok(text)
}

/// What is told of a query that is read, and refused for this reason: a line of its own.
#[tactic(auto, using(crate::proofs::Telling::query_told))]
pub fn meaning_of_query(
    alloc: Global,
    schema: &Schema,
    tokens: &[Token],
    reason: Reason,
) -> Result<Vec<u8>, Memory>
    requires { IsWellFormed schema.now }
    ensures tells { IfOk result (λ text. TellsQuery schema.now tokens.now reason text.items) }
{
    let found = refused_atom(alloc, schema, tokens)?;
    let words = words_in(alloc, schema, tokens, reason, found)?;
    let all = query_words(alloc, schema, tokens, reason, words)?;
    lined(alloc, all.as_slice())
}

// The column that is measured, the condition, or the column of the groups: the first of them that is refused for this reason.
#[tactic(auto, unfolding(crate::specs::Meanings::query_words))]
fn query_words(
    alloc: Global,
    schema: &Schema,
    tokens: &[Token],
    reason: Reason,
    words: Option<Vec<u8>>,
) -> Result<Vec<u8>, Memory>
    requires { IsWellFormed schema.now }
    ensures { IfOk result (λ text. text.items ≡ query_words schema.now tokens.now reason (option_map (λ some. some.items) words)) }
{
    let columns = schema.columns.as_slice();
    if let Some(measured) = measured_words(alloc, columns, tokens, reason)? {
        return Ok(measured);
    }
    if let Some(words) = words {
        return Ok(words);
    }
    match grouped_words(alloc, columns, tokens, reason)? {
        Some(grouped) => Ok(grouped),
        None => Ok(Vec::from_slice(alloc, sentence(reason))?),
    }
}

fn lined(alloc: Global, words: &[u8]) -> Result<Vec<u8>, Memory>
    ensures { IfOk result (λ text. text.items ≡ lined words.now) }
{
    let mut text = Vec::from_slice(alloc, b"    ".as_slice())?;
    text.extend_from_slice(words)?;
    text.push(b'\n')?;
    Ok(text)
}
