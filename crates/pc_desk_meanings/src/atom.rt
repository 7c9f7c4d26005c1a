ghost use Rattle.std.specs.Prelude.{◌≡◌, ◌≤◌, ◌<◌, ◌+◌, ◌^◌, length, IfOk, IfSome};
ghost use Rattle.pc_model.specs.WellFormed.{IsWellFormed};
ghost use Rattle.pc_desk_meanings.specs.Atoms.{IsClauseIn, IsRefusal, IsRefusedAtom, IsRefusedFor, choosing};
ghost use Rattle.pc_lang.specs.Files.{query_from};

use pc_lang::query_from;
use pc_lang_tokens::{Symbol, Token, Word, put_tokens};
use pc_model::{ReadStop, Reason, Schema};
use pc_num::Memory;
use std::alloc::Global;

/// A condition that is refused together with those before it in its part: the places of the first token of the part, of its own
/// first token, and behind its last one.
#[derive(Clone, Copy, Debug, PartialEq, Eq)]
pub struct Atom {
    pub part: usize,
    pub start: usize,
    pub end: usize,
    pub reason: Reason,
}

// Where a part of a clause begins, and its condition that is not over yet.
#[derive(Clone, Copy, Debug, PartialEq, Eq)]
pub(crate) struct Clause {
    pub part: usize,
    pub start: usize,
}

/// The first condition in the clauses of a text that the schema refuses.
pub fn refused_atom(
    alloc: Global,
    schema: &Schema,
    tokens: &[Token],
) -> Result<Option<Atom>, Memory>
    requires well_formed { IsWellFormed schema.now }
    ensures refused { IfOk result (λ found. IfSome found (IsRefusedAtom schema.now tokens.now)) }
{
    let mut clause = None;
    for (place, token) in tokens.iter().enumerate() {
        if ends_atom(token) {
            if let Some(found) = refused_at(alloc, schema, tokens, clause, place)? {
                return Ok(Some(found));
            }
        }
        clause = clause_after(clause, token, place);
    }
    refused_at(alloc, schema, tokens, clause, tokens.len())
}

fn ends_atom(token: &Token) -> bool {
    matches!(
        token,
        Token::Symbol(Symbol::Arrow) | Token::Reserved(Word::And | Word::Or | Word::Group)
    )
}

// The clause behind a token.
fn clause_after(clause: Option<Clause>, token: &Token, place: usize) -> Option<Clause>
    requires clause { IfSome clause (IsClauseIn place) }
    requires small { place + 1 < 2 ^ 64 }
    ensures { IfSome result (IsClauseIn (place + 1)) }
{
    let next = place + 1;
    match token {
        Token::Symbol(Symbol::Colon | Symbol::Arrow) | Token::Reserved(Word::Where | Word::Or) => {
            Some(Clause {
                part: next,
                start: next,
            })
        }
        Token::Reserved(Word::Group) => None,
        Token::Reserved(Word::And) => joined(clause, next),
        _ => clause,
    }
}

fn joined(clause: Option<Clause>, start: usize) -> Option<Clause>
    requires { IfSome clause (IsClauseIn start) }
    ensures { IfSome result (IsClauseIn start) }
{
    match clause {
        Some(clause) => Some(Clause {
            part: clause.part,
            start,
        }),
        None => None,
    }
}

// The condition that ends there, where it is refused.
fn refused_at(
    alloc: Global,
    schema: &Schema,
    tokens: &[Token],
    clause: Option<Clause>,
    end: usize,
) -> Result<Option<Atom>, Memory>
    requires well_formed { IsWellFormed schema.now }
    requires clause { IfSome clause (IsClauseIn end) }
    requires within { end ≤ length tokens.now }
    ensures refused { IfOk result (λ found. IfSome found (IsRefusedAtom schema.now tokens.now)) }
{
    let Some(clause) = clause else {
        return Ok(None);
    };
    match refusal_of(alloc, schema, &tokens[clause.part..end])? {
        Some(reason) => Ok(Some(Atom {
            part: clause.part,
            start: clause.start,
            end,
            reason,
        })),
        None => Ok(None),
    }
}

// Why the schema refuses conditions that are joined by `and`: as a query that chooses by them.
fn refusal_of(alloc: Global, schema: &Schema, atoms: &[Token]) -> Result<Option<Reason>, Memory>
    requires { IsWellFormed schema.now }
    ensures { IfOk result (IsRefusal schema.now atoms.now) }
{
    let text = choosing(alloc, atoms)?;
    refusal_in(alloc, schema, text.as_slice())
}

// The query that chooses by conditions.
#[tactic(auto, unfolding(crate::specs::Atoms::choosing))]
fn choosing(alloc: Global, atoms: &[Token]) -> Result<Vec<u8>, Memory>
    ensures { IfOk result (λ text. text.items ≡ choosing atoms.now) }
{
    let mut text = Vec::from_slice(alloc, b"count where ".as_slice())?;
    put_tokens(alloc, &mut text, atoms)?;
    Ok(text)
}

fn refusal_in(alloc: Global, schema: &Schema, query: &[u8]) -> Result<Option<Reason>, Memory>
    requires { IsWellFormed schema.now }
    ensures { IfOk result (IsRefusedFor (query_from schema.now query.now)) }
{
    match query_from(alloc, schema, query) {
        Ok(_) => Ok(None),
        Err(ReadStop::Reason(reason)) => Ok(Some(reason)),
        Err(ReadStop::Memory) => Err(Memory),
    }
}
