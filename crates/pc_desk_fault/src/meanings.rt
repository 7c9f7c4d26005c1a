ghost use Rattle.std.specs.Prelude.{◌≡◌, Ok, IfOk};
ghost use Rattle.pc_model.specs.WellFormed.{IsWellFormed};
ghost use Rattle.pc_schema.specs.SchemaFile.{schema_of};
ghost use Rattle.pc_lang_tokens.specs.Lexing.{tokens_of};
ghost use Rattle.pc_desk_fault.specs.Meanings.{IsMeant, TellsMeaning};

use crate::sentences::sentence_line;
use pc_desk_meanings::{meaning_of_line, meaning_of_query};
use pc_lang_tokens::{NoTokens, Token, read_tokens};
use pc_model::{Reason, Refusal, Schema};
use pc_num::Memory;
use pc_schema::read_schema;
use std::alloc::Global;

/// What a text is.
#[derive(Clone, Copy, Debug, PartialEq, Eq)]
pub enum Form {
    /// The line of a constraint.
    Line,
    Query,
}

/// What is told of a text that is read, and refused for what it means, by the bytes of the schema.
#[tactic(auto, using(crate::proofs::Meaning::schemas))]
pub(crate) fn meaning_told(
    alloc: Global,
    form: Form,
    schema: &[u8],
    reason: Reason,
    text: &[u8],
) -> Result<Vec<u8>, Memory>
    ensures { IfOk result (λ told. IsMeant form (schema_of schema.now) (tokens_of text.now) reason told.items) }
{
    match read_schema(alloc, schema) {
        Ok(schema) => meant_by(alloc, form, &schema, reason, text),
        Err(Refusal::Fault(_)) => sentence_line(alloc, reason),
        Err(Refusal::Memory) => Err(Memory),
    }
}

#[tactic(auto, using(crate::proofs::Meaning::lists))]
fn meant_by(
    alloc: Global,
    form: Form,
    schema: &Schema,
    reason: Reason,
    text: &[u8],
) -> Result<Vec<u8>, Memory>
    requires well_formed { IsWellFormed schema.now }
    ensures { IfOk result (λ told. IsMeant form (Ok schema.now) (tokens_of text.now) reason told.items) }
{
    match read_tokens(alloc, text) {
        Ok(tokens) => meaning_of(alloc, form, schema, tokens.list.as_slice(), reason),
        Err(NoTokens::At(_)) => sentence_line(alloc, reason),
        Err(NoTokens::Memory) => Err(Memory),
    }
}

fn meaning_of(
    alloc: Global,
    form: Form,
    schema: &Schema,
    tokens: &[Token],
    reason: Reason,
) -> Result<Vec<u8>, Memory>
    requires well_formed { IsWellFormed schema.now }
    ensures { IfOk result (λ told. TellsMeaning form schema.now tokens.now reason told.items) }
{
    match form {
        Form::Line => meaning_of_line(alloc, schema, tokens, reason),
        Form::Query => meaning_of_query(alloc, schema, tokens, reason),
    }
}
