ghost use Rattle.std.specs.Prelude.{◌≡◌, ◌++◌, IfOk, OnErr, OnOk, Ok};
ghost use Rattle.pc_model.specs.Accepted.{AreConstraints, IsQuery};
ghost use Rattle.pc_model.specs.WellFormed.{IsWellFormed};
ghost use Rattle.pc_lang_grammar.specs.Grammar.{line_tokens, question_tokens};
ghost use Rattle.pc_lang.specs.Canonical.{constraint_text, constraints_text, line_for, query_text, question_for};
ghost use Rattle.pc_lang.specs.Files.{constraints_of, query_from};

use crate::canonical::{line_for, question_for};
use pc_lang_grammar::{spell_line, spell_question};
use pc_lang_tokens::{Token, put_tokens};
use pc_list::Seq;
use pc_model::{Constraint, Query, Schema};
use pc_num::Memory;
use std::alloc::Global;

/// Appends the canonical text of constraints, one line for each.
#[tactic(auto, using(crate::proofs::ReadBack::constraints_read_back))]
pub fn put_constraints(
    alloc: Global,
    schema: &Schema,
    out: &mut Vec<u8>,
    constraints: &[Constraint],
) -> Result<(), Memory>
    requires well_formed { IsWellFormed schema.now }
    requires accepted { AreConstraints schema.now constraints.now }
    ensures ok { OnOk result (out.new.items ≡ out.old.items ++ constraints_text schema.now constraints.now) }
    ensures err { OnErr result (out.new.items ≡ out.old.items) }
    ensures reads_back { constraints_of schema.now (constraints_text schema.now constraints.now) ≡ Ok constraints.now }
{
    let text = text_of(alloc, schema, constraints)?;
    out.extend_from_slice(text.as_slice())?;
    Ok(())
}

/// Appends the canonical text of a query.
#[tactic(auto, using(crate::proofs::ReadBack::query_reads_back), unfolding(crate::specs::Canonical::query_text))]
pub fn put_query(
    alloc: Global,
    schema: &Schema,
    out: &mut Vec<u8>,
    query: &Query,
) -> Result<(), Memory>
    requires well_formed { IsWellFormed schema.now }
    requires accepted { IsQuery schema.now query.now }
    ensures ok { OnOk result (out.new.items ≡ out.old.items ++ query_text schema.now query.now) }
    ensures err { OnErr result (out.new.items ≡ out.old.items) }
    ensures reads_back { query_from schema.now (query_text schema.now query.now) ≡ Ok query.now }
{
    let tokens = query_tokens(alloc, schema, query)?;
    put_tokens(alloc, out, tokens.as_slice())
}

fn query_tokens(alloc: Global, schema: &Schema, query: &Query) -> Result<Seq<Token>, Memory>
    requires { IsWellFormed schema.now }
    ensures { IfOk result (λ tokens. tokens ≡ question_tokens (question_for schema.now query.now)) }
{
    let question = question_for(alloc, schema, query)?;
    spell_question(alloc, &question)
}

#[tactic(auto, using(crate::proofs::Appending::text_steps))]
fn text_of(alloc: Global, schema: &Schema, constraints: &[Constraint]) -> Result<Vec<u8>, Memory>
    requires { IsWellFormed schema.now }
    ensures { IfOk result (λ text. text.items ≡ constraints_text schema.now constraints.now) }
{
    let mut text = Vec::new(alloc);
    for constraint in constraints {
        put_constraint(alloc, schema, &mut text, constraint)?;
    }
    Ok(text)
}

#[tactic(auto, unfolding(crate::specs::Canonical::constraint_text))]
fn put_constraint(
    alloc: Global,
    schema: &Schema,
    out: &mut Vec<u8>,
    constraint: &Constraint,
) -> Result<(), Memory>
    requires { IsWellFormed schema.now }
    ensures { OnOk result (out.new.items ≡ out.old.items ++ constraint_text schema.now constraint.now) }
{
    let tokens = constraint_tokens(alloc, schema, constraint)?;
    put_tokens(alloc, out, tokens.as_slice())?;
    out.push(b'\n')?;
    Ok(())
}

fn constraint_tokens(
    alloc: Global,
    schema: &Schema,
    constraint: &Constraint,
) -> Result<Seq<Token>, Memory>
    requires { IsWellFormed schema.now }
    ensures { IfOk result (λ tokens. tokens ≡ line_tokens (line_for schema.now constraint.now)) }
{
    let line = line_for(alloc, schema, constraint)?;
    spell_line(alloc, &line)
}
