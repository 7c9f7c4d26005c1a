ghost use Rattle.std.specs.Prelude.{◌≡◌, ◌≤◌, ◌++◌, length, IfOk, OnErr, OnOk, Ok};
ghost use Rattle.pc_model.specs.Refusals.{Answers, Gives};
ghost use Rattle.pc_model.specs.WellFormed.{IsWellFormed};
ghost use Rattle.pc_lang_grammar.specs.Grammar.{quantile_tokens};
ghost use Rattle.pc_lang.specs.Quantiles.{IsQuantile, at_most_one, in_limit, quantile_at, quantile_from, quantile_of_question, quantile_question_for, quantile_question_from, quantile_text, share_of, shares_of};

use crate::canonical::{chosen_for, count_text, name_at};
use crate::meaning::are_digits;
use crate::query::{chosen_of, numeric_place};
use pc_lang_grammar::{QuantileQuestion, read_quantile_question, spell_quantile};
use pc_lang_tokens::{Token, put_tokens, read_tokens};
use pc_list::Seq;
use pc_model::{Area, FileKind, ReadStop, Reason, Refusal, Schema, read_number};
use pc_num::Memory;
use std::alloc::Global;

const MOST_SHARE: u64 = 1000;

/// The least number of a column, a place in the schema, such that of the chosen rows' numbers at least `p` in `q` are at
/// most that one.
#[derive(Debug, PartialEq, Eq, Drop)]
pub struct Quantile {
    pub p: u32,
    pub q: u32,
    pub column: u8,
    pub chosen: Area,
}

/// Reads the query of a quantile. The place of a fault is the given one.
pub fn read_quantile(
    alloc: Global,
    schema: &Schema,
    text: &str,
    place: u64,
) -> Result<Quantile, Refusal>
    requires well_formed { IsWellFormed schema.now }
    ensures gives { Gives result (quantile_at schema.now place text.now) }
    ensures accepted { IfOk result (IsQuantile schema.now) }
{
    match quantile_from(alloc, schema, text.as_bytes()) {
        Ok(asked) => Ok(asked),
        Err(stop) => Err(stop.at(FileKind::Query, place)),
    }
}

/// Appends the canonical text of the query of a quantile.
#[tactic(auto, using(crate::proofs::QuantilesAgain::quantile_reads_back), unfolding(crate::specs::Quantiles::quantile_text))]
pub fn put_quantile_query(
    alloc: Global,
    schema: &Schema,
    out: &mut Vec<u8>,
    asked: &Quantile,
) -> Result<(), Memory>
    requires well_formed { IsWellFormed schema.now }
    requires accepted { IsQuantile schema.now asked.now }
    ensures ok { OnOk result (out.new.items ≡ out.old.items ++ quantile_text schema.now asked.now) }
    ensures err { OnErr result (out.new.items ≡ out.old.items) }
    ensures reads_back { quantile_from schema.now (quantile_text schema.now asked.now) ≡ Ok asked.now }
{
    let tokens = tokens_for(alloc, schema, asked)?;
    put_tokens(alloc, out, tokens.as_slice())
}

#[tactic(auto, unfolding(crate::specs::Quantiles::quantile_from))]
fn quantile_from(alloc: Global, schema: &Schema, text: &[u8]) -> Result<Quantile, ReadStop>
    requires well_formed { IsWellFormed schema.now }
    ensures answers { Answers result (quantile_from schema.now text.now) }
    ensures accepted { IfOk result (IsQuantile schema.now) }
{
    let question = question_from(alloc, text)?;
    quantile_of(alloc, schema, &question)
}

#[tactic(auto, unfolding(crate::specs::Quantiles::quantile_question_from))]
fn question_from(alloc: Global, text: &[u8]) -> Result<QuantileQuestion, ReadStop>
    ensures { Answers result (quantile_question_from text.now) }
{
    let tokens = read_tokens(alloc, text)?;
    Ok(read_quantile_question(alloc, tokens.list.as_slice())?)
}

// The quantile that a question stands for.
#[tactic(auto, using(crate::proofs::AcceptedQuantiles::question_is_quantile))]
fn quantile_of(
    alloc: Global,
    schema: &Schema,
    question: &QuantileQuestion,
) -> Result<Quantile, ReadStop>
    requires well_formed { IsWellFormed schema.now }
    ensures answers { Answers result (quantile_of_question schema.now question.now) }
    ensures accepted { IfOk result (IsQuantile schema.now) }
{
    checked_quantile(alloc, schema, question)
}

#[tactic(auto, using(crate::proofs::Places::few_columns), unfolding(crate::specs::Quantiles::quantile_of_question))]
fn checked_quantile(
    alloc: Global,
    schema: &Schema,
    question: &QuantileQuestion,
) -> Result<Quantile, ReadStop>
    requires { IsWellFormed schema.now }
    ensures { Answers result (quantile_of_question schema.now question.now) }
{
    let (p, q) = shares_of(question.p.as_slice(), question.q.as_slice())?;
    let column = numeric_place(schema, question.column.as_bytes())?;
    let chosen = chosen_of(alloc, schema, &question.chosen)?;
    Ok(Quantile {
        p,
        q,
        column,
        chosen,
    })
}

#[tactic(auto, unfolding(crate::specs::Quantiles::shares_of))]
fn shares_of(first: &[u8], second: &[u8]) -> Result<(u32, u32), Reason>
    ensures { result ≡ shares_of first.now second.now }
{
    let p = share_of(first)?;
    let q = share_of(second)?;
    at_most_one(p, q)
}

fn at_most_one(p: u32, q: u32) -> Result<(u32, u32), Reason>
    ensures { result ≡ at_most_one p q }
{
    if q < p {
        return Err(Reason::LeastOverMost);
    }
    Ok((p, q))
}

// One of the two numbers is spelled by digits alone.
#[tactic(auto, unfolding(crate::specs::Quantiles::share_of))]
fn share_of(text: &[u8]) -> Result<u32, Reason>
    ensures { result ≡ share_of text.now }
{
    if !are_digits(text) {
        return Err(Reason::BadNumber);
    }
    let number = read_number(text, 0)?;
    in_limit(number.unsigned_abs())
}

fn in_limit(share: u64) -> Result<u32, Reason>
    ensures { result ≡ in_limit share }
{
    if share == 0 || MOST_SHARE < share {
        return Err(Reason::PastLimit);
    }
    Ok(share as u32)
}

fn tokens_for(alloc: Global, schema: &Schema, asked: &Quantile) -> Result<Seq<Token>, Memory>
    requires { IsWellFormed schema.now }
    ensures { IfOk result (λ tokens. tokens ≡ quantile_tokens (quantile_question_for schema.now asked.now)) }
{
    let question = question_for(alloc, schema, asked)?;
    spell_quantile(alloc, &question)
}

#[tactic(auto, unfolding(crate::specs::Quantiles::quantile_question_for))]
fn question_for(
    alloc: Global,
    schema: &Schema,
    asked: &Quantile,
) -> Result<QuantileQuestion, Memory>
    requires { IsWellFormed schema.now }
    ensures { IfOk result (λ question. question ≡ quantile_question_for schema.now asked.now) }
{
    Ok(QuantileQuestion {
        p: count_text(alloc, u64::from(asked.p))?,
        q: count_text(alloc, u64::from(asked.q))?,
        column: name_at(alloc, schema.columns.as_slice(), asked.column)?,
        chosen: chosen_for(alloc, schema, &asked.chosen)?,
    })
}
