ghost use Rattle.std.specs.Prelude.{◌≡◌, map, All, IfOk, MatchOption, Some, None, option_map, codes, is_some};
ghost use Rattle.std.specs.List.{prefix_len};
ghost use Rattle.pc_model.specs.Refusals.{Gives};
ghost use Rattle.pc_model.specs.WellFormed.{IsWellFormed};
ghost use Rattle.pc_lang.specs.Files.{query_at};
ghost use Rattle.pc_lang.specs.Quantiles.{quantile_at};
ghost use Rattle.pc_script.specs.Script.{after_blanks};
ghost use Rattle.pc_desk_answers.specs.Questions.{IsQuestion, after, called, half_of, other_at, plain, question_at, questions_of, share};

use pc_desk_table::shown;
use pc_lang::{Quantile, is_blank, read_quantile, read_query};
use pc_list::{Seq, Text};
use pc_model::{Query, Refusal, Schema};
use pc_num::Memory;
use std::alloc::Global;

/// What is asked: the range of an aggregate, or of a quantile.
#[derive(Debug, Drop)]
pub enum Question {
    Plain(Query),
    Share(Quantile),
}

/// Reads the questions in their order: queries, and with `quantile(P, Q, C)` and `median(C)` quantiles. The place of a fault is
/// that of the question among them.
pub fn read_questions(
    alloc: Global,
    schema: &Schema,
    texts: &[&str],
) -> Result<Seq<Question>, Refusal>
    requires well_formed { IsWellFormed schema.now }
    ensures gives { Gives result (questions_of schema.now (map (λ text. text.now) texts.now)) }
    ensures asked { IfOk result (All (IsQuestion schema.now)) }
{
    let mut questions = Seq::new(alloc);
    for (place, text) in texts.iter().enumerate() {
        let question = read_question(alloc, schema, text, place as u64 + 1)?;
        questions.push(question).map_err(|_| Refusal::Memory)?;
    }
    Ok(questions)
}

// The question of a text: a median, another quantile, or a query.
#[tactic(auto, unfolding(crate::specs::Questions::question_at))]
fn read_question(
    alloc: Global,
    schema: &Schema,
    text: &str,
    place: u64,
) -> Result<Question, Refusal>
    requires well_formed { IsWellFormed schema.now }
    ensures gives { Gives result (question_at schema.now place text.now) }
    ensures asked { IfOk result (IsQuestion schema.now) }
{
    match called(b"median", text.as_bytes()) {
        Some(rest) => read_median(alloc, schema, rest, place),
        None => read_other(alloc, schema, text, place),
    }
}

fn read_median(alloc: Global, schema: &Schema, rest: &[u8], place: u64) -> Result<Question, Refusal>
    requires well_formed { IsWellFormed schema.now }
    ensures gives { Gives result (share (quantile_at schema.now place (half_of rest.now))) }
    ensures asked { IfOk result (IsQuestion schema.now) }
{
    match half_of(alloc, rest) {
        Ok(half) => read_share(alloc, schema, half.as_str(), place),
        Err(_) => Err(Refusal::Memory),
    }
}

fn half_of(alloc: Global, rest: &[u8]) -> Result<Text, Memory>
    ensures { IfOk result (λ text. text ≡ half_of rest.now) }
{
    let mut bytes = Vec::new(alloc);
    bytes.extend_from_slice(b"quantile(1, 2, ")?;
    bytes.extend_from_slice(rest)?;
    shown(alloc, bytes.as_slice())
}

fn read_other(alloc: Global, schema: &Schema, text: &str, place: u64) -> Result<Question, Refusal>
    requires well_formed { IsWellFormed schema.now }
    ensures gives { Gives result (other_at schema.now place text.now (is_some (called (codes "quantile") text.now))) }
    ensures asked { IfOk result (IsQuestion schema.now) }
{
    match called(b"quantile", text.as_bytes()) {
        Some(_) => read_share(alloc, schema, text, place),
        None => read_plain(alloc, schema, text, place),
    }
}

fn read_share(alloc: Global, schema: &Schema, text: &str, place: u64) -> Result<Question, Refusal>
    requires well_formed { IsWellFormed schema.now }
    ensures gives { Gives result (share (quantile_at schema.now place text.now)) }
    ensures asked { IfOk result (IsQuestion schema.now) }
{
    match read_quantile(alloc, schema, text, place) {
        Ok(asked) => Ok(Question::Share(asked)),
        Err(refusal) => Err(refusal),
    }
}

fn read_plain(alloc: Global, schema: &Schema, text: &str, place: u64) -> Result<Question, Refusal>
    requires well_formed { IsWellFormed schema.now }
    ensures gives { Gives result (plain (query_at schema.now place text.now)) }
    ensures asked { IfOk result (IsQuestion schema.now) }
{
    match read_query(alloc, schema, text, place) {
        Ok(query) => Ok(Question::Plain(query)),
        Err(refusal) => Err(refusal),
    }
}

// What stands after a name and an opening parenthesis, with blanks before each of them or none.
#[tactic(auto, unfolding(crate::specs::Questions::called))]
fn called<'x>(name: &[u8], text: &'x [u8]) -> Option<&'x [u8]>
    ensures { option_map (λ rest. rest.now) result ≡ called name.now text.now }
{
    let rest = after(name, after_blanks(text))?;
    after(b"(", after_blanks(rest))
}

fn after<'x>(front: &[u8], text: &'x [u8]) -> Option<&'x [u8]>
    ensures { option_map (λ rest. rest.now) result ≡ after front.now text.now }
{
    text.strip_prefix(front)
}

fn after_blanks(mut text: &[u8]) -> &[u8]
    ensures { result.now ≡ after_blanks text.entry.now }
{
    while let [byte, rest @ ..] = text {
        if !is_blank(*byte) {
            return text;
        }
        text = rest;
    }
    text
}
