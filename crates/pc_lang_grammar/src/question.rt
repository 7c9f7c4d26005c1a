ghost use Rattle.std.specs.Prelude.{◌≡◌, ◌∷◌, Ok, IfOk, MatchResult};
ghost use Rattle.pc_model.specs.Refusals.{Answers, StopsAs};
ghost use Rattle.pc_lang_tokens.specs.declared.token.Token.TheVariants as kinds;
ghost use Rattle.pc_lang_tokens.specs.declared.token.Word.TheVariants as words;
ghost use Rattle.pc_lang_grammar.specs.declared.want.QueryWant.TheVariants as queries;
ghost use Rattle.pc_lang_grammar.specs.declared.want.Want.TheVariants as wants;
ghost use Rattle.pc_lang_grammar.specs.Halts.{Reads, halt_of};
ghost use Rattle.pc_lang_grammar.specs.Parsing.{aggregate, aggregate_at, before_group, group_of, measure_at, question_from, question_of, where_of};

use crate::halt::{Unread, stopped_at};
use crate::syntax::{Measure, Question, Ways};
use crate::want::{QueryWant, Want};
use crate::ways::ways_of;
use pc_lang_tokens::{Symbol, Token, Word};
use pc_list::Text;
use pc_model::{ReadStop, Reason};
use std::alloc::{AllocError, Global};

/// Reads a query, which takes all of the tokens, or tells where it stopped.
#[tactic(auto, using(crate::proofs::Laws::only_unexpected))]
pub fn read_question(alloc: Global, tokens: &[Token]) -> Result<Question, Unread>
    ensures reads { Reads result (question_of tokens.now) (halt_of (wants.Query queries.Measure) tokens.now) }
{
    match question_of(alloc, tokens) {
        Ok(question) => Ok(question),
        Err(stop) => Err(stopped_at(stop, Want::Query(QueryWant::Measure), tokens)),
    }
}

#[tactic(auto, unfolding(crate::specs::Parsing::question_of))]
fn question_of(alloc: Global, tokens: &[Token]) -> Result<Question, ReadStop>
    ensures { Answers result (question_of tokens.now) }
{
    match measure_at(tokens) {
        Ok((measure, rest)) => {
            let place = rest.len().saturating_sub(3);
            let group = group_of(&rest[place..])?;
            question_from(alloc, measure, group, rest)
        }
        Err(stop) => Err(stop),
    }
}

#[tactic(auto, unfolding(crate::specs::Parsing::question_from))]
fn question_from(
    alloc: Global,
    measure: Measure,
    group: Option<Text>,
    rest: &[Token],
) -> Result<Question, ReadStop>
    ensures { Answers result (question_from measure group rest.now) }
{
    let chosen = where_of(alloc, before_group(&group, rest))?;
    Ok(Question {
        measure,
        chosen,
        group,
    })
}

// The measure that the tokens begin with, and what stands after it.
#[tactic(auto, unfolding(crate::specs::Parsing::measure_at))]
fn measure_at(tokens: &[Token]) -> Result<(Measure, &[Token]), ReadStop>
    ensures { MatchResult result (λ found. measure_at tokens.now ≡ Ok (found.0, found.1.now)) (λ stop. StopsAs stop (measure_at tokens.now)) }
{
    match tokens {
        [Token::Reserved(Word::Count), rest @ ..] => Ok(count_at(rest)),
        [Token::Reserved(word), rest @ ..] => aggregate_at(*word, rest),
        _ => Err(ReadStop::Reason(Reason::Unexpected)),
    }
}

// What stands after `count`: the rest of `count(*)` may be first.
#[tactic(auto, unfolding(crate::specs::Parsing::measure_at))]
fn count_at(rest: &[Token]) -> (Measure, &[Token])
    ensures { measure_at (kinds.Reserved words.Count ∷ rest.now) ≡ Ok (result.0, result.1.now) }
{
    match rest {
        [
            Token::Symbol(Symbol::OpenGroup),
            Token::Symbol(Symbol::Star),
            Token::Symbol(Symbol::CloseGroup),
            after @ ..,
        ] => (Measure::CountOfAll, after),
        _ => (Measure::Count, rest),
    }
}

// The measure of a column that a word names.
#[tactic(auto, unfolding(crate::specs::Parsing::aggregate))]
fn aggregate(word: Word, column: &Text) -> Result<Measure, ReadStop>
    ensures { Answers result (aggregate word column.now) }
{
    let column = column.clone()?;
    match word {
        Word::Sum => Ok(Measure::Sum(column)),
        Word::Min => Ok(Measure::Min(column)),
        Word::Max => Ok(Measure::Max(column)),
        Word::Avg => Ok(Measure::Avg(column)),
        _ => Err(ReadStop::Reason(Reason::Unexpected)),
    }
}

// The same with its column between brackets, and what stands after them.
#[tactic(auto, unfolding(crate::specs::Parsing::aggregate_at))]
fn aggregate_at(word: Word, tokens: &[Token]) -> Result<(Measure, &[Token]), ReadStop>
    ensures { MatchResult result (λ found. aggregate_at word tokens.now ≡ Ok (found.0, found.1.now)) (λ stop. StopsAs stop (aggregate_at word tokens.now)) }
{
    match tokens {
        [
            Token::Symbol(Symbol::OpenGroup),
            Token::Name(column),
            Token::Symbol(Symbol::CloseGroup),
            rest @ ..,
        ] => Ok((aggregate(word, column)?, rest)),
        _ => Err(ReadStop::Reason(Reason::Unexpected)),
    }
}

// The column of `group by`, if that is all of the tokens.
#[tactic(auto, unfolding(crate::specs::Parsing::group_of))]
fn group_of(tokens: &[Token]) -> Result<Option<Text>, AllocError>
    ensures { IfOk result (λ group. group ≡ group_of tokens.now) }
{
    match tokens {
        [
            Token::Reserved(Word::Group),
            Token::Reserved(Word::By),
            Token::Name(column),
        ] => Ok(Some(column.clone()?)),
        _ => Ok(None),
    }
}

// The tokens without those of a `group by` at their end.
fn before_group<'a>(group: &Option<Text>, rest: &'a [Token]) -> &'a [Token]
    ensures { result.now ≡ before_group group.now rest.now }
{
    match group {
        Some(_) => &rest[..rest.len().saturating_sub(3)],
        None => rest,
    }
}

// The parts after a `where`, if there is one.
#[tactic(auto, unfolding(crate::specs::Parsing::where_of))]
pub(crate) fn where_of(alloc: Global, tokens: &[Token]) -> Result<Option<Ways>, ReadStop>
    ensures { Answers result (where_of tokens.now) }
{
    match tokens {
        [] => Ok(None),
        [Token::Reserved(Word::Where), rest @ ..] => Ok(Some(ways_of(alloc, rest)?)),
        _ => Err(ReadStop::Reason(Reason::Unexpected)),
    }
}
