ghost use Rattle.pc_model.specs.Refusals.{Answers};
ghost use Rattle.pc_lang_grammar.specs.declared.want.QuantileWant.TheVariants as quantiles;
ghost use Rattle.pc_lang_grammar.specs.declared.want.Want.TheVariants as wants;
ghost use Rattle.pc_lang_grammar.specs.Halts.{Reads, halt_of};
ghost use Rattle.pc_lang_grammar.specs.Parsing.{quantile_after, quantile_of};

use crate::halt::{Unread, stopped_at};
use crate::question::where_of;
use crate::syntax::QuantileQuestion;
use crate::want::{QuantileWant, Want};
use pc_lang_tokens::{Symbol, Token, Word};
use pc_list::Seq;
use pc_model::{ReadStop, Reason};
use std::alloc::Global;

/// Reads the query of a quantile, which takes all of the tokens, or tells where it stopped.
#[tactic(auto, using(crate::proofs::Laws::only_unexpected))]
pub fn read_quantile_question(alloc: Global, tokens: &[Token]) -> Result<QuantileQuestion, Unread>
    ensures reads { Reads result (quantile_of tokens.now) (halt_of (wants.Quantile quantiles.Word) tokens.now) }
{
    match quantile_of(alloc, tokens) {
        Ok(question) => Ok(question),
        Err(stop) => Err(stopped_at(stop, Want::Quantile(QuantileWant::Word), tokens)),
    }
}

#[tactic(auto, unfolding(crate::specs::Parsing::quantile_of))]
fn quantile_of(alloc: Global, tokens: &[Token]) -> Result<QuantileQuestion, ReadStop>
    ensures { Answers result (quantile_of tokens.now) }
{
    match tokens {
        [
            Token::Reserved(Word::Quantile),
            Token::Symbol(Symbol::OpenGroup),
            Token::Number(p),
            Token::Symbol(Symbol::Comma),
            rest @ ..,
        ] => quantile_after(alloc, p.clone()?, rest),
        _ => Err(ReadStop::Reason(Reason::Unexpected)),
    }
}

// The query, of its first number and the tokens after the comma.
#[tactic(auto, unfolding(crate::specs::Parsing::quantile_after))]
fn quantile_after(alloc: Global, p: Seq<u8>, tokens: &[Token]) -> Result<QuantileQuestion, ReadStop>
    ensures { Answers result (quantile_after p tokens.now) }
{
    match tokens {
        [
            Token::Number(q),
            Token::Symbol(Symbol::Comma),
            Token::Name(column),
            Token::Symbol(Symbol::CloseGroup),
            rest @ ..,
        ] => Ok(QuantileQuestion {
            p,
            q: q.clone()?,
            column: column.clone()?,
            chosen: where_of(alloc, rest)?,
        }),
        _ => Err(ReadStop::Reason(Reason::Unexpected)),
    }
}
