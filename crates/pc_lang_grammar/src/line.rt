ghost use Rattle.std.specs.Prelude.{◌≡◌, Ok, Err, MatchResult, position};
ghost use Rattle.pc_model.specs.Refusals.{Answers};
ghost use Rattle.pc_lang_grammar.specs.declared.want.LineWant.TheVariants as lines;
ghost use Rattle.pc_lang_grammar.specs.declared.want.Want.TheVariants as wants;
ghost use Rattle.pc_lang_grammar.specs.Halts.{Reads, halt_of};
ghost use Rattle.pc_lang_grammar.specs.Parsing.{frequency_of, halves_of, is_arrow, line_from, line_of};

use crate::halt::{Unread, stopped_at};
use crate::head::head_of;
use crate::part::part_of;
use crate::syntax::Line;
use crate::want::{LineWant, Want};
use pc_lang_tokens::{Symbol, Token};
use pc_list::Seq;
use pc_model::{ReadStop, Reason};
use std::alloc::Global;

/// Reads the line of a constraint, which takes all of the tokens, or tells where it stopped.
#[tactic(auto, using(crate::proofs::Laws::only_unexpected))]
pub fn read_line(alloc: Global, tokens: &[Token]) -> Result<Line, Unread>
    ensures reads { Reads result (line_of tokens.now) (halt_of (wants.Line lines.Head) tokens.now) }
{
    match line_of(alloc, tokens) {
        Ok(line) => Ok(line),
        Err(stop) => Err(stopped_at(stop, Want::Line(LineWant::Head), tokens)),
    }
}

#[tactic(auto, unfolding(crate::specs::Parsing::line_of))]
fn line_of(alloc: Global, tokens: &[Token]) -> Result<Line, ReadStop>
    ensures { Answers result (line_of tokens.now) }
{
    let place = tokens.len().saturating_sub(4);
    line_from(alloc, &tokens[..place], &tokens[place..])
}

// A line of the tokens of its head and its values with the arrow, and those of the frequency.
#[tactic(auto, unfolding(crate::specs::Parsing::line_from))]
fn line_from(alloc: Global, body: &[Token], frequency: &[Token]) -> Result<Line, ReadStop>
    ensures { Answers result (line_from body.now frequency.now) }
{
    let (least, most) = frequency_of(frequency)?;
    let (before, after) = halves_of(body)?;
    let head = head_of(alloc, before)?;
    let values = part_of(alloc, after)?;
    Ok(Line {
        head,
        values,
        least,
        most,
    })
}

// The texts of the least and the greatest number of rows.
#[tactic(auto, unfolding(crate::specs::Parsing::frequency_of))]
fn frequency_of(tokens: &[Token]) -> Result<(Seq<u8>, Seq<u8>), ReadStop>
    ensures { Answers result (frequency_of tokens.now) }
{
    match tokens {
        [
            Token::Symbol(Symbol::Comma),
            Token::Number(least),
            Token::Symbol(Symbol::Dots),
            Token::Number(most),
        ] => Ok((least.clone()?, most.clone()?)),
        _ => Err(ReadStop::Reason(Reason::Unexpected)),
    }
}

// What stands before the first arrow, and what stands after it.
#[tactic(auto, unfolding(crate::specs::Parsing::halves_of))]
fn halves_of(body: &[Token]) -> Result<(&[Token], &[Token]), Reason>
    ensures { MatchResult result (λ halves. halves_of body.now ≡ Ok (halves.0.now, halves.1.now)) (λ reason. halves_of body.now ≡ Err reason) }
{
    match place_of_arrow(body) {
        Some(place) => Ok((&body[..place], &body[place + 1..])),
        None => Err(Reason::Unexpected),
    }
}

fn place_of_arrow(body: &[Token]) -> Option<usize>
    ensures { result ≡ position is_arrow body.now }
{
    body.iter().position(|token| is_arrow(token))
}

fn is_arrow(token: &Token) -> bool
    ensures { result ≡ is_arrow token.now }
{
    matches!(token, Token::Symbol(Symbol::Arrow))
}
