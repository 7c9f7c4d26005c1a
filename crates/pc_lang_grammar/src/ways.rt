ghost use Rattle.std.specs.Prelude.{◌≡◌, ◌<◌, ◌∷◌, [], length, IfSome, MatchOption, position};
ghost use Rattle.std.specs.List.{slice_split};
ghost use Rattle.pc_model.specs.Refusals.{Answers};
ghost use Rattle.pc_lang_grammar.specs.Parsing.{is_or, parts_from, ways_from, ways_of};

use crate::part::part_of;
use crate::syntax::{Part, Ways};
use pc_lang_tokens::{Token, Word};
use pc_list::Seq;
use pc_model::ReadStop;
use std::alloc::Global;

/// The parts that all of the tokens spell: one in each piece between the `or`s.
#[tactic(auto, unfolding(crate::specs::Parsing::ways_of))]
pub(crate) fn ways_of(alloc: Global, tokens: &[Token]) -> Result<Ways, ReadStop>
    ensures { Answers result (ways_of tokens.now) }
{
    match first_piece(tokens) {
        Some((piece, rest)) => ways_around(alloc, piece, rest),
        None => lone_way(alloc, tokens),
    }
}

#[tactic(auto, unfolding(crate::specs::Parsing::ways_from, crate::specs::Parsing::parts_from))]
fn lone_way(alloc: Global, tokens: &[Token]) -> Result<Ways, ReadStop>
    ensures { Answers result (ways_from (tokens.now ∷ [])) }
{
    let first = part_of(alloc, tokens)?;
    Ok(Ways {
        first,
        others: Seq::new(alloc),
    })
}

// The part of the first piece, and those of what stands after it.
#[tactic(auto, unfolding(crate::specs::Parsing::ways_from))]
fn ways_around(alloc: Global, piece: &[Token], rest: &[Token]) -> Result<Ways, ReadStop>
    ensures { Answers result (ways_from (piece.now ∷ slice_split is_or rest.now)) }
{
    let first = part_of(alloc, piece)?;
    let others = parts_of(alloc, rest)?;
    Ok(Ways { first, others })
}

// The parts of the pieces between the `or`s.
#[tactic(auto, using(crate::proofs::WayPieces::steps))]
fn parts_of(alloc: Global, tokens: &[Token]) -> Result<Seq<Part>, ReadStop>
    ensures { Answers result (parts_from [] (slice_split is_or tokens.now)) }
{
    let mut parts = Seq::new(alloc);
    let mut rest = tokens;
    while let Some((piece, after)) = first_piece(rest) {
        parts.push(part_of(alloc, piece)?)?;
        rest = after;
    }
    parts.push(part_of(alloc, rest)?)?;
    Ok(parts)
}

// What stands before the first `or`, and what stands after it.
#[tactic(auto, using(crate::proofs::Splits::pieces))]
fn first_piece(tokens: &[Token]) -> Option<(&[Token], &[Token])>
    ensures pieces { MatchOption result (slice_split is_or tokens.now ≡ tokens.now ∷ []) (λ cut. slice_split is_or tokens.now ≡ cut.0.now ∷ slice_split is_or cut.1.now) }
    ensures shorter { IfSome result (λ cut. length cut.1.now < length tokens.now) }
{
    let place = place_of_or(tokens)?;
    Some((&tokens[..place], &tokens[place + 1..]))
}

fn place_of_or(tokens: &[Token]) -> Option<usize>
    ensures { result ≡ position is_or tokens.now }
{
    tokens.iter().position(|token| is_or(token))
}

fn is_or(token: &Token) -> bool
    ensures { result ≡ is_or token.now }
{
    matches!(token, Token::Reserved(Word::Or))
}
