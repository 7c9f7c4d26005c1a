ghost use Rattle.std.specs.Prelude.{◌≡◌, ◌<◌, ◌∷◌, [], length, IfSome, MatchOption, position};
ghost use Rattle.std.specs.List.{slice_split};
ghost use Rattle.pc_model.specs.Refusals.{Answers};
ghost use Rattle.pc_lang_grammar.specs.Parsing.{atoms_from, is_and, part_of};

use crate::claim::atom_of;
use crate::syntax::{Atom, Part};
use pc_lang_tokens::{Token, Word};
use pc_list::Seq;
use pc_model::ReadStop;
use std::alloc::Global;

/// The part that all of the tokens spell.
#[tactic(auto, unfolding(crate::specs::Parsing::part_of))]
pub(crate) fn part_of(alloc: Global, tokens: &[Token]) -> Result<Part, ReadStop>
    ensures { Answers result (part_of tokens.now) }
{
    if let [Token::Reserved(Word::True)] = tokens {
        return Ok(Part {
            atoms: Seq::new(alloc),
        });
    }
    Ok(Part {
        atoms: atoms_of(alloc, tokens)?,
    })
}

// The atoms of the pieces between the `and`s.
#[tactic(auto, using(crate::proofs::Pieces::steps))]
fn atoms_of(alloc: Global, tokens: &[Token]) -> Result<Seq<Atom>, ReadStop>
    ensures { Answers result (atoms_from [] (slice_split is_and tokens.now)) }
{
    let mut atoms = Seq::new(alloc);
    let mut rest = tokens;
    while let Some((piece, after)) = first_piece(rest) {
        atoms.push(atom_of(alloc, piece)?)?;
        rest = after;
    }
    atoms.push(atom_of(alloc, rest)?)?;
    Ok(atoms)
}

// What stands before the first `and`, and what stands after it.
#[tactic(auto, using(crate::proofs::Splits::pieces))]
fn first_piece(tokens: &[Token]) -> Option<(&[Token], &[Token])>
    ensures pieces { MatchOption result (slice_split is_and tokens.now ≡ tokens.now ∷ []) (λ cut. slice_split is_and tokens.now ≡ cut.0.now ∷ slice_split is_and cut.1.now) }
    ensures shorter { IfSome result (λ cut. length cut.1.now < length tokens.now) }
{
    let place = place_of_and(tokens)?;
    Some((&tokens[..place], &tokens[place + 1..]))
}

fn place_of_and(tokens: &[Token]) -> Option<usize>
    ensures { result ≡ position is_and tokens.now }
{
    tokens.iter().position(|token| is_and(token))
}

fn is_and(token: &Token) -> bool
    ensures { result ≡ is_and token.now }
{
    matches!(token, Token::Reserved(Word::And))
}
