ghost use Rattle.std.specs.Prelude.{[], ◌∷◌};
ghost use Rattle.pc_model.specs.Refusals.{Answers};
ghost use Rattle.pc_lang_tokens.specs.declared.token.Symbol.TheVariants as symbols;
ghost use Rattle.pc_lang_tokens.specs.declared.token.Word.TheVariants as words;
ghost use Rattle.pc_lang_tokens.specs.declared.token.Token.TheVariants as kinds;
ghost use Rattle.pc_lang_grammar.specs.Parsing.{atom_of, claim_of, names_after};

use crate::syntax::{Atom, Claim};
use pc_lang_tokens::{Symbol, Token, Word};
use pc_list::{Seq, Text};
use pc_model::{ReadStop, Reason};
use std::alloc::Global;

/// The atom that all of the tokens spell.
#[tactic(auto, unfolding(crate::specs::Parsing::atom_of))]
pub(crate) fn atom_of(alloc: Global, tokens: &[Token]) -> Result<Atom, ReadStop>
    ensures { Answers result (atom_of tokens.now) }
{
    let [Token::Name(column), rest @ ..] = tokens else {
        return Err(ReadStop::Reason(Reason::Unexpected));
    };
    let claim = claim_of(alloc, rest)?;
    Ok(Atom {
        column: column.clone()?,
        claim,
    })
}

// What all of the tokens say of a column.
#[tactic(auto, unfolding(crate::specs::Parsing::claim_of))]
fn claim_of(alloc: Global, tokens: &[Token]) -> Result<Claim, ReadStop>
    ensures { Answers result (claim_of tokens.now) }
{
    match tokens {
        [Token::Symbol(symbol), Token::Number(number)] => compared(*symbol, number),
        [Token::Symbol(Symbol::Equal), Token::Name(name)] => Ok(Claim::Name(name.clone()?)),
        [Token::Reserved(Word::In), rest @ ..] => contained(alloc, rest),
        _ => Err(ReadStop::Reason(Reason::Unexpected)),
    }
}

// What stands after an `in`.
#[tactic(auto, unfolding(crate::specs::Parsing::claim_of))]
fn contained(alloc: Global, rest: &[Token]) -> Result<Claim, ReadStop>
    ensures { Answers result (claim_of (kinds.Reserved words.In ∷ rest.now)) }
{
    match rest {
        [
            Token::Number(low),
            Token::Symbol(Symbol::Dots),
            Token::Number(high),
        ] => {
            Ok(Claim::Within {
                low: low.clone()?,
                high: high.clone()?,
            })
        }
        [
            Token::Symbol(Symbol::OpenSet),
            Token::Name(first),
            others @ ..,
        ] => { among(alloc, first, others) }
        _ => Err(ReadStop::Reason(Reason::Unexpected)),
    }
}

// What a sign and the number after it say.
#[tactic(auto, unfolding(crate::specs::Parsing::claim_of))]
fn compared(symbol: Symbol, number: &Seq<u8>) -> Result<Claim, ReadStop>
    ensures { Answers result (claim_of (kinds.Symbol symbol ∷ kinds.Number number.now ∷ [])) }
{
    let number = number.clone()?;
    match symbol {
        Symbol::Equal => Ok(Claim::Number(number)),
        Symbol::AtLeast => Ok(Claim::AtLeast(number)),
        Symbol::AtMost => Ok(Claim::AtMost(number)),
        Symbol::Above => Ok(Claim::Above(number)),
        Symbol::Below => Ok(Claim::Below(number)),
        _ => Err(ReadStop::Reason(Reason::Unexpected)),
    }
}

// One of a first name and those after it.
#[tactic(auto, unfolding(crate::specs::Parsing::claim_of))]
fn among(alloc: Global, first: &Text, rest: &[Token]) -> Result<Claim, ReadStop>
    ensures { Answers result (claim_of (kinds.Reserved words.In ∷ kinds.Symbol symbols.OpenSet ∷ kinds.Name first.now ∷ rest.now)) }
{
    let others = names_after(alloc, rest)?;
    Ok(Claim::Among {
        first: first.clone()?,
        others,
    })
}

// The names of a set after its first, up to the bracket that ends it and the tokens.
#[tactic(auto, using(crate::proofs::Names::steps), unfolding(crate::specs::Parsing::names_after))]
fn names_after(alloc: Global, tokens: &[Token]) -> Result<Seq<Text>, ReadStop>
    ensures { Answers result (names_after [] tokens.now) }
{
    let mut names = Seq::new(alloc);
    let mut rest = tokens;
    while let [Token::Symbol(Symbol::Comma), Token::Name(name), after @ ..] = rest {
        names.push(name.clone()?)?;
        rest = after;
    }
    match rest {
        [Token::Symbol(Symbol::CloseSet)] => Ok(names),
        _ => Err(ReadStop::Reason(Reason::Unexpected)),
    }
}
