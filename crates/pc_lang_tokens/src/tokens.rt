ghost use Rattle.std.specs.Prelude.{◌≡◌, ◌<◌, ◌+◌, ◌∷◌, ◌++◌, [], length, drop, Err, IfOk, MatchResult};
ghost use Rattle.pc_lang_tokens.specs.Places.{HasRead, ReadsTokens};

use crate::lexer::{starts_blank, token_at};
use crate::token::Token;
use pc_list::Seq;
use pc_model::{ReadStop, Reason};
use pc_num::Memory;
use std::alloc::Global;

/// The tokens of a line, and where each begins in it, in bytes from 0.
#[derive(Debug, Drop)]
pub struct Tokens {
    pub list: Seq<Token>,
    pub places: Seq<usize>,
}

/// Why a line has no tokens: none begins at this byte, from 0.
#[derive(Clone, Copy, Debug, PartialEq, Eq)]
pub enum NoTokens {
    At(usize),
    Memory,
}

impl From<NoTokens> for ReadStop {
    ghost use Rattle.std.specs.Prelude.{◌≡◌};
    ghost use Rattle.pc_lang_tokens.specs.Places.{stop_of};

    ghost from_gives = { λ none stop. stop ≡ stop_of none };

    fn from(none: NoTokens) -> ReadStop {
        match none {
            NoTokens::At(_) => ReadStop::Reason(Reason::BadToken),
            NoTokens::Memory => ReadStop::Memory,
        }
    }
}

impl From<Memory> for NoTokens {
    ghost use Rattle.std.specs.Prelude.{◌≡◌};
    ghost use Rattle.pc_lang_tokens.specs.declared.tokens.NoTokens.TheVariants.{Memory};

    ghost from_gives = { λ _ none. none ≡ Memory };

    fn from(_memory: Memory) -> NoTokens {
        NoTokens::Memory
    }
}

/// Reads the tokens of a line, or tells at which place of it none begins.
#[tactic(auto, using(crate::proofs::Reading::steps))]
pub fn read_tokens(alloc: Global, text: &[u8]) -> Result<Tokens, NoTokens>
    ensures reads { ReadsTokens text.now result }
{
    let mut tokens = Tokens {
        list: Seq::new(alloc),
        places: Seq::new(alloc),
    };
    let mut taken = 0;
    for place in 0..text.len() {
        taken = take_byte(alloc, &mut tokens, taken, text, place)?;
    }
    Ok(tokens)
}

// Takes the byte at a place, with the token that begins there. Of the bytes from it on, so many are taken already; tells how
// many of those behind it are then.
#[tactic(auto, using(crate::proofs::Reading::byte_steps))]
fn take_byte(
    alloc: Global,
    tokens: &mut Tokens,
    taken: usize,
    text: &[u8],
    place: usize,
) -> Result<usize, NoTokens>
    requires inside { place < length text.now }
    requires read { HasRead text.now place tokens.old taken }
    ensures { MatchResult result (HasRead text.now (place + 1) tokens.new) (λ none. ReadsTokens text.now (Err none)) }
{
    if 0 < taken {
        return Ok(taken - 1);
    }
    let rest = bytes_from(text, place);
    if starts_blank(rest) {
        return Ok(0);
    }
    match token_at(alloc, rest) {
        Ok((token, len)) => {
            put_token(tokens, token, place)?;
            Ok(len.saturating_sub(1))
        }
        Err(ReadStop::Reason(_)) => Err(NoTokens::At(place)),
        Err(ReadStop::Memory) => Err(NoTokens::Memory),
    }
}

fn bytes_from(text: &[u8], place: usize) -> &[u8]
    requires { place < length text.now }
    ensures { result.now ≡ drop place text.now }
{
    &text[place..]
}

fn put_token(tokens: &mut Tokens, token: Token, place: usize) -> Result<(), Memory>
    ensures list { IfOk result (λ _. tokens.new.list ≡ tokens.old.list ++ token ∷ []) }
    ensures places { IfOk result (λ _. tokens.new.places ≡ tokens.old.places ++ place ∷ []) }
{
    tokens.list.push(token)?;
    tokens.places.push(place)?;
    Ok(())
}
