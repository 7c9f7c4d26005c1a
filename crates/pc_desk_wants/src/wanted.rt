ghost use Rattle.std.specs.Prelude.{◌≡◌, ◌++◌, IfOk, OnOk, map};
ghost use Rattle.pc_lang_tokens.specs.Texts.{symbol_text, token_text, word_text};
ghost use Rattle.pc_desk_wants.specs.Wanted.{alternatives, ending, further, in_quotes, kind_text, name_word, number_word, wanted_text};

use crate::joining::joined;
use crate::kinds::told_kinds;
use pc_lang_grammar::{ClauseWant, Kind, LineWant, Want, may_end};
use pc_lang_tokens::{Symbol, Token, Word, put_tokens};
use pc_list::Seq;
use pc_num::Memory;
use std::alloc::Global;

/// The words for all that may stand where this is wanted.
#[tactic(auto, unfolding(crate::specs::Wanted::wanted_text))]
pub fn wanted_text(alloc: Global, want: Want) -> Result<Vec<u8>, Memory>
    ensures { IfOk result (λ text. text.items ≡ wanted_text want) }
{
    let texts = alternatives(alloc, want)?;
    joined(alloc, b" or ".as_slice(), texts.as_slice())
}

#[tactic(auto, unfolding(crate::specs::Wanted::alternatives))]
fn alternatives(alloc: Global, want: Want) -> Result<Seq<Seq<u8>>, Memory>
    ensures { IfOk result (λ texts. texts ≡ alternatives want) }
{
    let kinds = told_kinds(alloc, want)?;
    let mut texts = kind_texts(alloc, want, kinds.as_slice())?;
    put_further(alloc, &mut texts, want)?;
    put_ending(alloc, &mut texts, want)?;
    Ok(texts)
}

fn kind_texts(alloc: Global, want: Want, kinds: &[Kind]) -> Result<Seq<Seq<u8>>, Memory>
    ensures { IfOk result (λ texts. texts ≡ map (kind_text want) kinds.now) }
{
    let mut texts = Seq::new(alloc);
    for kind in kinds {
        texts.push(kind_text(alloc, want, *kind)?)?;
    }
    Ok(texts)
}

#[tactic(auto, unfolding(crate::specs::Wanted::kind_text))]
fn kind_text(alloc: Global, want: Want, kind: Kind) -> Result<Seq<u8>, Memory>
    ensures { IfOk result (λ text. text ≡ kind_text want kind) }
{
    match kind {
        Kind::Symbol(symbol) => symbol_text(alloc, symbol),
        Kind::Reserved(word) => word_text(alloc, word),
        Kind::Number => Ok(Seq::from_slice(alloc, number_word(want).as_bytes())?),
        Kind::Name => Ok(Seq::from_slice(alloc, name_word(want).as_bytes())?),
    }
}

#[tactic(auto, unfolding(pc_lang_tokens::specs::Texts::token_text))]
fn symbol_text(alloc: Global, symbol: Symbol) -> Result<Seq<u8>, Memory>
    ensures { IfOk result (λ text. text ≡ in_quotes (symbol_text symbol)) }
{
    let sign = sign_text(alloc, Token::Symbol(symbol))?;
    in_quotes(alloc, sign.as_slice())
}

#[tactic(auto, unfolding(pc_lang_tokens::specs::Texts::token_text))]
fn word_text(alloc: Global, word: Word) -> Result<Seq<u8>, Memory>
    ensures { IfOk result (λ text. text ≡ in_quotes (word_text word)) }
{
    let sign = sign_text(alloc, Token::Reserved(word))?;
    in_quotes(alloc, sign.as_slice())
}

#[tactic(auto, using(crate::proofs::Signs::alone), unfolding(pc_lang_tokens::specs::Texts::tokens_text, pc_lang_tokens::specs::Texts::texts_after, pc_lang_tokens::specs::Texts::token_text))]
fn sign_text(alloc: Global, token: Token) -> Result<Vec<u8>, Memory>
    ensures { IfOk result (λ text. text.items ≡ token_text token) }
{
    let mut one = Seq::new(alloc);
    one.push(token)?;
    let mut text = Vec::new(alloc);
    put_tokens(alloc, &mut text, one.as_slice())?;
    Ok(text)
}

#[tactic(auto, unfolding(crate::specs::Wanted::in_quotes))]
fn in_quotes(alloc: Global, text: &[u8]) -> Result<Seq<u8>, Memory>
    ensures { IfOk result (λ out. out ≡ in_quotes text.now) }
{
    let mut out = Seq::from_slice(alloc, b"`".as_slice())?;
    out.extend_from_slice(text)?;
    out.extend_from_slice(b"`".as_slice())?;
    Ok(out)
}

// What a number is for.
fn number_word(want: Want) -> &'static str
    ensures { result.now ≡ number_word want }
{
    match want {
        Want::Line(LineWant::Least) => "the least number of rows",
        Want::Line(LineWant::Most) => "the greatest number of rows",
        _ => "a number",
    }
}

// What a name is of.
fn name_word(want: Want) -> &'static str
    ensures { result.now ≡ name_word want }
{
    match want {
        Want::Line(_) => "the name of a constraint",
        Want::Clause(_, ClauseWant::Either | ClauseWant::Member) => "a name of the column",
        _ => "a column of the schema",
    }
}

fn put_further(alloc: Global, texts: &mut Seq<Seq<u8>>, want: Want) -> Result<(), Memory>
    ensures { OnOk result (texts.new ≡ texts.old ++ further want) }
{
    match want {
        Want::Asked => {
            let word = in_quotes(alloc, b"median".as_slice())?;
            texts.push(word)?;
            Ok(())
        }
        _ => Ok(()),
    }
}

fn put_ending(alloc: Global, texts: &mut Seq<Seq<u8>>, want: Want) -> Result<(), Memory>
    ensures { OnOk result (texts.new ≡ texts.old ++ ending want) }
{
    if may_end(want) {
        let words = Seq::from_slice(alloc, b"the end".as_slice())?;
        texts.push(words)?;
    }
    Ok(())
}
