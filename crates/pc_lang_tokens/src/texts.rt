ghost use Rattle.std.specs.Prelude.{◌≡◌, ◌++◌, IfOk, OnErr, OnOk};
ghost use Rattle.pc_lang_tokens.specs.Texts.{is_close, is_open, next_text, symbol_text, texts_after, token_text, tokens_text, word_text};

use crate::put::put_name;
use crate::token::{Symbol, Token, Word};
use pc_num::Memory;
use std::alloc::Global;

/// Appends the tokens one after another, with a space between two that do not stand close.
pub fn put_tokens(alloc: Global, out: &mut Vec<u8>, tokens: &[Token]) -> Result<(), Memory>
    ensures ok { OnOk result (out.new.items ≡ out.old.items ++ tokens_text tokens.now) }
    ensures err { OnErr result (out.new.items ≡ out.old.items) }
{
    let text = text_of(alloc, tokens)?;
    out.extend_from_slice(text.as_slice())?;
    Ok(())
}

#[tactic(auto, unfolding(crate::specs::Texts::tokens_text))]
fn text_of(alloc: Global, tokens: &[Token]) -> Result<Vec<u8>, Memory>
    ensures { IfOk result (λ text. text.items ≡ tokens_text tokens.now) }
{
    let mut text = Vec::new(alloc);
    let [first, rest @ ..] = tokens else {
        return Ok(text);
    };
    put_token(alloc, &mut text, first)?;
    put_after(alloc, &mut text, first, rest)?;
    Ok(text)
}

// Appends the tokens after the one that is written last.
#[tactic(auto, using(crate::proofs::Writing::after_steps))]
fn put_after(alloc: Global, out: &mut Vec<u8>, first: &Token, rest: &[Token]) -> Result<(), Memory>
    ensures { OnOk result (out.new.items ≡ out.old.items ++ texts_after first.now rest.now) }
{
    let mut last = first;
    for next in rest {
        put_next(alloc, out, last, next)?;
        last = next;
    }
    Ok(())
}

// Appends a token after another.
#[tactic(auto, unfolding(crate::specs::Texts::next_text))]
fn put_next(alloc: Global, out: &mut Vec<u8>, last: &Token, next: &Token) -> Result<(), Memory>
    ensures { OnOk result (out.new.items ≡ out.old.items ++ next_text last.now next.now) }
{
    if is_open(last) {
        return put_token(alloc, out, next);
    }
    if is_close(next) {
        return put_token(alloc, out, next);
    }
    out.push(b' ')?;
    put_token(alloc, out, next)
}

#[tactic(auto, unfolding(crate::specs::Texts::token_text))]
fn put_token(alloc: Global, out: &mut Vec<u8>, token: &Token) -> Result<(), Memory>
    ensures { OnOk result (out.new.items ≡ out.old.items ++ token_text token.now) }
{
    match token {
        Token::Symbol(symbol) => Ok(out.extend_from_slice(symbol_text(*symbol).as_bytes())?),
        Token::Reserved(word) => Ok(out.extend_from_slice(word_text(*word).as_bytes())?),
        Token::Number(digits) => Ok(out.extend_from_slice(digits.as_slice())?),
        Token::Name(name) => put_name(alloc, out, name.as_str()),
    }
}

// Whether what follows the token stands close to it.
fn is_open(token: &Token) -> bool
    ensures { result ≡ is_open token.now }
{
    matches!(
        token,
        Token::Symbol(Symbol::Dots | Symbol::OpenSet | Symbol::OpenGroup)
    )
}

// Whether the token stands close to what comes before.
fn is_close(token: &Token) -> bool
    ensures { result ≡ is_close token.now }
{
    matches!(
        token,
        Token::Symbol(
            Symbol::Colon
                | Symbol::Comma
                | Symbol::Dots
                | Symbol::CloseSet
                | Symbol::OpenGroup
                | Symbol::CloseGroup
        )
    )
}

fn symbol_text(symbol: Symbol) -> &'static str
    ensures { result.now ≡ symbol_text symbol }
{
    match symbol {
        Symbol::Colon => ":",
        Symbol::Arrow => "=>",
        Symbol::Comma => ",",
        Symbol::Dots => "..",
        Symbol::Equal => "=",
        Symbol::AtLeast => ">=",
        Symbol::AtMost => "<=",
        Symbol::Above => ">",
        Symbol::Below => "<",
        Symbol::OpenSet => "{",
        Symbol::CloseSet => "}",
        Symbol::OpenGroup => "(",
        Symbol::CloseGroup => ")",
        Symbol::Star => "*",
    }
}

fn word_text(word: Word) -> &'static str
    ensures { result.now ≡ word_text word }
{
    match word {
        Word::True => "true",
        Word::And => "and",
        Word::Or => "or",
        Word::In => "in",
        Word::Where => "where",
        Word::Group => "group",
        Word::By => "by",
        Word::Count => "count",
        Word::Sum => "sum",
        Word::Min => "min",
        Word::Max => "max",
        Word::Avg => "avg",
        Word::Outside => "outside",
        Word::Quantile => "quantile",
    }
}
