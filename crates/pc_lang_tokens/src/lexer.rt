ghost use Rattle.std.specs.Prelude.{◌≡◌, ◌≤◌, ◌==◌, ◌&&◌, not, [], ◌∷◌, ◌+◌, length, get_or, false, true, ℕ, List, IfOk};
ghost use Rattle.pc_model.specs.Refusals.{Answers};
ghost use Rattle.pc_model.specs.Texts.{IsName};
ghost use Rattle.pc_lang_tokens.specs.Lexing.{fraction_len, letters_len, number_len, other_token, quoted_from, quoted_token, sign_len, starts_blank, symbol_token, token_at, unsigned_len, word_len, word_token};
ghost use Rattle.pc_lang_tokens.specs.Spelling.{is_word};

use crate::token::{Symbol, Token};
use crate::word::{begins_as_word, is_word, is_word_byte, reserved};
use pc_list::{Seq, Text};
use pc_model::{ReadStop, Reason, is_name};
use pc_num::digits_len;
use std::alloc::{AllocError, Global};
use std::str;

pub(crate) fn starts_blank(text: &[u8]) -> bool
    ensures { result ≡ starts_blank text.now }
{
    match text {
        [byte, ..] => *byte == b' ' || *byte == b'\t',
        [] => false,
    }
}

/// The token that begins the text, and how many bytes it takes.
#[tactic(auto, unfolding(crate::specs::Lexing::token_at))]
pub fn token_at(alloc: Global, text: &[u8]) -> Result<(Token, usize), ReadStop>
    ensures { Answers result (token_at text.now) }
{
    let number = number_len(text);
    if 0 < number {
        let digits = Seq::from_slice(alloc, &text[..number])?;
        return Ok((Token::Number(digits), number));
    }
    let word = word_len(text);
    if 0 < word {
        return word_token(alloc, &text[..word]);
    }
    other_token(alloc, text)
}

fn other_token(alloc: Global, text: &[u8]) -> Result<(Token, usize), ReadStop>
    ensures { Answers result (other_token text.now) }
{
    let [byte, rest @ ..] = text else {
        return Err(ReadStop::Reason(Reason::BadToken));
    };
    if *byte == b'"' {
        return quoted_token(alloc, rest);
    }
    Ok(symbol_token(*byte, first_byte(rest))?)
}

// The first byte, or 0 where there is none.
fn first_byte(text: &[u8]) -> u8
    ensures { result ≡ get_or text.now 0 0 }
{
    match text {
        [byte, ..] => *byte,
        [] => 0,
    }
}

#[tactic(auto, unfolding(crate::specs::Lexing::symbol_token))]
fn symbol_token(byte: u8, next: u8) -> Result<(Token, usize), Reason>
    ensures { result ≡ symbol_token byte next }
{
    let (symbol, len) = match (byte, next) {
        (b':', _) => (Symbol::Colon, 1),
        (b',', _) => (Symbol::Comma, 1),
        (b'{', _) => (Symbol::OpenSet, 1),
        (b'}', _) => (Symbol::CloseSet, 1),
        (b'(', _) => (Symbol::OpenGroup, 1),
        (b')', _) => (Symbol::CloseGroup, 1),
        (b'*', _) => (Symbol::Star, 1),
        (b'=', b'>') => (Symbol::Arrow, 2),
        (b'=', _) => (Symbol::Equal, 1),
        (b'>', b'=') => (Symbol::AtLeast, 2),
        (b'>', _) => (Symbol::Above, 1),
        (b'<', b'=') => (Symbol::AtMost, 2),
        (b'<', _) => (Symbol::Below, 1),
        (b'.', b'.') => (Symbol::Dots, 2),
        _ => return Err(Reason::BadToken),
    };
    Ok((Token::Symbol(symbol), len))
}

// How many bytes of the text's front are a number.
#[tactic(auto, unfolding(crate::specs::Lexing::number_len))]
fn number_len(text: &[u8]) -> usize
    ensures exact { result ≡ number_len text.now }
    ensures within { result ≤ length text.now }
{
    let sign = sign_len(text);
    let unsigned = unsigned_len(&text[sign..]);
    if unsigned == 0 {
        return 0;
    }
    sign + unsigned
}

fn sign_len(text: &[u8]) -> usize
    ensures exact { result ≡ sign_len text.now }
    ensures within { result ≤ length text.now }
{
    match text {
        [b'-' | b'+', ..] => 1,
        _ => 0,
    }
}

#[tactic(auto, unfolding(crate::specs::Lexing::unsigned_len))]
fn unsigned_len(text: &[u8]) -> usize
    ensures exact { result ≡ unsigned_len text.now }
    ensures within { result ≤ length text.now }
{
    let digits = digits_len(text);
    if digits == 0 {
        return 0;
    }
    digits + fraction_len(&text[digits..])
}

// How many bytes a point takes with the digits after it.
fn fraction_len(text: &[u8]) -> usize
    ensures exact { result ≡ fraction_len text.now }
    ensures within { result ≤ length text.now }
{
    let [b'.', rest @ ..] = text else {
        return 0;
    };
    let digits = digits_len(rest);
    if 0 < digits { digits + 1 } else { 0 }
}

// How many bytes of the text's front are a word.
#[tactic(auto, unfolding(crate::specs::Lexing::word_len))]
fn word_len(text: &[u8]) -> usize
    ensures exact { result ≡ word_len text.now }
    ensures within { result ≤ length text.now }
{
    if begins_as_word(text) {
        letters_len(text)
    } else {
        0
    }
}

#[tactic(auto, unfolding(crate::specs::Lexing::letters_len))]
fn letters_len(text: &[u8]) -> usize
    ensures exact { result ≡ letters_len text.now }
    ensures within { result ≤ length text.now }
{
    for (place, byte) in text.iter().enumerate() {
        if !is_word_byte(*byte) {
            return place;
        }
    }
    text.len()
}

#[tactic(auto, unfolding(crate::specs::Lexing::word_token))]
fn word_token(alloc: Global, text: &[u8]) -> Result<(Token, usize), ReadStop>
    ensures { Answers result (word_token text.now) }
{
    if let Some(word) = reserved(text) {
        return Ok((Token::Reserved(word), text.len()));
    }
    if !is_word(text) {
        return Err(ReadStop::Reason(Reason::BadToken));
    }
    Ok((Token::Name(copy_word(alloc, text)?), text.len()))
}

// A word is text, since its bytes are letters, digits and low lines.
#[tactic(auto, using(crate::proofs::Words::word_is_text))]
pub(crate) fn copy_word(alloc: Global, word: &[u8]) -> Result<Text, AllocError>
    requires { is_word word.now ≡ true }
    ensures { IfOk result (λ text. text ≡ word.now) }
{
    match str::from_utf8(word) {
        Ok(text) => Text::from_text(alloc, text),
        Err(_) => unreachable!(),
    }
}

// The token of what stands after a quote.
fn quoted_token(alloc: Global, text: &[u8]) -> Result<(Token, usize), ReadStop>
    ensures { Answers result (quoted_token (quoted_from false 1 [] text.now)) }
{
    let Some((name, len)) = quoted_from(alloc, text)? else {
        return Err(ReadStop::Reason(Reason::BadToken));
    };
    if !is_name(name.as_slice()) {
        return Err(ReadStop::Reason(Reason::BadToken));
    }
    Ok((Token::Name(copy_name(alloc, name.as_slice())?), len))
}

pub(crate) fn copy_name(alloc: Global, name: &[u8]) -> Result<Text, AllocError>
    requires { IsName name.now }
    ensures { IfOk result (λ text. text ≡ name.now) }
{
    match str::from_utf8(name) {
        Ok(text) => Text::from_text(alloc, text),
        Err(_) => unreachable!(),
    }
}

// What stands between quotes, and how many bytes it takes with them.
#[tactic(auto, using(crate::proofs::Quotes::steps))]
pub(crate) fn quoted_from(
    alloc: Global,
    text: &[u8],
) -> Result<Option<(Seq<u8>, usize)>, AllocError>
    ensures { IfOk result (λ found. found ≡ quoted_from false 1 [] text.now) }
{
    let mut name = Seq::new(alloc);
    let mut closing = false;
    for (place, byte) in text.iter().enumerate() {
        if is_past_quote(closing, *byte) {
            return Ok(Some((name, place + 1)));
        }
        closing = put_quoted(&mut name, closing, *byte)?;
    }
    if closing {
        return Ok(Some((name, text.len() + 1)));
    }
    Ok(None)
}

fn is_past_quote(closing: bool, byte: u8) -> bool
    ensures { result ≡ (closing && not (byte == 34)) }
{
    closing && byte != b'"'
}

// Adds a byte, or tells that it is a quote that may be the last.
#[tactic(auto, using(crate::proofs::Quotes::byte_steps))]
fn put_quoted(name: &mut Seq<u8>, closing: bool, byte: u8) -> Result<bool, AllocError>
    requires { (closing && not (byte == 34)) ≡ false }
    ensures { IfOk result (λ next. (len : ℕ) (rest : List ℕ) → quoted_from closing len name.old (byte ∷ rest) ≡ quoted_from next (len + 1) name.new rest) }
{
    if !closing && byte == b'"' {
        return Ok(true);
    }
    name.push(byte)?;
    Ok(false)
}
