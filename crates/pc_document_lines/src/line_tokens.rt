ghost use Rattle.std.specs.Prelude.{◌≡◌, ◌≤◌, ◌^◌, IfOk, MatchOption, unsigned_abs};
ghost use Rattle.pc_num.specs.Scaled.{greatest_size};
ghost use Rattle.pc_lang_tokens.specs.Lexing.{tokens_of};
ghost use Rattle.pc_document_lines.specs.Kept.{IsKept};
ghost use Rattle.pc_document_lines.specs.Numbers.{is_within, likely_number};
ghost use Rattle.pc_document_lines.specs.TokenLines.{name_of, number_of, token_at, tokens_if};

use crate::numbers::likely_number;
use pc_lang_tokens::{NoTokens, Token, read_tokens};
use pc_list::Seq;
use pc_num::{GREATEST_SIZE, Memory};
use std::alloc::Global;

/// The tokens of a line; none of them where a place of it begins no token.
pub(crate) fn tokens_of(alloc: Global, line: &[u8]) -> Result<Seq<Token>, Memory>
    ensures { IfOk result (λ list. list ≡ tokens_if (tokens_of line.now)) }
{
    match read_tokens(alloc, line) {
        Ok(tokens) => Ok(tokens.list),
        Err(NoTokens::At(_)) => Ok(Seq::new(alloc)),
        Err(NoTokens::Memory) => Err(Memory),
    }
}

/// The number of the token at a place, or 0 where that has no number; none where it does not fit.
pub(crate) fn number_at(list: &[Token], place: usize) -> Option<i128>
    ensures { MatchOption result (2 ^ 127 ≤ unsigned_abs (number_of (token_at list.now place))) (λ n. n ≡ number_of (token_at list.now place)) }
{
    match list.get(place) {
        Some(token) => number_of(token),
        None => Some(0),
    }
}

fn number_of(token: &Token) -> Option<i128>
    ensures { MatchOption result (2 ^ 127 ≤ unsigned_abs (number_of token.now)) (λ n. n ≡ number_of token.now) }
{
    match token {
        Token::Number(text) => likely_number(text.as_slice()),
        Token::Symbol(_) | Token::Reserved(_) | Token::Name(_) => Some(0),
    }
}

/// The name of the token at a place, or no bytes where that has no name.
pub(crate) fn name_at(list: &[Token], place: usize) -> &[u8]
    ensures { result.now ≡ name_of (token_at list.now place) }
{
    match list.get(place) {
        Some(token) => name_of(token),
        None => b"",
    }
}

fn name_of(token: &Token) -> &[u8]
    ensures { result.now ≡ name_of token.now }
{
    match token {
        Token::Name(name) => name.as_bytes(),
        Token::Symbol(_) | Token::Reserved(_) | Token::Number(_) => b"",
    }
}

/// The number of the token at a place, if it is small enough for a column.
pub(crate) fn small_number_at(list: &[Token], place: usize) -> Option<i64>
    ensures { IsKept (is_within greatest_size) (number_of (token_at list.now place)) result }
{
    match number_at(list, place) {
        Some(number) => small(number),
        None => None,
    }
}

/// The only number whose text this can be, if it is small enough for a column.
pub(crate) fn small_number(text: &[u8]) -> Option<i64>
    ensures { IsKept (is_within greatest_size) (likely_number text.now) result }
{
    match likely_number(text) {
        Some(number) => small(number),
        None => None,
    }
}

fn small(number: i128) -> Option<i64>
    ensures { IsKept (is_within greatest_size) number result }
{
    if number.unsigned_abs() > u128::from(GREATEST_SIZE) {
        return None;
    }
    Some(number as i64)
}
