ghost use Rattle.std.specs.Prelude.{◌≡◌, ◌<◌, ◌∷◌, [], length, get_or, take, drop, IfOk};
ghost use Rattle.pc_lang_grammar.specs.Halts.{halt_of};
ghost use Rattle.pc_lang_tokens.specs.Spelling.{starts_word};
ghost use Rattle.pc_lang_tokens.specs.Texts.{tokens_text};
ghost use Rattle.pc_desk_wants.specs.Told.{IsTold, at_text, column_of, end_words, halt_text, none_text, none_words, place_text, word_told, words_text};

use crate::showing::{after, chars_in, first_char, shown};
use crate::wanted::wanted_text;
use pc_lang_grammar::{Halt, Want, halt_of};
use pc_lang_tokens::{NoTokens, Token, Tokens, put_tokens, read_tokens};
use pc_num::Memory;
use std::alloc::Global;

/// Where the reading of a text stops that stands behind a front of its line, and what may stand there.
#[tactic(auto, using(crate::proofs::Telling::steps))]
pub fn told_of(alloc: Global, front: &[u8], text: &[u8], start: Want) -> Result<Vec<u8>, Memory>
    ensures { IfOk result (λ told. IsTold front.now text.now start told.items) }
{
    match read_tokens(alloc, text) {
        Ok(tokens) => halted(alloc, front, text, start, &tokens),
        Err(NoTokens::At(place)) => none_text(alloc, front, text, place),
        Err(NoTokens::Memory) => Err(Memory),
    }
}

fn halted(
    alloc: Global,
    front: &[u8],
    text: &[u8],
    start: Want,
    tokens: &Tokens,
) -> Result<Vec<u8>, Memory>
    ensures { IfOk result (λ told. told.items ≡ halt_text front.now text.now tokens.now (halt_of start tokens.now.list)) }
{
    let halt = halt_of(start, tokens.list.as_slice());
    halt_text(alloc, front, text, tokens, halt)
}

#[tactic(auto, unfolding(crate::specs::Told::halt_text))]
fn halt_text(
    alloc: Global,
    front: &[u8],
    text: &[u8],
    tokens: &Tokens,
    halt: Halt,
) -> Result<Vec<u8>, Memory>
    ensures { IfOk result (λ told. told.items ≡ halt_text front.now text.now tokens.now halt) }
{
    let list = tokens.list.as_slice();
    let wanted = wanted_text(alloc, halt.want)?;
    if list.len() <= halt.place {
        return end_words(alloc, wanted.as_slice());
    }
    let column = column_of(front, text, place_of(tokens.places.as_slice(), halt.place));
    let token = token_text(alloc, list, halt.place)?;
    let words = words_text(alloc, wanted.as_slice())?;
    at_text(alloc, column, token.as_slice(), words.as_slice())
}

// The place of a token.
fn place_of(places: &[usize], at: usize) -> usize
    ensures { result ≡ get_or places.now at 0 }
{
    match places.get(at) {
        Some(place) => *place,
        None => 0,
    }
}

// The token at a place, as it is written.
fn token_text(alloc: Global, list: &[Token], at: usize) -> Result<Vec<u8>, Memory>
    requires { at < length list.now }
    ensures { IfOk result (λ text. text.items ≡ tokens_text (take 1 (drop at list.now))) }
{
    let mut text = Vec::new(alloc);
    put_tokens(alloc, &mut text, &list[at..at + 1])?;
    Ok(text)
}

#[tactic(auto, unfolding(crate::specs::Told::none_text))]
fn none_text(alloc: Global, front: &[u8], text: &[u8], place: usize) -> Result<Vec<u8>, Memory>
    ensures { IfOk result (λ told. told.items ≡ none_text front.now text.now place) }
{
    let rest = after(text, place);
    at_text(
        alloc,
        column_of(front, text, place),
        first_char(rest),
        none_words(rest).as_bytes(),
    )
}

/// What is told of a word behind a front of its line, which is empty at the end, where one of these words may stand.
#[tactic(auto, unfolding(crate::specs::Told::word_told))]
pub fn word_told(alloc: Global, front: &[u8], word: &[u8], words: &[u8]) -> Result<Vec<u8>, Memory>
    ensures { IfOk result (λ told. told.items ≡ word_told front.now word.now words.now) }
{
    if word.is_empty() {
        return end_words(alloc, words);
    }
    let told = words_text(alloc, words)?;
    at_text(alloc, column_of(front, &[], 0), word, told.as_slice())
}

#[tactic(auto, unfolding(crate::specs::Told::words_text))]
fn words_text(alloc: Global, words: &[u8]) -> Result<Vec<u8>, Memory>
    ensures { IfOk result (λ text. text.items ≡ words_text words.now) }
{
    let mut text = Vec::from_slice(alloc, words)?;
    text.extend_from_slice(b" may stand there".as_slice())?;
    Ok(text)
}

#[tactic(auto, unfolding(crate::specs::Told::end_words))]
fn end_words(alloc: Global, words: &[u8]) -> Result<Vec<u8>, Memory>
    ensures { IfOk result (λ text. text.items ≡ end_words words.now) }
{
    let told = words_text(alloc, words)?;
    let mut text = Vec::from_slice(alloc, b"    at the end: ".as_slice())?;
    text.extend_from_slice(told.as_slice())?;
    text.push(b'\n')?;
    Ok(text)
}

// Why no token begins with the first byte.
fn none_words(text: &[u8]) -> &'static str
    ensures { result.now ≡ none_words text.now }
{
    match text {
        [byte, ..] => words_at(*byte),
        [] => "no sign, name or number begins there",
    }
}

fn words_at(byte: u8) -> &'static str
    ensures { result.now ≡ none_words (byte ∷ []) }
{
    if byte == b'"' {
        return "a name in quotes has 1 to 64 bytes and no control characters, and ends with a quote";
    }
    if starts_word(byte) {
        return "a name has at most 64 bytes";
    }
    "no sign, name or number begins there"
}

fn starts_word(byte: u8) -> bool
    ensures { result ≡ starts_word byte }
{
    byte.is_ascii_alphabetic() || byte == b'_'
}

// A column, what stands there, and what is said of it.
#[tactic(auto, unfolding(crate::specs::Told::at_text))]
fn at_text(alloc: Global, column: u64, what: &[u8], words: &[u8]) -> Result<Vec<u8>, Memory>
    ensures { IfOk result (λ text. text.items ≡ at_text column what.now words.now) }
{
    let what = shown(alloc, what)?;
    let mut text = place_text(alloc, column)?;
    text.extend_from_slice(what.as_slice())?;
    text.extend_from_slice(b": ".as_slice())?;
    text.extend_from_slice(words)?;
    text.push(b'\n')?;
    Ok(text)
}

fn place_text(alloc: Global, column: u64) -> Result<Vec<u8>, Memory>
    ensures { IfOk result (λ text. text.items ≡ place_text column) }
{
    Ok(format!(in alloc; "    at column {column}, ")?.into_bytes())
}

// The column of a place of a text behind a front of its line, in characters from 1 on.
fn column_of(line_front: &[u8], text: &[u8], place: usize) -> u64
    ensures { result ≡ column_of line_front.now text.now place }
{
    chars_in(line_front) as u64 + chars_in(front(text, place)) as u64 + 1
}

// At most so many bytes of a text.
#[tactic(auto, using(std::proofs::lemmas::List::take_all))]
fn front(text: &[u8], len: usize) -> &[u8]
    ensures { result.now ≡ take len text.now }
{
    if text.len() < len {
        return text;
    }
    &text[..len]
}
