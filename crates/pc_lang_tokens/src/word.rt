ghost use Rattle.std.specs.Prelude.{◌≡◌};
ghost use Rattle.std.specs.List.{list_all};
ghost use Rattle.pc_lang_tokens.specs.Spelling.{starts_word, is_word_byte, begins_as_word, is_word, reserved, is_reserved, is_bare};

use crate::token::Word;

// The most bytes that a word has.
const LONGEST_WORD: usize = 64;

/// Whether a name is written without quotes: a word of 1 to 64 ASCII letters, digits and low lines that no digit
/// begins and that the language has not reserved.
#[tactic(auto, unfolding(crate::specs::Spelling::is_bare))]
pub fn is_bare(text: &[u8]) -> bool
    ensures { result ≡ is_bare text.now }
{
    is_word(text) && !is_reserved(text)
}

fn starts_word(byte: u8) -> bool
    ensures { result ≡ starts_word byte }
{
    byte.is_ascii_alphabetic() || byte == b'_'
}

pub(crate) fn is_word_byte(byte: u8) -> bool
    ensures { result ≡ is_word_byte byte }
{
    starts_word(byte) || byte.is_ascii_digit()
}

pub(crate) fn begins_as_word(text: &[u8]) -> bool
    ensures { result ≡ begins_as_word text.now }
{
    match text {
        [byte, ..] => starts_word(*byte),
        [] => false,
    }
}

fn has_word_bytes_only(text: &[u8]) -> bool
    ensures { result ≡ list_all is_word_byte text.now }
{
    text.iter().all(|byte| is_word_byte(*byte))
}

#[tactic(auto, unfolding(crate::specs::Spelling::is_word))]
pub(crate) fn is_word(text: &[u8]) -> bool
    ensures { result ≡ is_word text.now }
{
    begins_as_word(text) && has_word_bytes_only(text) && text.len() <= LONGEST_WORD
}

#[tactic(auto, unfolding(crate::specs::Spelling::is_reserved))]
fn is_reserved(text: &[u8]) -> bool
    ensures { result ≡ is_reserved text.now }
{
    reserved(text).is_some()
}

/// The reserved word that the bytes are. None of them is a bare name.
#[tactic(auto, unfolding(crate::specs::Spelling::reserved))]
pub(crate) fn reserved(text: &[u8]) -> Option<Word>
    ensures { result ≡ reserved text.now }
{
    if text == b"true".as_slice() {
        return Some(Word::True);
    }
    if text == b"and".as_slice() {
        return Some(Word::And);
    }
    if text == b"or".as_slice() {
        return Some(Word::Or);
    }
    if text == b"in".as_slice() {
        return Some(Word::In);
    }
    if text == b"where".as_slice() {
        return Some(Word::Where);
    }
    if text == b"group".as_slice() {
        return Some(Word::Group);
    }
    if text == b"by".as_slice() {
        return Some(Word::By);
    }
    if text == b"count".as_slice() {
        return Some(Word::Count);
    }
    if text == b"sum".as_slice() {
        return Some(Word::Sum);
    }
    if text == b"min".as_slice() {
        return Some(Word::Min);
    }
    if text == b"max".as_slice() {
        return Some(Word::Max);
    }
    if text == b"avg".as_slice() {
        return Some(Word::Avg);
    }
    if text == b"outside".as_slice() {
        return Some(Word::Outside);
    }
    if text == b"quantile".as_slice() {
        return Some(Word::Quantile);
    }
    None
}
