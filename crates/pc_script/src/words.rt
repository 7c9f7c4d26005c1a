ghost use Rattle.std.specs.Prelude.{◌≡◌, ◌≤◌, length};
ghost use Rattle.std.specs.Char.{is_ascii_digit};
ghost use Rattle.std.specs.List.{list_all, position_or_len};
ghost use Rattle.pc_lang_tokens.specs.Lexing.{is_blank};
ghost use Rattle.pc_script.specs.Script.{after_blanks, after_word, first_word};

use pc_lang::is_blank;

/// The first word of a text, and what stands after it.
#[tactic(auto, unfolding(crate::specs::Script::first_word, crate::specs::Script::after_word))]
pub(crate) fn first_word(text: &[u8]) -> (&[u8], &[u8])
    ensures word { result.0.now ≡ first_word text.now }
    ensures rest { result.1.now ≡ after_word text.now }
{
    let text = after_blanks(text);
    text.split_at(word_len(text))
}

fn after_blanks(mut text: &[u8]) -> &[u8]
    ensures { result.now ≡ after_blanks text.entry.now }
{
    while let [byte, rest @ ..] = text {
        if !is_blank(*byte) {
            return text;
        }
        text = rest;
    }
    text
}

// How many bytes stand before the first blank.
#[tactic(auto, using(crate::proofs::FirstBlank::steps))]
fn word_len(text: &[u8]) -> usize
    ensures len { result ≡ position_or_len is_blank text.now }
    ensures inside { result ≤ length text.now }
{
    for (place, byte) in text.iter().enumerate() {
        if is_blank(*byte) {
            return place;
        }
    }
    text.len()
}

pub(crate) fn are_blanks(text: &[u8]) -> bool
    ensures { result ≡ list_all is_blank text.now }
{
    text.iter().all(|byte| is_blank(*byte))
}

pub(crate) fn are_digits(text: &[u8]) -> bool
    ensures { result ≡ list_all is_ascii_digit text.now }
{
    text.iter().all(|byte| byte.is_ascii_digit())
}
