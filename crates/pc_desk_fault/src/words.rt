ghost use Rattle.std.specs.Prelude.{◌≡◌, ◌≤◌, length};
ghost use Rattle.std.specs.List.{position_or_len};
ghost use Rattle.pc_lang_tokens.specs.Lexing.{is_blank};
ghost use Rattle.pc_script.specs.Script.{after_blanks, after_word, first_word};

use pc_lang::is_blank;

/// The first word of a text, and what stands after it.
#[tactic(auto, unfolding(pc_script::specs::Script::first_word, pc_script::specs::Script::after_word))]
pub(crate) fn first_word(text: &[u8]) -> (&[u8], &[u8])
    ensures word { result.0.now ≡ first_word text.now }
    ensures rest { result.1.now ≡ after_word text.now }
{
    let text = after_blanks(text);
    text.split_at(word_len(text))
}

pub(crate) fn after_blanks(mut text: &[u8]) -> &[u8]
    ensures { result.now ≡ after_blanks text.entry.now }
{
    while let [byte, rest @ ..] = text {
        if !is_blank(*byte) {
            return text;
        }
        text = rest;
    }
    text
}

// How many bytes stand before the first blank.
#[tactic(auto, using(crate::proofs::FirstBlank::steps))]
fn word_len(text: &[u8]) -> usize
    ensures len { result ≡ position_or_len is_blank text.now }
    ensures inside { result ≤ length text.now }
{
    for (place, byte) in text.iter().enumerate() {
        if is_blank(*byte) {
            return place;
        }
    }
    text.len()
}
