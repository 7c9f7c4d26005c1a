//! The parts of a text.
ghost use Rattle.std.specs.Prelude.{◌≡◌, ◌<◌, ◌∷◌, [], length, IfSome, MatchOption, None, Some};
ghost use Rattle.pc_desk_divide.specs.Reading.{column_text, last_cut, texts_of};

/// What stands before the first comma, and what stands after it.
#[tactic(auto, using(crate::proofs::Commas::pieces))]
pub(crate) fn first_text(text: &[u8]) -> Option<(&[u8], &[u8])>
    ensures pieces { MatchOption result (texts_of text.now ≡ text.now ∷ []) (λ cut. texts_of text.now ≡ cut.0.now ∷ texts_of cut.1.now) }
    ensures shorter { IfSome result (λ cut. length cut.1.now < length text.now) }
{
    for (place, byte) in text.iter().enumerate() {
        if *byte == b',' {
            return Some((&text[..place], &text[place + 1..]));
        }
    }
    None
}

/// What stands before the last slash, and what stands after it.
#[tactic(auto, using(crate::proofs::Slashes::steps))]
pub(crate) fn last_cut(text: &[u8]) -> Option<(&[u8], &[u8])>
    ensures { MatchOption result (last_cut text.now ≡ None) (λ cut. last_cut text.now ≡ Some (cut.0.now, cut.1.now)) }
{
    for place in (0..text.len()).rev() {
        if text[place] == b'/' {
            return Some((&text[..place], &text[place + 1..]));
        }
    }
    None
}

/// What names the column where the text as a whole does not.
pub(crate) fn column_text(text: &[u8]) -> &[u8]
    ensures { result.now ≡ column_text text.now }
{
    match last_cut(text) {
        Some((name, _)) => name,
        None => text,
    }
}
