ghost use Rattle.std.specs.Prelude.{◌≡◌, ◌<◌, ◌∷◌, [], length, IfSome, MatchOption};
ghost use Rattle.pc_lang.specs.Files.{is_passed_over, lines_of, without_return};
ghost use Rattle.pc_lang_tokens.specs.Lexing.{is_blank};

/// What stands before the first line feed, and what stands after it.
#[tactic(auto, using(crate::proofs::TextLines::pieces))]
pub fn first_line(text: &[u8]) -> Option<(&[u8], &[u8])>
    ensures pieces { MatchOption result (lines_of text.now ≡ text.now ∷ []) (λ cut. lines_of text.now ≡ cut.0.now ∷ lines_of cut.1.now) }
    ensures shorter { IfSome result (λ cut. length cut.1.now < length text.now) }
{
    for (place, byte) in text.iter().enumerate() {
        if *byte == b'\n' {
            return Some((&text[..place], &text[place + 1..]));
        }
    }
    None
}

/// The line without the carriage return that it ends in, if it does.
#[tactic(auto, unfolding(crate::specs::Files::without_return))]
pub fn without_return(line: &[u8]) -> &[u8]
    ensures { result.now ≡ without_return line.now }
{
    match line {
        [front @ .., b'\r'] => front,
        _ => line,
    }
}

/// Whether the line has blanks alone, or `#` as its first other byte.
#[tactic(auto, using(crate::proofs::TextLines::blanks))]
pub fn is_passed_over(line: &[u8]) -> bool
    ensures { result ≡ is_passed_over line.now }
{
    for byte in line {
        if !is_blank(*byte) {
            return *byte == b'#';
        }
    }
    true
}

/// Whether the byte is a space or a tab.
pub fn is_blank(byte: u8) -> bool
    ensures { result ≡ is_blank byte }
{
    byte == b' ' || byte == b'\t'
}
