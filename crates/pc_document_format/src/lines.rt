ghost use Rattle.std.specs.Prelude.{◌≡◌, ℕ, ◌+◌, ◌-◌, ◌<◌, ◌≤◌, List, [], ◌∷◌, length, take, drop, MatchOption};
ghost use Rattle.pc_document_format.specs.Lines.{whole_lines, feeds_in, IsLineEnd};

/// The place of the line feed of the line that begins at a place, or none where no line ends after it.
#[tactic(auto, using(crate::proofs::Places::ends))]
pub fn line_end(bytes: &[u8], at: usize) -> Option<usize>
    requires { at ≤ length bytes.now }
    ensures { MatchOption result (whole_lines (drop at bytes.now) ≡ []) (λ end. IsLineEnd bytes.now at end) }
{
    for end in at..bytes.len() {
        if bytes[end] == b'\n' {
            return Some(end);
        }
    }
    None
}

/// The number of the line at a place: one more than the line feeds before it.
#[tactic(auto, using(crate::proofs::Places::counts))]
pub fn line_of(bytes: &[u8], at: usize) -> u64
    requires { at ≤ length bytes.now }
    ensures { result ≡ feeds_in (take at bytes.now) + 1 }
{
    let mut line: u64 = 1;
    for place in 0..at {
        if bytes[place] == b'\n' {
            line += 1;
        }
    }
    line
}
