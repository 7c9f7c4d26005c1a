ghost use Rattle.std.specs.Prelude.{◌≡◌, [], ◌∷◌, ◌<◌, MatchOption, MatchResult, IfOk, IfSome};
ghost use Rattle.pc_document.specs.declared.halt.Halt.TheVariants as halts;
ghost use Rattle.pc_document.specs.Places.{IsLineStart, lines_at};

use crate::halt::Halt;
use pc_document_format::line_end;

/// The line that begins at a place, and the place after it; none where no line ends after the place.
#[tactic(auto, using(crate::proofs::LineStarts::starts_after))]
pub(crate) fn line_at(bytes: &[u8], at: usize) -> Option<(&[u8], usize)>
    requires { IsLineStart bytes.now at }
    ensures found { MatchOption result (lines_at bytes.now at ≡ []) (λ found. (lines_at bytes.now at ≡ found.0.now ∷ lines_at bytes.now found.1) × IsLineStart bytes.now found.1) }
    ensures later { IfSome result (λ found. at < found.1) }
{
    let end = line_end(bytes, at)?;
    Some((&bytes[at..end], end + 1))
}

/// The line that begins at a place, and the place after it.
pub(crate) fn first_line_at(bytes: &[u8], at: usize) -> Result<(&[u8], usize), Halt>
    requires { IsLineStart bytes.now at }
    ensures found { MatchResult result (λ found. (lines_at bytes.now at ≡ found.0.now ∷ lines_at bytes.now found.1) × IsLineStart bytes.now found.1) (λ halt. (halt ≡ halts.Fault at) × (lines_at bytes.now at ≡ [])) }
    ensures later { IfOk result (λ found. at < found.1) }
{
    match line_at(bytes, at) {
        Some(found) => Ok(found),
        None => Err(Halt::Fault { at }),
    }
}
