ghost use Rattle.std.specs.Prelude.{◌≡◌, ◌-◌, ◌∷◌, [], IfOk, option_map};
ghost use Rattle.pc_model.specs.Texts.{text_of};
ghost use Rattle.pc_lang.specs.Files.{lines_of};
ghost use Rattle.pc_desk_fault.specs.Lines.{IsLineTold, IsPlaceTold, line_told, nth};
ghost use Rattle.pc_desk_fault.specs.WholeFiles.{plain_text};

use crate::meanings::Form;
use crate::texts::{Refused, text_for};
use pc_desk_wants::shown;
use pc_lang::{first_line, without_return};
use pc_lang_grammar::{LineWant, Want};
use pc_model::{Reason, text_of};
use pc_num::Memory;
use std::alloc::Global;

/// The line of a refusal of a file of constraints, and what is told of it.
pub(crate) fn place_told(
    alloc: Global,
    schema: &[u8],
    reason: Reason,
    place: u64,
    file: &[u8],
) -> Result<Vec<u8>, Memory>
    ensures { IfOk result (λ out. IsPlaceTold schema.now reason (nth (place - 1) (lines_of (plain_text (text_of file.now) file.now))) out.items) }
{
    match nth_line(plain_text(file), place.saturating_sub(1)) {
        Some(line) => line_of(alloc, schema, reason, without_return(line)),
        None => Ok(Vec::from_slice(alloc, b"\n".as_slice())?),
    }
}

#[tactic(auto, using(crate::proofs::Telling::lines))]
fn line_of(alloc: Global, schema: &[u8], reason: Reason, line: &[u8]) -> Result<Vec<u8>, Memory>
    ensures { IfOk result (λ out. IsLineTold schema.now reason line.now out.items) }
{
    let refused = Refused {
        form: Form::Line,
        schema,
        front: &[],
        text: line,
        start: Want::Line(LineWant::Head),
    };
    let told = text_for(alloc, reason, &refused)?;
    line_told(alloc, line, told.as_slice())
}

/// The line itself, and what is told of it.
#[tactic(auto, unfolding(crate::specs::Lines::line_told))]
pub(crate) fn line_told(alloc: Global, line: &[u8], told: &[u8]) -> Result<Vec<u8>, Memory>
    ensures { IfOk result (λ out. out.items ≡ line_told line.now told.now) }
{
    let line = shown(alloc, line)?;
    let mut out = Vec::from_slice(alloc, b": ".as_slice())?;
    out.extend_from_slice(line.as_slice())?;
    out.push(b'\n')?;
    out.extend_from_slice(told)?;
    Ok(out)
}

/// The text of a file without a byte order mark, or its bytes where it is none.
pub(crate) fn plain_text(bytes: &[u8]) -> &[u8]
    ensures { result.now ≡ plain_text (text_of bytes.now) bytes.now }
{
    match text_of(bytes) {
        Ok(text) => text,
        Err(_) => bytes,
    }
}

/// The line before which so many stand.
#[tactic(auto, using(crate::proofs::NthLines::steps))]
pub(crate) fn nth_line(text: &[u8], before: u64) -> Option<&[u8]>
    ensures { option_map (λ line. line.now) result ≡ nth before (lines_of text.now) }
{
    let mut left = before;
    let mut rest = text;
    while let Some((line, after)) = first_line(rest) {
        if left == 0 {
            return Some(line);
        }
        left -= 1;
        rest = after;
    }
    last_line(rest, left)
}

#[tactic(auto, using(crate::proofs::NthLines::lasts))]
fn last_line(text: &[u8], left: u64) -> Option<&[u8]>
    ensures { option_map (λ line. line.now) result ≡ nth left (text.now ∷ []) }
{
    if left == 0 {
        return Some(text);
    }
    None
}
