ghost use Rattle.std.specs.Prelude.{◌≡◌, IfOk};
ghost use Rattle.pc_desk_records.specs.Beginnings.{front_text, line_text};

use crate::begin::{begin_of, line_at};
use pc_num::Memory;
use std::alloc::Global;

/// The line on which the record begins that has this number, from 1, before what is told of it.
#[tactic(auto, unfolding(crate::specs::Beginnings::front_text))]
pub(crate) fn front_text(alloc: Global, number: u64, text: &[u8]) -> Result<Vec<u8>, Memory>
    ensures { IfOk result (λ out. out.items ≡ front_text number text.now) }
{
    match begin_of(text, number.saturating_sub(1)) {
        Some(place) => line_text(alloc, line_at(text, place)),
        None => Ok(Vec::from_slice(alloc, b": ".as_slice())?),
    }
}

fn line_text(alloc: Global, line: u64) -> Result<Vec<u8>, Memory>
    ensures { IfOk result (λ text. text.items ≡ line_text line) }
{
    Ok(format!(in alloc; " (line {line}): ")?.into_bytes())
}
