ghost use Rattle.std.specs.Prelude.{◌≤◌, ◌≡◌, IfOk};
ghost use Rattle.pc_desk_records.specs.RowTexts.{span_text};

use pc_num::{Memory, put_scaled};
use std::alloc::Global;

/// From the least to the greatest number of a column.
#[tactic(auto, unfolding(crate::specs::RowTexts::span_text))]
pub(crate) fn span_text(alloc: Global, scale: u8, low: i64, high: i64) -> Result<Vec<u8>, Memory>
    requires { scale ≤ 6 }
    ensures { IfOk result (λ text. text.items ≡ span_text scale low high) }
{
    let mut text = Vec::new(alloc);
    put_scaled(alloc, &mut text, i128::from(low), scale)?;
    text.extend_from_slice(b"..".as_slice())?;
    put_scaled(alloc, &mut text, i128::from(high), scale)?;
    Ok(text)
}
