ghost use Rattle.std.specs.Prelude.{◌≡◌, ◌≤◌, ◌+◌, IfOk, OnOk, length};
ghost use Rattle.pc_desk_draw.specs.Axes.{IsSmall};
ghost use Rattle.pc_desk_draw.specs.Bars.{end_put, label_put, labelled, ruled, tick_text, with_text};

use crate::axis::{Axis, tick_number};
use crate::bar::{LAST_PLACE, put_repeated};
use crate::place::tick_place;
use crate::texts::number_text;
use pc_num::Memory;
use std::alloc::Global;

// Goes on with a text in a column.
fn put_text(line: &mut Vec<u8>, fill: u8, column: usize, text: &[u8]) -> Result<(), Memory>
    ensures { OnOk result (line.new.items ≡ with_text fill line.old.items column text.now) }
{
    let missing = column.saturating_sub(line.len());
    put_repeated(line, fill, missing)?;
    line.extend_from_slice(text)?;
    Ok(())
}

/// The axis up to a tick: `+` at each.
#[tactic(auto, using(crate::proofs::Tables::ruled_steps))]
pub(crate) fn ruled(alloc: Global, axis: Axis, ticks: usize) -> Result<Vec<u8>, Memory>
    requires small { IsSmall axis }
    requires ticks { ticks ≤ axis.steps + 1 }
    ensures { IfOk result (λ line. line.items ≡ ruled axis ticks) }
{
    let mut line = Vec::new(alloc);
    for tick in 0..ticks {
        let place = tick_place(axis, LAST_PLACE, tick);
        put_text(&mut line, b'-', place, b"+".as_slice())?;
    }
    Ok(line)
}

/// The text of a tick.
pub(crate) fn tick_text(alloc: Global, axis: Axis, tick: usize) -> Result<Vec<u8>, Memory>
    requires small { IsSmall axis }
    requires tick { tick ≤ axis.steps }
    ensures { IfOk result (λ text. text.items ≡ tick_text axis tick) }
{
    number_text(alloc, tick_number(axis, tick))
}

/// The labels of so many ticks, of which each begins at its tick, and is left out where the one before reaches as far.
#[tactic(auto, using(crate::proofs::Tables::label_steps))]
pub(crate) fn labelled(alloc: Global, axis: Axis, ticks: usize) -> Result<Vec<u8>, Memory>
    requires small { IsSmall axis }
    requires ticks { ticks ≤ axis.steps + 1 }
    ensures { IfOk result (λ line. line.items ≡ labelled axis ticks) }
{
    let mut line = Vec::new(alloc);
    let mut end = 0;
    for tick in 0..ticks {
        let text = tick_text(alloc, axis, tick)?;
        let place = tick_place(axis, LAST_PLACE, tick);
        put_label(&mut line, end, place, text.as_slice())?;
        end = end_put(end, place, text.len());
    }
    Ok(line)
}

fn put_label(line: &mut Vec<u8>, end: u128, place: usize, text: &[u8]) -> Result<(), Memory>
    ensures { OnOk result (line.new.items ≡ label_put line.old.items end place text.now) }
{
    if (place as u128) < end {
        return Ok(());
    }
    put_text(line, b' ', place, text)
}

/// The first column in which a further label may begin, after one of so many columns.
pub(crate) fn end_put(end: u128, place: usize, len: usize) -> u128
    ensures { result ≡ end_put end place len }
{
    if (place as u128) < end {
        return end;
    }
    place as u128 + len as u128 + 1
}
