ghost use Rattle.std.specs.Prelude.{◌≡◌, ◌≤◌, ◌^◌, ◌+◌, ◌++◌, IfOk, IfSome};
ghost use Rattle.pc_desk_draw.specs.Axes.{IsSmall};
ghost use Rattle.pc_desk_draw.specs.Bars.{last_place, tick_text};
ghost use Rattle.pc_desk_draw.specs.Elements.{grid_line};
ghost use Rattle.pc_desk_draw.specs.Places.{tick_place};
ghost use Rattle.pc_desk_draw.specs.Shapes.{axis_above, axis_elements, label_shown, last_pixel, ticks_elements};

use crate::axis::Axis;
use crate::bar::LAST_PLACE;
use crate::elements::{Style, grid_line, text_element};
use crate::layout::Layout;
use crate::place::tick_place;
use crate::scale::{end_put, tick_text};
use crate::shapes::LAST_PIXEL;
use crate::size::left_of;
use pc_num::Memory;
use std::alloc::Global;

/// The axis of a picture with so many rows whose top is here.
pub(crate) fn axis_above(
    alloc: Global,
    layout: Layout,
    top: u128,
    rows: usize,
) -> Result<Vec<u8>, Memory>
    requires top { top ≤ 2 ^ 80 }
    requires small { IfSome layout.axis IsSmall }
    ensures { IfOk result (λ text. text.items ≡ axis_above layout top rows) }
{
    let height = 22 * rows as u128 + 4;
    axis_elements(alloc, layout.axis, top + 22, left_of(layout.names), height)
}

// A line down all rows at each tick, and labels above them.
fn axis_elements(
    alloc: Global,
    axis: Option<Axis>,
    top: u128,
    left: u128,
    height: u128,
) -> Result<Vec<u8>, Memory>
    requires small { IfSome axis IsSmall }
    requires top { top ≤ 2 ^ 81 }
    requires left { left ≤ 2 ^ 70 }
    ensures { IfOk result (λ text. text.items ≡ axis_elements axis top left height) }
{
    match axis {
        Some(axis) => ticks_elements(alloc, axis, top, left, height),
        None => Ok(Vec::new(alloc)),
    }
}

#[tactic(auto, using(crate::proofs::Tables::grid_steps))]
fn ticks_elements(
    alloc: Global,
    axis: Axis,
    top: u128,
    left: u128,
    height: u128,
) -> Result<Vec<u8>, Memory>
    requires small { IsSmall axis }
    requires top { top ≤ 2 ^ 81 }
    requires left { left ≤ 2 ^ 70 }
    ensures { IfOk result (λ text. text.items ≡ ticks_elements axis top left height (axis.steps + 1)) }
{
    let mut text = Vec::new(alloc);
    let mut end = 0;
    for tick in 0..axis.steps + 1 {
        let line = tick_line(alloc, axis, tick, (top, left, height))?;
        text.extend_from_slice(line.as_slice())?;
        let label = tick_text(alloc, axis, tick)?;
        let place = tick_place(axis, LAST_PLACE, tick);
        let shown = label_shown(alloc, end, place, (top, left), label.as_slice())?;
        text.extend_from_slice(shown.as_slice())?;
        end = end_put(end, place, label.len());
    }
    Ok(text)
}

fn tick_line(
    alloc: Global,
    axis: Axis,
    tick: usize,
    place: (u128, u128, u128),
) -> Result<Vec<u8>, Memory>
    requires small { IsSmall axis }
    requires tick { tick ≤ axis.steps }
    requires top { place.0 ≤ 2 ^ 81 }
    requires left { place.1 ≤ 2 ^ 70 }
    ensures { IfOk result (λ text. text.items ≡ grid_line (place.1 + tick_place axis last_pixel tick) (place.0 + 20) place.2) }
{
    let x = place.1 + tick_place(axis, LAST_PIXEL, tick) as u128;
    grid_line(alloc, x, place.0 + 20, place.2)
}

// A label begins at its tick, and is left out where the one before reaches as far.
fn label_shown(
    alloc: Global,
    end: u128,
    place: usize,
    corner: (u128, u128),
    label: &[u8],
) -> Result<Vec<u8>, Memory>
    requires top { corner.0 ≤ 2 ^ 81 }
    requires left { corner.1 ≤ 2 ^ 70 }
    ensures { IfOk result (λ text. text.items ≡ label_shown end place corner.0 corner.1 label.now) }
{
    if (place as u128) < end {
        return Ok(Vec::new(alloc));
    }
    text_element(
        alloc,
        corner.1 + 8 * place as u128,
        corner.0 + 15,
        Style::Grey,
        label,
    )
}
