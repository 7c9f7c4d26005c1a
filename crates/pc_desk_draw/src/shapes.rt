ghost use Rattle.std.specs.Prelude.{◌≡◌, ◌≤◌, ◌^◌, ◌+◌, IfOk, IfSome};
ghost use Rattle.std.specs.List.{All};
ghost use Rattle.pc_desk_draw.specs.Axes.{IsSmall};
ghost use Rattle.pc_desk_draw.specs.Places.{Holds, IsBar};
ghost use Rattle.pc_desk_draw.specs.Shapes.{answer_elements, bar_elements, cap, drawing_elements, last_pixel, name_element, observed_element, row_elements, rows_from};

use crate::axis::Axis;
use crate::elements::{Style, bar, circle, observed_line, stroke, text_element};
use crate::layout::Layout;
use crate::place::{Bar, Drawing, drawing_of};
use crate::size::left_of;
use crate::texts::answer_text;
use pc_desk_table::{Entry, Group, Mark};
use pc_num::Memory;
use std::alloc::Global;

/// How many pixels long an axis is.
pub(crate) const LAST_PIXEL: usize = 480;

/// The rows of the blocks of a picture, one below the other.
#[tactic(auto, using(crate::proofs::Rowing::steps))]
pub(crate) fn rows_from(
    alloc: Global,
    layout: Layout,
    top: u128,
    entries: &[Entry],
) -> Result<Vec<u8>, Memory>
    requires top { top ≤ 2 ^ 80 }
    requires small { IfSome layout.axis IsSmall }
    requires holds { All (Holds layout.axis) entries.now }
    ensures { IfOk result (λ text. text.items ≡ rows_from layout top entries.now) }
{
    let mut text = Vec::new(alloc);
    let mut at = top;
    for entry in entries {
        let row = row_elements(alloc, layout, at, entry)?;
        text.extend_from_slice(row.as_slice())?;
        at += 22;
    }
    Ok(text)
}

#[tactic(auto, unfolding(crate::specs::Shapes::row_elements))]
fn row_elements(alloc: Global, layout: Layout, top: u128, entry: &Entry) -> Result<Vec<u8>, Memory>
    requires top { top ≤ 2 ^ 81 }
    requires small { IfSome layout.axis IsSmall }
    requires holds { Holds layout.axis entry.now }
    ensures { IfOk result (λ text. text.items ≡ row_elements layout top entry.now) }
{
    let mut text = name_element(alloc, top, &entry.group)?;
    let answer = answer_elements(alloc, top, left_of(layout.names), layout.axis, entry)?;
    text.extend_from_slice(answer.as_slice())?;
    Ok(text)
}

fn name_element(alloc: Global, top: u128, group: &Option<Group>) -> Result<Vec<u8>, Memory>
    requires { top ≤ 2 ^ 81 }
    ensures { IfOk result (λ text. text.items ≡ name_element top group.now) }
{
    match group {
        Some(group) => text_element(alloc, 8, top + 15, Style::Plain, group.name.as_bytes()),
        None => Ok(Vec::new(alloc)),
    }
}

// The values of a block, or a word, right of its bar.
fn answer_elements(
    alloc: Global,
    top: u128,
    left: u128,
    axis: Option<Axis>,
    entry: &Entry,
) -> Result<Vec<u8>, Memory>
    requires top { top ≤ 2 ^ 81 }
    requires left { left ≤ 2 ^ 70 }
    requires small { IfSome axis IsSmall }
    requires holds { Holds axis entry.now }
    ensures { IfOk result (λ text. text.items ≡ answer_elements top left axis entry.now) }
{
    let answer = answer_text(alloc, entry)?;
    let Some(axis) = axis else {
        return text_element(alloc, left, top + 15, Style::Plain, answer.as_slice());
    };
    let drawing = drawing_of(axis, LAST_PIXEL, entry);
    let mut text = drawing_elements(alloc, top, left, drawing)?;
    let values = text_element(alloc, left + 496, top + 15, Style::Plain, answer.as_slice())?;
    text.extend_from_slice(values.as_slice())?;
    Ok(text)
}

fn drawing_elements(
    alloc: Global,
    top: u128,
    left: u128,
    drawing: Drawing,
) -> Result<Vec<u8>, Memory>
    requires top { top ≤ 2 ^ 81 }
    requires left { left ≤ 2 ^ 70 }
    requires bar { IfSome drawing.bar (IsBar last_pixel) }
    requires observed { IfSome drawing.observed (λ place. place ≤ last_pixel) }
    ensures { IfOk result (λ text. text.items ≡ drawing_elements top left drawing) }
{
    let mut text = observed_element(alloc, top, left, drawing.observed)?;
    let bar = bar_elements(alloc, top, left, drawing.bar)?;
    text.extend_from_slice(bar.as_slice())?;
    Ok(text)
}

// A bar with its caps, in a row whose top is here, on an axis that begins here.
#[tactic(auto, unfolding(crate::specs::Shapes::bar_elements))]
fn bar_elements(alloc: Global, top: u128, left: u128, shape: Option<Bar>) -> Result<Vec<u8>, Memory>
    requires top { top ≤ 2 ^ 81 }
    requires left { left ≤ 2 ^ 70 }
    requires bar { IfSome shape (IsBar last_pixel) }
    ensures { IfOk result (λ text. text.items ≡ bar_elements top left shape) }
{
    let Some(shape) = shape else {
        return Ok(Vec::new(alloc));
    };
    let from = left + shape.low as u128;
    let to = left + shape.high as u128;
    let width = (shape.high - shape.low) as u128 + 1;
    let mut text = bar(alloc, from, top + 8, width)?;
    let low = cap(alloc, from, top, shape.low_mark)?;
    text.extend_from_slice(low.as_slice())?;
    let high = cap(alloc, to, top, shape.high_mark)?;
    text.extend_from_slice(high.as_slice())?;
    Ok(text)
}

// A stroke where an end is exact, a hollow circle where it is outer.
fn cap(alloc: Global, x: u128, top: u128, mark: Mark) -> Result<Vec<u8>, Memory>
    requires { top ≤ 2 ^ 81 }
    ensures { IfOk result (λ text. text.items ≡ cap x top mark) }
{
    match mark {
        Mark::Exact => stroke(alloc, x, top + 4),
        Mark::Outer => circle(alloc, x, top + 11),
    }
}

fn observed_element(
    alloc: Global,
    top: u128,
    left: u128,
    observed: Option<usize>,
) -> Result<Vec<u8>, Memory>
    requires top { top ≤ 2 ^ 81 }
    requires left { left ≤ 2 ^ 70 }
    ensures { IfOk result (λ text. text.items ≡ observed_element top left observed) }
{
    match observed {
        Some(place) => observed_line(alloc, left + place as u128, top + 1),
        None => Ok(Vec::new(alloc)),
    }
}
