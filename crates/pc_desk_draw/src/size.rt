ghost use Rattle.std.specs.Prelude.{◌≡◌, ◌≤◌, ◌+◌, ◌*◌, ◌^◌, IfOk, IfSome};
ghost use Rattle.pc_desk_draw.specs.Axes.{IsSmall};
ghost use Rattle.pc_desk_draw.specs.Bars.{label_end};
ghost use Rattle.pc_desk_draw.specs.Questions.{pictures_of};
ghost use Rattle.pc_desk_draw.specs.Sizes.{grown, grown_by, height_of, labels_width, least_size, left_of, longest, room, rows_height, width_of};

use crate::axis::Axis;
use crate::bar::LAST_PLACE;
use crate::layout::{Layout, layout_of};
use crate::place::tick_place;
use crate::question::{first_picture, title_width};
use crate::scale::{end_put, tick_text};
use crate::texts::answer_text;
use pc_desk_table::Entry;
use pc_num::Memory;
use std::alloc::Global;

/// A size in pixels.
#[derive(Clone, Copy)]
pub(crate) struct Size {
    pub width: u128,
    pub height: u128,
}

/// The size of the pictures of all blocks, one below the other, with the legend.
#[tactic(auto, using(crate::proofs::Growing::sizes))]
pub(crate) fn size_of(alloc: Global, entries: &[Entry]) -> Result<Size, Memory>
    ensures value { IfOk result (λ size. size ≡ grown_by least_size (pictures_of entries.now)) }
    ensures small { IfOk result (λ size. size.height ≤ 2 ^ 80) }
{
    let mut size = Size {
        width: 360,
        height: 33,
    };
    let mut rest = entries;
    while let Some((picture, after)) = first_picture(rest) {
        size = grown(alloc, size, picture)?;
        rest = after;
    }
    Ok(size)
}

fn grown(alloc: Global, size: Size, entries: &[Entry]) -> Result<Size, Memory>
    requires { size.height ≤ 2 ^ 80 }
    ensures { IfOk result (λ larger. larger ≡ grown size entries.now) }
{
    let width = width_of(alloc, entries)?;
    Ok(Size {
        width: size.width.max(width),
        height: size.height + height_of(entries),
    })
}

/// The height of a picture.
pub(crate) fn height_of(entries: &[Entry]) -> u128
    ensures value { result ≡ height_of entries.now }
    ensures small { result ≤ 2 ^ 70 }
{
    rows_height(entries.len())
}

/// The height of a picture with so many rows.
pub(crate) fn rows_height(rows: usize) -> u128
    ensures value { result ≡ rows_height rows }
    ensures small { result ≤ 2 ^ 70 }
{
    22 * (rows as u128 + 3)
}

#[tactic(auto, unfolding(crate::specs::Sizes::width_of))]
fn width_of(alloc: Global, entries: &[Entry]) -> Result<u128, Memory>
    ensures { IfOk result (λ width. width ≡ width_of entries.now) }
{
    let title = title_width(alloc, entries)?;
    let columns = longest(alloc, entries)?;
    room(alloc, layout_of(entries), title, columns)
}

/// Room for a title, and for the names, the axis with its labels, and values of so many columns.
pub(crate) fn room(
    alloc: Global,
    layout: Layout,
    title: u128,
    columns: usize,
) -> Result<u128, Memory>
    requires title { title ≤ 2 ^ 65 }
    requires small { IfSome layout.axis IsSmall }
    ensures { IfOk result (λ width. width ≡ room layout title columns) }
{
    let labels = labels_width(alloc, layout.axis)?;
    let values = 504 + pixels(columns);
    let body = left_of(layout.names) + values.max(labels);
    Ok((16 + 8 * title).max(body))
}

// How far the labels of an axis reach.
fn labels_width(alloc: Global, axis: Option<Axis>) -> Result<u128, Memory>
    requires { IfSome axis IsSmall }
    ensures value { IfOk result (λ width. width ≡ labels_width axis) }
    ensures small { IfOk result (λ width. width ≤ 2 ^ 72) }
{
    let Some(axis) = axis else {
        return Ok(0);
    };
    Ok(8 * label_end(alloc, axis)?)
}

#[tactic(auto, using(crate::proofs::Tables::label_steps))]
fn label_end(alloc: Global, axis: Axis) -> Result<u128, Memory>
    requires { IsSmall axis }
    ensures value { IfOk result (λ end. end ≡ label_end axis (axis.steps + 1)) }
    ensures small { IfOk result (λ end. end ≤ 2 ^ 69) }
{
    let mut end = 0;
    for tick in 0..axis.steps + 1 {
        let text = tick_text(alloc, axis, tick)?;
        end = end_put(end, tick_place(axis, LAST_PLACE, tick), text.len());
    }
    Ok(end)
}

/// Where the axis begins, right of the names.
pub(crate) fn left_of(names: Option<usize>) -> u128
    ensures value { result ≡ left_of names }
    ensures small { result ≤ 2 ^ 70 }
{
    match names {
        Some(width) => 24 + pixels(width),
        None => 16,
    }
}

// How many pixels so many columns take.
fn pixels(columns: usize) -> u128
    ensures value { result ≡ 8 * columns }
    ensures small { result ≤ 2 ^ 67 }
{
    8 * columns as u128
}

// The most columns that the values of a block take.
#[tactic(auto, using(crate::proofs::Growing::lengths))]
fn longest(alloc: Global, entries: &[Entry]) -> Result<usize, Memory>
    ensures { IfOk result (λ columns. columns ≡ longest entries.now) }
{
    let mut columns = 0;
    for entry in entries {
        let text = answer_text(alloc, entry)?;
        columns = text.len().max(columns);
    }
    Ok(columns)
}
