ghost use Rattle.std.specs.Prelude.{◌≡◌, ◌≤◌, ◌^◌, ◌+◌, IfOk, IfSome};
ghost use Rattle.std.specs.List.{All};
ghost use Rattle.pc_desk_draw.specs.Axes.{IsSmall};
ghost use Rattle.pc_desk_draw.specs.Pictures.{background, body_text, legend_at, legend_exact, legend_observed, legend_outer, part_elements, parts_from, picture_text, sized_text, svg_start};
ghost use Rattle.pc_desk_draw.specs.Places.{Holds};
ghost use Rattle.pc_desk_draw.specs.Questions.{pictures_of};

use crate::elements::{Style, circle, observed_line, stroke, text_element};
use crate::grid::axis_above;
use crate::layout::{Layout, layout_of};
use crate::question::{first_picture, title_of};
use crate::shapes::rows_from;
use crate::size::{Size, height_of, size_of};
use pc_desk_table::Entry;
use pc_num::Memory;
use std::alloc::Global;

/// Answers as one SVG picture: the blocks of one question that stand one after the other have one axis, and a row each.
#[tactic(auto, unfolding(crate::specs::Pictures::picture_text))]
pub fn picture_of(alloc: Global, entries: &[Entry]) -> Result<Vec<u8>, Memory>
    ensures text { IfOk result (λ text. text.items ≡ picture_text entries.now) }
{
    let size = size_of(alloc, entries)?;
    sized_text(alloc, size, entries)
}

fn sized_text(alloc: Global, size: Size, entries: &[Entry]) -> Result<Vec<u8>, Memory>
    requires { size.height ≤ 2 ^ 80 }
    ensures { IfOk result (λ text. text.items ≡ sized_text size entries.now) }
{
    let mut text = svg_start(alloc, size.width, size.height)?;
    let background = background(alloc, size.width, size.height)?;
    text.extend_from_slice(background.as_slice())?;
    let parts = all_parts(alloc, entries)?;
    text.extend_from_slice(parts.as_slice())?;
    let legend = legend_at(alloc, size.height.saturating_sub(28))?;
    text.extend_from_slice(legend.as_slice())?;
    text.extend_from_slice(b"</svg>\n".as_slice())?;
    Ok(text)
}

/// The start of a picture of this size.
#[tactic(auto, unfolding(crate::specs::Pictures::svg_start))]
pub(crate) fn svg_start(alloc: Global, width: u128, height: u128) -> Result<Vec<u8>, Memory>
    ensures { IfOk result (λ text. text.items ≡ svg_start width height) }
{
    let text = format!(in alloc;
        "<svg xmlns=\"http://www.w3.org/2000/svg\" width=\"{width}\" height=\"{height}\" viewBox=\"0 0 {width} {height}\" font-family=\"monospace\" font-size=\"13\">\n"
    )?;
    Ok(text.into_bytes())
}

/// What stands behind all else.
#[tactic(auto, unfolding(crate::specs::Pictures::background))]
pub(crate) fn background(alloc: Global, width: u128, height: u128) -> Result<Vec<u8>, Memory>
    ensures { IfOk result (λ text. text.items ≡ background width height) }
{
    let text = format!(in alloc; "<rect width=\"{width}\" height=\"{height}\" fill=\"white\"/>\n")?;
    Ok(text.into_bytes())
}

// What is what, at the bottom.
fn legend_at(alloc: Global, top: u128) -> Result<Vec<u8>, Memory>
    requires { top ≤ 2 ^ 81 }
    ensures { IfOk result (λ text. text.items ≡ legend_at top) }
{
    let mut text = legend_exact(alloc, top)?;
    let outer = legend_outer(alloc, top)?;
    text.extend_from_slice(outer.as_slice())?;
    let observed = legend_observed(alloc, top)?;
    text.extend_from_slice(observed.as_slice())?;
    Ok(text)
}

#[tactic(auto, unfolding(crate::specs::Pictures::legend_exact))]
fn legend_exact(alloc: Global, top: u128) -> Result<Vec<u8>, Memory>
    requires { top ≤ 2 ^ 81 }
    ensures { IfOk result (λ text. text.items ≡ legend_exact top) }
{
    let mut text = stroke(alloc, 16, top + 4)?;
    let words = text_element(alloc, 24, top + 15, Style::Grey, b"exact".as_slice())?;
    text.extend_from_slice(words.as_slice())?;
    Ok(text)
}

#[tactic(auto, unfolding(crate::specs::Pictures::legend_outer))]
fn legend_outer(alloc: Global, top: u128) -> Result<Vec<u8>, Memory>
    requires { top ≤ 2 ^ 81 }
    ensures { IfOk result (λ text. text.items ≡ legend_outer top) }
{
    let mut text = circle(alloc, 90, top + 11)?;
    let words = text_element(alloc, 100, top + 15, Style::Grey, b"outer".as_slice())?;
    text.extend_from_slice(words.as_slice())?;
    Ok(text)
}

#[tactic(auto, unfolding(crate::specs::Pictures::legend_observed))]
fn legend_observed(alloc: Global, top: u128) -> Result<Vec<u8>, Memory>
    requires { top ≤ 2 ^ 81 }
    ensures { IfOk result (λ text. text.items ≡ legend_observed top) }
{
    let mut text = observed_line(alloc, 164, top + 1)?;
    let words = text_element(
        alloc,
        172,
        top + 15,
        Style::Grey,
        b"the rows that are left".as_slice(),
    )?;
    text.extend_from_slice(words.as_slice())?;
    Ok(text)
}

// The pictures, one below the other.
#[tactic(auto, using(crate::proofs::Stacking::steps))]
fn all_parts(alloc: Global, entries: &[Entry]) -> Result<Vec<u8>, Memory>
    ensures { IfOk result (λ text. text.items ≡ parts_from 5 (pictures_of entries.now)) }
{
    let mut text = Vec::new(alloc);
    let mut top = 5;
    let mut rest = entries;
    while let Some((picture, after)) = first_picture(rest) {
        let part = part_elements(alloc, top, picture)?;
        text.extend_from_slice(part.as_slice())?;
        top += height_of(picture);
        rest = after;
    }
    Ok(text)
}

// The question, the axis, and a row for each block.
#[tactic(auto, unfolding(crate::specs::Pictures::part_elements))]
fn part_elements(alloc: Global, top: u128, entries: &[Entry]) -> Result<Vec<u8>, Memory>
    requires { top ≤ 2 ^ 79 }
    ensures { IfOk result (λ text. text.items ≡ part_elements top entries.now) }
{
    let title = title_of(alloc, entries)?;
    let mut text = text_element(alloc, 8, top + 15, Style::Bold, title.as_slice())?;
    let body = body_text(alloc, layout_of(entries), top, entries)?;
    text.extend_from_slice(body.as_slice())?;
    Ok(text)
}

// The lines at the ticks, and the rows before them.
fn body_text(alloc: Global, layout: Layout, top: u128, entries: &[Entry]) -> Result<Vec<u8>, Memory>
    requires top { top ≤ 2 ^ 79 }
    requires small { IfSome layout.axis IsSmall }
    requires holds { All (Holds layout.axis) entries.now }
    ensures { IfOk result (λ text. text.items ≡ body_text layout top entries.now) }
{
    let mut text = axis_above(alloc, layout, top, entries.len())?;
    let rows = rows_from(alloc, layout, top + 44, entries)?;
    text.extend_from_slice(rows.as_slice())?;
    Ok(text)
}
