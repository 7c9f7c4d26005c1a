ghost use Rattle.std.specs.Prelude.{◌≡◌, ◌≤◌, ◌^◌, IfOk, IfSome};
ghost use Rattle.std.specs.List.{All};
ghost use Rattle.pc_desk_draw.specs.Axes.{IsSmall};
ghost use Rattle.pc_desk_draw.specs.Segments.{HoldsRow};
ghost use Rattle.pc_desk_draw.specs.Stacked.{bars_body, bars_from, bars_part, bars_text, sized_bars};

use crate::bar_size::{end_of, stacked};
use crate::elements::{Style, text_element};
use crate::grid::axis_above;
use crate::layout::Layout;
use crate::legend::{legend_of_tones, with_legend};
use crate::picture::{background, svg_start};
use crate::segment::{BarPicture, BarRow, Legend};
use crate::segments::bars_layout;
use crate::size::Size;
use crate::stacked::bar_rows;
use pc_num::Memory;
use std::alloc::Global;

/// Bars as a picture: each with its title, an axis on which all its segments stand, and a row for each bar; and what the tones
/// stand for.
#[tactic(auto, unfolding(crate::specs::Stacked::bars_text))]
pub fn bars_picture(
    alloc: Global,
    legend: &Legend,
    pictures: &[BarPicture],
) -> Result<Vec<u8>, Memory>
    ensures text { IfOk result (λ text. text.items ≡ bars_text legend.now pictures.now) }
{
    let size = with_legend(legend, stacked(alloc, pictures)?);
    sized_bars(alloc, size, legend, pictures)
}

fn sized_bars(
    alloc: Global,
    size: Size,
    legend: &Legend,
    pictures: &[BarPicture],
) -> Result<Vec<u8>, Memory>
    requires { size.height ≤ 2 ^ 79 }
    ensures { IfOk result (λ text. text.items ≡ sized_bars size legend.now pictures.now) }
{
    let mut text = svg_start(alloc, size.width, size.height)?;
    let background = background(alloc, size.width, size.height)?;
    text.extend_from_slice(background.as_slice())?;
    let parts = bars_from(alloc, pictures)?;
    text.extend_from_slice(parts.as_slice())?;
    let words = legend_of_tones(alloc, size.height.saturating_sub(28), legend)?;
    text.extend_from_slice(words.as_slice())?;
    text.extend_from_slice(b"</svg>\n".as_slice())?;
    Ok(text)
}

// The pictures, one below the other.
#[tactic(auto, using(crate::proofs::BarStacking::part_steps))]
fn bars_from(alloc: Global, pictures: &[BarPicture]) -> Result<Vec<u8>, Memory>
    ensures { IfOk result (λ text. text.items ≡ bars_from 5 pictures.now) }
{
    let mut text = Vec::new(alloc);
    let mut top = 5;
    for picture in pictures {
        let part = bars_part(alloc, top, picture)?;
        text.extend_from_slice(part.as_slice())?;
        top = end_of(top, picture)?;
    }
    Ok(text)
}

// The title, the axis, and a row for each bar.
#[tactic(auto, unfolding(crate::specs::Stacked::bars_part))]
fn bars_part(alloc: Global, top: u128, picture: &BarPicture) -> Result<Vec<u8>, Memory>
    requires { top ≤ 2 ^ 79 }
    ensures { IfOk result (λ text. text.items ≡ bars_part top picture.now) }
{
    let title = picture.title.as_bytes();
    let rows = picture.rows.as_slice();
    let mut text = text_element(alloc, 8, top + 15, Style::Bold, title)?;
    let body = bars_body(alloc, bars_layout(rows), top, rows)?;
    text.extend_from_slice(body.as_slice())?;
    Ok(text)
}

// The lines at the ticks, and the rows before them.
fn bars_body(alloc: Global, layout: Layout, top: u128, rows: &[BarRow]) -> Result<Vec<u8>, Memory>
    requires top { top ≤ 2 ^ 79 }
    requires small { IfSome layout.axis IsSmall }
    requires holds { All (HoldsRow layout.axis) rows.now }
    ensures { IfOk result (λ text. text.items ≡ bars_body layout top rows.now) }
{
    let mut text = axis_above(alloc, layout, top, rows.len())?;
    let rows = bar_rows(alloc, layout, top + 44, rows)?;
    text.extend_from_slice(rows.as_slice())?;
    Ok(text)
}
