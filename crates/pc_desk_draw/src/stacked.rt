ghost use Rattle.std.specs.Prelude.{◌≡◌, ◌≤◌, ◌+◌, ◌^◌, IfOk, IfSome};
ghost use Rattle.std.specs.List.{All};
ghost use Rattle.pc_desk_draw.specs.Axes.{IsSmall};
ghost use Rattle.pc_desk_draw.specs.Places.{HoldsSpan};
ghost use Rattle.pc_desk_draw.specs.Segments.{HoldsRow, HoldsSegment};
ghost use Rattle.pc_desk_draw.specs.Stacked.{bar_elements, bar_row, bar_rows};
ghost use Rattle.pc_desk_draw.specs.Stacked.{segment_element, segments_elements, span_element};

use crate::axis::Axis;
use crate::elements::{Style, segment, text_element};
use crate::layout::Layout;
use crate::place::place_of;
use crate::segment::{BarRow, Segment, Tone};
use crate::segments::segment_span;
use crate::shapes::LAST_PIXEL;
use crate::size::left_of;
use crate::span::Span;
use pc_num::Memory;
use std::alloc::Global;

/// The rows of a picture of bars, one below the other.
#[tactic(auto, using(crate::proofs::BarStacking::row_steps))]
pub(crate) fn bar_rows(
    alloc: Global,
    layout: Layout,
    top: u128,
    rows: &[BarRow],
) -> Result<Vec<u8>, Memory>
    requires top { top ≤ 2 ^ 80 }
    requires small { IfSome layout.axis IsSmall }
    requires holds { All (HoldsRow layout.axis) rows.now }
    ensures { IfOk result (λ text. text.items ≡ bar_rows layout top rows.now) }
{
    let mut text = Vec::new(alloc);
    let mut at = top;
    for row in rows {
        let elements = bar_row(alloc, layout, at, row)?;
        text.extend_from_slice(elements.as_slice())?;
        at += 22;
    }
    Ok(text)
}

#[tactic(auto, unfolding(crate::specs::Stacked::bar_row))]
fn bar_row(alloc: Global, layout: Layout, top: u128, row: &BarRow) -> Result<Vec<u8>, Memory>
    requires top { top ≤ 2 ^ 81 }
    requires small { IfSome layout.axis IsSmall }
    requires holds { HoldsRow layout.axis row.now }
    ensures { IfOk result (λ text. text.items ≡ bar_row layout top row.now) }
{
    let mut text = text_element(alloc, 8, top + 15, Style::Plain, row.name.as_bytes())?;
    let bar = bar_elements(alloc, top, left_of(layout.names), layout.axis, row)?;
    text.extend_from_slice(bar.as_slice())?;
    Ok(text)
}

// The segments of a row, and the text right of the axis.
fn bar_elements(
    alloc: Global,
    top: u128,
    left: u128,
    axis: Option<Axis>,
    row: &BarRow,
) -> Result<Vec<u8>, Memory>
    requires top { top ≤ 2 ^ 81 }
    requires left { left ≤ 2 ^ 70 }
    requires small { IfSome axis IsSmall }
    requires holds { HoldsRow axis row.now }
    ensures { IfOk result (λ text. text.items ≡ bar_elements top left axis row.now) }
{
    let words = row.text.as_bytes();
    let Some(axis) = axis else {
        return text_element(alloc, left, top + 15, Style::Plain, words);
    };
    let mut text = segments_elements(alloc, axis, (top, left), row.segments.as_slice())?;
    let words = text_element(alloc, left + 496, top + 15, Style::Plain, words)?;
    text.extend_from_slice(words.as_slice())?;
    Ok(text)
}

#[tactic(auto, using(std::proofs::lemmas::List::flat_map_more))]
fn segments_elements(
    alloc: Global,
    axis: Axis,
    corner: (u128, u128),
    segments: &[Segment],
) -> Result<Vec<u8>, Memory>
    requires top { corner.0 ≤ 2 ^ 81 }
    requires left { corner.1 ≤ 2 ^ 70 }
    requires small { IsSmall axis }
    requires holds { All (HoldsSegment axis) segments.now }
    ensures { IfOk result (λ text. text.items ≡ segments_elements axis corner.0 corner.1 segments.now) }
{
    let mut text = Vec::new(alloc);
    for segment in segments {
        let element = segment_element(alloc, axis, corner, segment)?;
        text.extend_from_slice(element.as_slice())?;
    }
    Ok(text)
}

fn segment_element(
    alloc: Global,
    axis: Axis,
    corner: (u128, u128),
    segment: &Segment,
) -> Result<Vec<u8>, Memory>
    requires top { corner.0 ≤ 2 ^ 81 }
    requires left { corner.1 ≤ 2 ^ 70 }
    requires small { IsSmall axis }
    requires holds { HoldsSegment axis segment.now }
    ensures { IfOk result (λ text. text.items ≡ segment_element axis corner.0 corner.1 segment.now) }
{
    span_element(alloc, axis, corner, segment.tone, segment_span(segment))
}

// What is drawn from one number to another, in a row with this corner on the axis.
#[tactic(auto, using(crate::proofs::Placing::placing))]
fn span_element(
    alloc: Global,
    axis: Axis,
    corner: (u128, u128),
    tone: Tone,
    span: Option<Span>,
) -> Result<Vec<u8>, Memory>
    requires top { corner.0 ≤ 2 ^ 81 }
    requires left { corner.1 ≤ 2 ^ 70 }
    requires small { IsSmall axis }
    requires holds { HoldsSpan axis span }
    ensures { IfOk result (λ text. text.items ≡ span_element axis corner.0 corner.1 tone span) }
{
    let Some(span) = span else {
        return Ok(Vec::new(alloc));
    };
    let low = place_of(axis, LAST_PIXEL, span.low);
    let high = place_of(axis, LAST_PIXEL, span.high);
    let width = (high - low) as u128 + 1;
    segment(alloc, corner.1 + low as u128, corner.0 + 4, width, tone)
}
