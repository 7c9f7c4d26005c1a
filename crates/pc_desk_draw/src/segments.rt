ghost use Rattle.std.specs.Prelude.{◌≡◌, IfSome};
ghost use Rattle.std.specs.List.{All};
ghost use Rattle.pc_desk_draw.specs.Axes.{IsSmall};
ghost use Rattle.pc_desk_draw.specs.Segments.{HoldsRow, bars_layout, between, rows_span};
ghost use Rattle.pc_desk_draw.specs.Segments.{segment_span, segments_span, text_width, widest_name, with_row};

use crate::layout::{Layout, axis_between};
use crate::numbers::drawn;
use crate::segment::{BarRow, Segment};
use crate::span::{Span, greater, hull, lesser};
use unicode_width::UnicodeWidthStr;

// From the lesser of two numbers to the greater.
fn between(from: Option<i128>, to: Option<i128>) -> Option<Span>
    ensures { result ≡ between from to }
{
    let from = from?;
    let to = to?;
    Some(Span {
        low: lesser(from, to),
        high: greater(from, to),
    })
}

/// What a segment spans, if both of its ends can be drawn.
pub(crate) fn segment_span(segment: &Segment) -> Option<Span>
    ensures { result ≡ segment_span segment.now }
{
    between(drawn(Some(segment.from)), drawn(Some(segment.to)))
}

#[tactic(auto, using(crate::proofs::Spanning::segment_steps))]
fn segments_span(segments: &[Segment]) -> Option<Span>
    ensures { result ≡ segments_span segments.now }
{
    let mut bounds = None;
    for segment in segments {
        bounds = hull(bounds, segment_span(segment));
    }
    bounds
}

// From the least number of a picture to the greatest.
#[tactic(auto, using(crate::proofs::Spanning::row_steps))]
fn rows_span(rows: &[BarRow]) -> Option<Span>
    ensures { result ≡ rows_span rows.now }
{
    let mut bounds = None;
    for row in rows {
        bounds = with_row(bounds, row);
    }
    bounds
}

fn with_row(bounds: Option<Span>, row: &BarRow) -> Option<Span>
    ensures { result ≡ with_row bounds row.now }
{
    hull(bounds, segments_span(row.segments.as_slice()))
}

/// How many columns a text takes.
pub(crate) fn text_width(text: &str) -> usize
    ensures { result ≡ text_width text.now }
{
    text.width()
}

#[tactic(auto, using(crate::proofs::Spanning::name_steps))]
fn widest_name(rows: &[BarRow]) -> usize
    ensures { result ≡ widest_name rows.now }
{
    let mut width = 0;
    for row in rows {
        width = text_width(row.name.as_str()).max(width);
    }
    width
}

/// What the rows of a picture of bars have in common.
#[tactic(auto, using(crate::proofs::Standing::held))]
pub(crate) fn bars_layout(rows: &[BarRow]) -> Layout
    ensures value { result ≡ bars_layout rows.now }
    ensures small { IfSome result.axis IsSmall }
    ensures holds { All (HoldsRow result.axis) rows.now }
{
    Layout {
        names: Some(widest_name(rows)),
        axis: axis_between(rows_span(rows)),
    }
}
