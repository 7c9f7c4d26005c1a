ghost use Rattle.std.specs.Prelude.{◌≡◌, IfOk};
ghost use Rattle.pc_desk_draw.specs.Elements.{bar, circle, grid_line, observed_line, segment, segment_start, stroke, style_text, text_element, text_start, tone_text};

use crate::escape::{put, put_escaped};
use crate::segment::Tone;
use pc_num::Memory;
use std::alloc::Global;

/// How a text looks.
#[derive(Clone, Copy)]
pub(crate) enum Style {
    Plain,
    Bold,
    Grey,
}

/// A text whose left end and base line are here.
#[tactic(auto, unfolding(crate::specs::Elements::text_element))]
pub(crate) fn text_element(
    alloc: Global,
    x: u128,
    y: u128,
    style: Style,
    content: &[u8],
) -> Result<Vec<u8>, Memory>
    ensures { IfOk result (λ text. text.items ≡ text_element x y style content.now) }
{
    let mut text = text_start(alloc, x, y)?;
    put(&mut text, style_text(style))?;
    put_escaped(&mut text, content)?;
    put(&mut text, b"</text>\n".as_slice())?;
    Ok(text)
}

#[tactic(auto, unfolding(crate::specs::Elements::text_start))]
fn text_start(alloc: Global, x: u128, y: u128) -> Result<Vec<u8>, Memory>
    ensures { IfOk result (λ text. text.items ≡ text_start x y) }
{
    let text = format!(in alloc; "<text x=\"{x}\" y=\"{y}\" xml:space=\"preserve\"")?;
    Ok(text.into_bytes())
}

fn style_text<'x>(style: Style) -> &'x [u8]
    ensures { result.now ≡ style_text style }
{
    match style {
        Style::Plain => b">".as_slice(),
        Style::Bold => b" font-weight=\"bold\">".as_slice(),
        Style::Grey => b" fill=\"#777\">".as_slice(),
    }
}

/// A thin line down all rows, at a tick.
#[tactic(auto, unfolding(crate::specs::Elements::grid_line))]
pub(crate) fn grid_line(alloc: Global, x: u128, y: u128, height: u128) -> Result<Vec<u8>, Memory>
    ensures { IfOk result (λ text. text.items ≡ grid_line x y height) }
{
    let text = format!(in alloc;
        "<rect x=\"{x}\" y=\"{y}\" width=\"1\" height=\"{height}\" fill=\"#ddd\"/>\n"
    )?;
    Ok(text.into_bytes())
}

/// The bar of a range.
#[tactic(auto, unfolding(crate::specs::Elements::bar))]
pub(crate) fn bar(alloc: Global, x: u128, y: u128, width: u128) -> Result<Vec<u8>, Memory>
    ensures { IfOk result (λ text. text.items ≡ bar x y width) }
{
    let text = format!(in alloc;
        "<rect x=\"{x}\" y=\"{y}\" width=\"{width}\" height=\"6\" fill=\"#48c\"/>\n"
    )?;
    Ok(text.into_bytes())
}

/// The cap of an exact end.
#[tactic(auto, unfolding(crate::specs::Elements::stroke))]
pub(crate) fn stroke(alloc: Global, x: u128, y: u128) -> Result<Vec<u8>, Memory>
    ensures { IfOk result (λ text. text.items ≡ stroke x y) }
{
    let text = format!(in alloc;
        "<rect x=\"{x}\" y=\"{y}\" width=\"2\" height=\"14\" fill=\"#036\"/>\n"
    )?;
    Ok(text.into_bytes())
}

/// The cap of an outer end.
#[tactic(auto, unfolding(crate::specs::Elements::circle))]
pub(crate) fn circle(alloc: Global, x: u128, y: u128) -> Result<Vec<u8>, Memory>
    ensures { IfOk result (λ text. text.items ≡ circle x y) }
{
    let text = format!(in alloc;
        "<circle cx=\"{x}\" cy=\"{y}\" r=\"4\" fill=\"white\" stroke=\"#036\"/>\n"
    )?;
    Ok(text.into_bytes())
}

/// What the rows that are left come to.
#[tactic(auto, unfolding(crate::specs::Elements::observed_line))]
pub(crate) fn observed_line(alloc: Global, x: u128, y: u128) -> Result<Vec<u8>, Memory>
    ensures { IfOk result (λ text. text.items ≡ observed_line x y) }
{
    let text = format!(in alloc;
        "<rect x=\"{x}\" y=\"{y}\" width=\"2\" height=\"20\" fill=\"#d30\"/>\n"
    )?;
    Ok(text.into_bytes())
}

/// A segment of a bar.
#[tactic(auto, unfolding(crate::specs::Elements::segment))]
pub(crate) fn segment(
    alloc: Global,
    x: u128,
    y: u128,
    width: u128,
    tone: Tone,
) -> Result<Vec<u8>, Memory>
    ensures { IfOk result (λ text. text.items ≡ segment x y width tone) }
{
    let mut text = segment_start(alloc, x, y, width)?;
    put(&mut text, tone_text(tone))?;
    Ok(text)
}

#[tactic(auto, unfolding(crate::specs::Elements::segment_start))]
fn segment_start(alloc: Global, x: u128, y: u128, width: u128) -> Result<Vec<u8>, Memory>
    ensures { IfOk result (λ text. text.items ≡ segment_start x y width) }
{
    let text = format!(in alloc;
        "<rect x=\"{x}\" y=\"{y}\" width=\"{width}\" height=\"14\" fill=\""
    )?;
    Ok(text.into_bytes())
}

fn tone_text<'x>(tone: Tone) -> &'x [u8]
    ensures { result.now ≡ tone_text tone }
{
    match tone {
        Tone::Grey => b"#999\"/>\n".as_slice(),
        Tone::Blue => b"#48c\"/>\n".as_slice(),
        Tone::Pale => b"#8be\"/>\n".as_slice(),
    }
}
