//! What the tones of a picture of bars stand for.
ghost use Rattle.std.specs.Prelude.{◌≡◌, ◌≤◌, ◌^◌, IfOk};
ghost use Rattle.pc_desk_draw.specs.Legends.{legend_of_tones, legend_width, pale_entry, tone_entry, with_legend};

use crate::elements::{Style, segment, text_element};
use crate::segment::{Legend, Tone};
use crate::size::Size;
use pc_list::Text;
use pc_num::Memory;
use std::alloc::Global;

/// A size with room for the legend.
pub(crate) fn with_legend(legend: &Legend, size: Size) -> Size
    ensures value { result ≡ with_legend legend.now size }
    ensures high { result.height ≡ size.height }
{
    Size {
        width: size.width.max(legend_width(&legend.pale)),
        height: size.height,
    }
}

fn legend_width(pale: &Option<Text>) -> u128
    ensures { result ≡ legend_width pale.now }
{
    match pale {
        Some(_) => 640,
        None => 360,
    }
}

/// What is what, at the bottom.
#[tactic(auto, unfolding(crate::specs::Legends::legend_of_tones))]
pub(crate) fn legend_of_tones(alloc: Global, top: u128, legend: &Legend) -> Result<Vec<u8>, Memory>
    requires { top ≤ 2 ^ 81 }
    ensures { IfOk result (λ text. text.items ≡ legend_of_tones top legend.now) }
{
    let mut text = tone_entry(alloc, 16, top, Tone::Grey, &legend.grey)?;
    let blue = tone_entry(alloc, 228, top, Tone::Blue, &legend.blue)?;
    text.extend_from_slice(blue.as_slice())?;
    let pale = pale_entry(alloc, top, &legend.pale)?;
    text.extend_from_slice(pale.as_slice())?;
    Ok(text)
}

fn pale_entry(alloc: Global, top: u128, pale: &Option<Text>) -> Result<Vec<u8>, Memory>
    requires { top ≤ 2 ^ 81 }
    ensures { IfOk result (λ text. text.items ≡ pale_entry top pale.now) }
{
    match pale {
        Some(words) => tone_entry(alloc, 400, top, Tone::Pale, words),
        None => Ok(Vec::new(alloc)),
    }
}

// A piece of the tone, and right of it the text.
#[tactic(auto, unfolding(crate::specs::Legends::tone_entry))]
fn tone_entry(
    alloc: Global,
    left: u128,
    top: u128,
    tone: Tone,
    words: &Text,
) -> Result<Vec<u8>, Memory>
    requires left { left ≤ 2 ^ 81 }
    requires top { top ≤ 2 ^ 81 }
    ensures { IfOk result (λ text. text.items ≡ tone_entry left top tone words.now) }
{
    let mut text = segment(alloc, left, top + 4, 14, tone)?;
    let words = text_element(alloc, left + 20, top + 15, Style::Grey, words.as_bytes())?;
    text.extend_from_slice(words.as_slice())?;
    Ok(text)
}
