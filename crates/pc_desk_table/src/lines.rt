ghost use Rattle.std.specs.Prelude.{◌≡◌, ◌++◌, IfOk};
ghost use Rattle.std.specs.List.{flat_map};
ghost use Rattle.pc_desk_table.specs.Lines.{cell_in, entry_in, entry_text, lines_text, lines_with, title_in, titles_text};

use crate::columns::{Placed, cell, gap_after, is_right, layout, title};
use crate::entry::Entry;
use crate::padding::{with_padded, with_text};
use crate::remarks::with_remarks;
use pc_num::Memory;
use std::alloc::Global;
use unicode_width::UnicodeWidthStr;

/// What is shown, for reading: a line of titles, and a line for each entry, in their order.
#[tactic(auto, unfolding(crate::specs::Lines::lines_text))]
pub fn lines_of(alloc: Global, entries: &[Entry]) -> Result<Vec<u8>, Memory>
    ensures text { IfOk result (λ text. text.items ≡ lines_text entries.now) }
{
    let places = layout(alloc, entries)?;
    lines_with(alloc, places.as_slice(), entries)
}

#[tactic(auto, using(std::proofs::lemmas::List::flat_map_more))]
fn lines_with(alloc: Global, places: &[Placed], entries: &[Entry]) -> Result<Vec<u8>, Memory>
    ensures { IfOk result (λ text. text.items ≡ lines_with places.now entries.now) }
{
    let mut text = titles_text(alloc, places)?;
    for entry in entries {
        let line = entry_text(alloc, places, entry)?;
        text.extend_from_slice(line.as_slice())?;
    }
    Ok(text)
}

fn titles_text(alloc: Global, places: &[Placed]) -> Result<Vec<u8>, Memory>
    ensures { IfOk result (λ line. line.items ≡ titles_text places.now) }
{
    let line = titles(alloc, places)?;
    with_text(line, "\n")
}

#[tactic(auto, using(std::proofs::lemmas::List::flat_map_more))]
fn titles(alloc: Global, places: &[Placed]) -> Result<Vec<u8>, Memory>
    ensures { IfOk result (λ line. line.items ≡ flat_map title_in places.now) }
{
    let mut line = Vec::new(alloc);
    for place in places {
        line = with_cell(line, *place, title(place.column))?;
    }
    Ok(line)
}

fn entry_text(alloc: Global, places: &[Placed], entry: &Entry) -> Result<Vec<u8>, Memory>
    ensures { IfOk result (λ line. line.items ≡ entry_text places.now entry.now) }
{
    let line = cells(alloc, places, entry)?;
    let line = with_remarks(alloc, line, entry)?;
    with_text(line, "\n")
}

#[tactic(auto, using(std::proofs::lemmas::List::flat_map_more))]
fn cells(alloc: Global, places: &[Placed], entry: &Entry) -> Result<Vec<u8>, Memory>
    ensures { IfOk result (λ line. line.items ≡ flat_map (entry_in entry.now) places.now) }
{
    let mut line = Vec::new(alloc);
    for place in places {
        let cell = cell(alloc, place.column, entry)?;
        line = with_cell(line, *place, cell.as_str())?;
    }
    Ok(line)
}

fn with_cell(line: Vec<u8>, place: Placed, text: &str) -> Result<Vec<u8>, Memory>
    ensures { IfOk result (λ new. new.items ≡ line.items ++ cell_in place text.now) }
{
    let room = place.width.saturating_sub(text.width());
    let line = with_padded(line, is_right(place.column), room, text)?;
    with_text(line, gap_after(place.column))
}
