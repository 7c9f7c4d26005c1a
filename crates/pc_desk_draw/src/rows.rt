ghost use Rattle.std.specs.Prelude.{◌≡◌, IfOk, IfSome};
ghost use Rattle.std.specs.List.{All, flat_map};
ghost use Rattle.pc_desk_draw.specs.Axes.{IsSmall};
ghost use Rattle.pc_desk_draw.specs.Places.{Holds};
ghost use Rattle.pc_desk_draw.specs.Rows.{bar_text, name_text, row_text};

use crate::axis::Axis;
use crate::bar::{LAST_PLACE, put_cells, put_repeated};
use crate::layout::Layout;
use crate::names::{name_of, name_width};
use crate::place::drawing_of;
use crate::texts::answer_text;
use pc_desk_table::{Entry, Group};
use pc_num::Memory;
use std::alloc::Global;

/// The lines of the blocks of a picture.
#[tactic(auto, using(std::proofs::lemmas::List::flat_map_more))]
pub(crate) fn rows_text(alloc: Global, layout: Layout, entries: &[Entry]) -> Result<Vec<u8>, Memory>
    requires small { IfSome layout.axis IsSmall }
    requires holds { All (Holds layout.axis) entries.now }
    ensures { IfOk result (λ text. text.items ≡ flat_map (row_text layout) entries.now) }
{
    let mut text = Vec::new(alloc);
    for entry in entries {
        let row = row_text(alloc, layout, entry)?;
        text.extend_from_slice(row.as_slice())?;
    }
    Ok(text)
}

#[tactic(auto, unfolding(crate::specs::Rows::row_text))]
fn row_text(alloc: Global, layout: Layout, entry: &Entry) -> Result<Vec<u8>, Memory>
    requires small { IfSome layout.axis IsSmall }
    requires holds { Holds layout.axis entry.now }
    ensures { IfOk result (λ text. text.items ≡ row_text layout entry.now) }
{
    let mut text = Vec::from_slice(alloc, b"  ".as_slice())?;
    let name = name_text(alloc, layout.names, &entry.group)?;
    text.extend_from_slice(name.as_slice())?;
    let bar = bar_text(alloc, layout.axis, entry)?;
    text.extend_from_slice(bar.as_slice())?;
    let answer = answer_text(alloc, entry)?;
    text.extend_from_slice(answer.as_slice())?;
    text.push(b'\n')?;
    Ok(text)
}

// The name of a group with spaces after it, where the picture has names.
fn name_text(alloc: Global, names: Option<usize>, group: &Option<Group>) -> Result<Vec<u8>, Memory>
    ensures { IfOk result (λ text. text.items ≡ name_text names group.now) }
{
    let Some(width) = names else {
        return Ok(Vec::new(alloc));
    };
    let mut text = Vec::from_slice(alloc, name_of(group).as_bytes())?;
    put_repeated(&mut text, b' ', width.saturating_sub(name_width(group)))?;
    text.extend_from_slice(b"  ".as_slice())?;
    Ok(text)
}

fn bar_text(alloc: Global, axis: Option<Axis>, entry: &Entry) -> Result<Vec<u8>, Memory>
    requires small { IfSome axis IsSmall }
    requires holds { Holds axis entry.now }
    ensures { IfOk result (λ text. text.items ≡ bar_text axis entry.now) }
{
    let Some(axis) = axis else {
        return Ok(Vec::new(alloc));
    };
    let mut text = Vec::new(alloc);
    put_cells(&mut text, drawing_of(axis, LAST_PLACE, entry), 63)?;
    text.extend_from_slice(b"  ".as_slice())?;
    Ok(text)
}
