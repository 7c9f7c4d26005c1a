ghost use Rattle.std.specs.Prelude.{◌≡◌, ◌++◌, IfOk, IfSome, OnOk};
ghost use Rattle.std.specs.List.{flat_map};
ghost use Rattle.pc_desk_draw.specs.Axes.{IsSmall};
ghost use Rattle.pc_desk_draw.specs.Charts.{axis_lines, axis_text, chart_text, indent, legend, part_text};
ghost use Rattle.pc_desk_draw.specs.Questions.{pictures_of};

use crate::axis::Axis;
use crate::bar::put_repeated;
use crate::layout::{Layout, layout_of};
use crate::question::{first_picture, title_of};
use crate::rows::rows_text;
use crate::scale::{labelled, ruled};
use pc_desk_table::Entry;
use pc_num::Memory;
use std::alloc::Global;

/// Answers as a chart: a picture for the blocks of one question that stand one after the other, with an axis and a bar for
/// each block.
#[tactic(auto, using(crate::proofs::Parting::whole))]
pub fn chart_of(alloc: Global, entries: &[Entry]) -> Result<Vec<u8>, Memory>
    ensures text { IfOk result (λ text. text.items ≡ chart_text entries.now) }
{
    match entries {
        [] => Ok(Vec::new(alloc)),
        _ => with_legend(alloc, entries),
    }
}

fn with_legend(alloc: Global, entries: &[Entry]) -> Result<Vec<u8>, Memory>
    ensures { IfOk result (λ text. text.items ≡ flat_map part_text (pictures_of entries.now) ++ legend) }
{
    let mut text = parts_text(alloc, entries)?;
    text.extend_from_slice(b"[ ] exact   ( ) outer   | the rows that are left\n".as_slice())?;
    Ok(text)
}

#[tactic(auto, using(crate::proofs::Parting::steps))]
fn parts_text(alloc: Global, entries: &[Entry]) -> Result<Vec<u8>, Memory>
    ensures { IfOk result (λ text. text.items ≡ flat_map part_text (pictures_of entries.now)) }
{
    let mut text = Vec::new(alloc);
    let mut rest = entries;
    while let Some((picture, after)) = first_picture(rest) {
        let part = part_text(alloc, picture)?;
        text.extend_from_slice(part.as_slice())?;
        rest = after;
    }
    Ok(text)
}

// The question, the axis, a line for each block, and an empty one.
#[tactic(auto, unfolding(crate::specs::Charts::part_text))]
fn part_text(alloc: Global, entries: &[Entry]) -> Result<Vec<u8>, Memory>
    ensures { IfOk result (λ text. text.items ≡ part_text entries.now) }
{
    let layout = layout_of(entries);
    let mut text = title_of(alloc, entries)?;
    text.push(b'\n')?;
    let axis = axis_text(alloc, layout)?;
    text.extend_from_slice(axis.as_slice())?;
    let rows = rows_text(alloc, layout, entries)?;
    text.extend_from_slice(rows.as_slice())?;
    text.push(b'\n')?;
    Ok(text)
}

fn axis_text(alloc: Global, layout: Layout) -> Result<Vec<u8>, Memory>
    requires { IfSome layout.axis IsSmall }
    ensures { IfOk result (λ text. text.items ≡ axis_text layout layout.axis) }
{
    match layout.axis {
        Some(axis) => axis_lines(alloc, layout.names, axis),
        None => Ok(Vec::new(alloc)),
    }
}

// The numbers of the ticks, and the axis below them.
#[tactic(auto, unfolding(crate::specs::Charts::axis_lines))]
fn axis_lines(alloc: Global, names: Option<usize>, axis: Axis) -> Result<Vec<u8>, Memory>
    requires { IsSmall axis }
    ensures { IfOk result (λ text. text.items ≡ axis_lines names axis) }
{
    let mut text = Vec::new(alloc);
    put_indent(&mut text, names)?;
    let labels = labelled(alloc, axis, axis.steps + 1)?;
    text.extend_from_slice(labels.as_slice())?;
    text.push(b'\n')?;
    put_indent(&mut text, names)?;
    let ticks = ruled(alloc, axis, axis.steps + 1)?;
    text.extend_from_slice(ticks.as_slice())?;
    text.push(b'\n')?;
    Ok(text)
}

// How far the axis begins to the right.
fn put_indent(out: &mut Vec<u8>, names: Option<usize>) -> Result<(), Memory>
    ensures { OnOk result (out.new.items ≡ out.old.items ++ indent names) }
{
    match names {
        Some(width) => {
            put_repeated(out, b' ', width)?;
            put_repeated(out, b' ', 5)
        }
        None => put_repeated(out, b' ', 3),
    }
}
