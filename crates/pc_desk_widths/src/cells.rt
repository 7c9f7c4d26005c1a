//! The cells of a row.
ghost use Rattle.std.specs.Prelude.{◌≡◌, ◌≤◌, ◌++◌, ◌∷◌, [], IfOk, option_copied};
ghost use Rattle.pc_desk_widths.specs.Shown.{change_cell, entry_cells, front_cells, group_cell, name_cell, range_cells, wider_cell, width_cell, word_cells};

use crate::ranges::{ends_of, mark_text, word_for};
use crate::texts::{change_text, wider_text};
use pc_desk_table::{Cell, Entry, Group, Range};
use pc_desk_weigh::Change;
use pc_list::Text;
use pc_model::Constraint;
use pc_num::Memory;
use std::alloc::Global;

/// The change, and the group where groups have a column.
pub(crate) fn front_cells(
    alloc: Global,
    grouped: bool,
    change: Cell,
    group: Cell,
) -> Result<Vec<Cell>, Memory>
    ensures { IfOk result (λ cells. cells.items ≡ front_cells grouped change group) }
{
    let mut cells = Vec::new(alloc);
    cells.push(change)?;
    if grouped {
        cells.push(group)?;
    }
    Ok(cells)
}

pub(crate) fn change_cell(
    alloc: Global,
    constraints: &[Constraint],
    change: Option<Change>,
) -> Result<Cell, Memory>
    ensures { IfOk result (λ cell. cell ≡ change_cell constraints.now change) }
{
    match change {
        None => Ok(Cell::Empty),
        Some(change) => Ok(Cell::Word(change_text(alloc, constraints, change)?)),
    }
}

pub(crate) fn group_cell(alloc: Global, entry: Option<&Entry>) -> Result<Cell, Memory>
    ensures { IfOk result (λ cell. cell ≡ group_cell (option_copied entry.entry)) }
{
    match entry {
        None => Ok(Cell::Empty),
        Some(entry) => name_cell(alloc, &entry.group),
    }
}

fn name_cell(alloc: Global, group: &Option<Group>) -> Result<Cell, Memory>
    ensures { IfOk result (λ cell. cell ≡ name_cell group.now) }
{
    match group {
        None => Ok(Cell::Empty),
        Some(group) => Ok(Cell::Word(Text::from_text(alloc, group.name.as_str())?)),
    }
}

/// The ends of a block's range, what is known of each, and its width; or why it has none.
pub(crate) fn entry_cells(alloc: Global, entry: Option<&Entry>) -> Result<Vec<Cell>, Memory>
    ensures { IfOk result (λ cells. cells.items ≡ entry_cells (option_copied entry.entry)) }
{
    match entry {
        None => word_cells(alloc, Cell::Empty),
        Some(entry) => cells_for(alloc, entry),
    }
}

fn cells_for(alloc: Global, entry: &Entry) -> Result<Vec<Cell>, Memory>
    ensures { IfOk result (λ cells. cells.items ≡ entry_cells (Some entry.now)) }
{
    match ends_of(entry) {
        Some(range) => range_cells(alloc, range),
        None => {
            let word = Text::from_text(alloc, word_for(entry.relation, entry.lack))?;
            word_cells(alloc, Cell::Word(word))
        }
    }
}

fn range_cells(alloc: Global, range: &Range) -> Result<Vec<Cell>, Memory>
    ensures { IfOk result (λ cells. cells.items ≡ range_cells range.now) }
{
    let cells = vec![in alloc;
        Cell::Word(Text::from_text(alloc, range.low.value.decimal.as_str())?),
        Cell::Word(Text::from_text(alloc, mark_text(range.low.mark))?),
        Cell::Word(Text::from_text(alloc, range.high.value.decimal.as_str())?),
        Cell::Word(Text::from_text(alloc, mark_text(range.high.mark))?),
        width_cell(alloc, range.width.as_str())?,
    ]?;
    Ok(cells)
}

fn word_cells(alloc: Global, word: Cell) -> Result<Vec<Cell>, Memory>
    ensures { IfOk result (λ cells. cells.items ≡ word_cells word) }
{
    let cells = vec![in alloc; Cell::Empty, word, Cell::Empty, Cell::Empty, Cell::Empty]?;
    Ok(cells)
}

fn width_cell(alloc: Global, width: &str) -> Result<Cell, Memory>
    ensures { IfOk result (λ cell. cell ≡ width_cell width.now) }
{
    if width.is_empty() {
        return Ok(Cell::Empty);
    }
    Ok(Cell::Word(Text::from_text(alloc, width)?))
}

pub(crate) fn wider_cell(alloc: Global, places: u8, wider: Option<i128>) -> Result<Cell, Memory>
    requires places { places ≤ 6 }
    ensures { IfOk result (λ cell. cell ≡ wider_cell places wider) }
{
    match wider {
        None => Ok(Cell::Empty),
        Some(wider) => Ok(Cell::Word(wider_text(alloc, places, wider)?)),
    }
}
