ghost use Rattle.std.specs.Prelude.{◌≡◌, IfOk};
ghost use Rattle.pc_desk_table.specs.Sheets.{cell_shown, cell_text, sheet_column, is_ragged, sheet_columns, shown_at, text_or, title_cells, truth_text, widest_at, width_at};

use crate::sheet::{Cell, Title};
use pc_list::{Seq, Text};
use pc_num::Memory;
use std::alloc::Global;
use unicode_width::UnicodeWidthStr;

/// Where a column stands, from 0, at which side its texts are, and how wide it is.
#[derive(Clone, Copy, Debug)]
pub(crate) struct SheetColumn {
    pub(crate) place: usize,
    pub(crate) right: bool,
    pub(crate) width: usize,
}

/// The columns of these titles, over these rows.
#[tactic(auto, using(crate::proofs::Enumerated::steps))]
pub(crate) fn sheet_columns(
    alloc: Global,
    titles: &[Title],
    rows: &[Seq<Cell>],
) -> Result<Vec<SheetColumn>, Memory>
    ensures { IfOk result (λ columns. columns.items ≡ sheet_columns titles.now rows.now) }
{
    let mut columns = Vec::new(alloc);
    for (place, title) in titles.iter().enumerate() {
        let column = sheet_column(alloc, titles.len(), place, title, rows)?;
        columns.push(column)?;
    }
    Ok(columns)
}

fn sheet_column(
    alloc: Global,
    count: usize,
    place: usize,
    title: &Title,
    rows: &[Seq<Cell>],
) -> Result<SheetColumn, Memory>
    ensures { IfOk result (λ column. column ≡ sheet_column count rows.now (place, title.now)) }
{
    Ok(SheetColumn {
        place,
        right: title.right,
        width: width_at(alloc, count, place, title, rows)?,
    })
}

fn width_at(
    alloc: Global,
    count: usize,
    place: usize,
    title: &Title,
    rows: &[Seq<Cell>],
) -> Result<usize, Memory>
    ensures { IfOk result (λ width. width ≡ width_at count place title.now rows.now) }
{
    if is_ragged(count, place, title.right) {
        return Ok(0);
    }
    widest_at(alloc, place, title.name.as_str(), rows)
}

fn is_ragged(count: usize, place: usize, right: bool) -> bool
    ensures { result ≡ is_ragged count place right }
{
    !right && count.checked_sub(1) == Some(place)
}

#[tactic(auto, using(std::proofs::lemmas::List::Sums::fold_more))]
fn widest_at(alloc: Global, place: usize, name: &str, rows: &[Seq<Cell>]) -> Result<usize, Memory>
    ensures { IfOk result (λ width. width ≡ widest_at place name.now rows.now) }
{
    let mut width = name.width();
    for row in rows {
        let text = shown_at(alloc, row.as_slice(), place)?;
        width = width.max(text.as_str().width());
    }
    Ok(width)
}

/// What is shown of the cell at a place.
pub(crate) fn shown_at(alloc: Global, row: &[Cell], place: usize) -> Result<Text, Memory>
    ensures { IfOk result (λ text. text ≡ shown_at row.now place) }
{
    match row.get(place) {
        Some(cell) => text_or(alloc, "-", cell),
        None => text_or(alloc, "-", &Cell::Empty),
    }
}

/// The text of a cell in a table.
pub(crate) fn cell_text(alloc: Global, cell: &Cell) -> Result<Text, Memory>
    ensures { IfOk result (λ text. text ≡ cell_text cell.now) }
{
    text_or(alloc, "", cell)
}

fn text_or(alloc: Global, empty: &str, cell: &Cell) -> Result<Text, Memory>
    ensures { IfOk result (λ text. text ≡ text_or empty.now cell.now) }
{
    match cell {
        Cell::Empty => Ok(Text::from_text(alloc, empty)?),
        Cell::Word(text) => Ok(Text::from_text(alloc, text.as_str())?),
        Cell::Count(number) => Ok(Text::from_string(format!(in alloc; "{number}")?)),
        Cell::Truth(truth) => Ok(Text::from_text(alloc, truth_text(*truth))?),
    }
}

fn truth_text<'x>(truth: bool) -> &'x str
    ensures { result.now ≡ truth_text truth }
{
    if truth { "yes" } else { "no" }
}

/// The titles, as a row that stands before the others.
#[tactic(auto, using(std::proofs::lemmas::List::map_more))]
pub(crate) fn title_cells(alloc: Global, titles: &[Title]) -> Result<Vec<Cell>, Memory>
    ensures { IfOk result (λ cells. cells.items ≡ title_cells titles.now) }
{
    let mut cells = Vec::new(alloc);
    for title in titles {
        let name = Text::from_text(alloc, title.name.as_str())?;
        cells.push(Cell::Word(name))?;
    }
    Ok(cells)
}
