//! The texts of a sheet.
ghost use Rattle.std.specs.Prelude.{◌≡◌, ◌++◌, map, Some, IfOk};
ghost use Rattle.std.specs.List.{flat_map};
ghost use Rattle.serde_json.specs.Read.{read};
ghost use Rattle.serde_json.specs.View.{view};
ghost use Rattle.pc_desk_table.specs.Sheets.{cell_data, cell_at, gap_before, sheet_row_data, row_fields, sheet_data, sheet_json, sheet_line, sheet_lines, sheet_lines_by, sheet_row, sheet_table, shown_in, text_in};

use crate::members::with_value;
use crate::padding::{with_padded, with_text};
use crate::record::text_of;
use crate::sheet::{Cell, Sheet, Title};
use crate::sheet_columns::{SheetColumn, cell_text, sheet_columns, shown_at, title_cells};
use pc_list::{Seq, Text};
use pc_num::Memory;
use serde_json::{Map, Value};
use std::alloc::Global;
use unicode_width::UnicodeWidthStr;

/// A sheet as comma-separated values: its titles, and a row for each of its rows.
#[tactic(auto, using(std::proofs::lemmas::List::flat_map_more), unfolding(crate::specs::Sheets::sheet_table))]
pub fn sheet_table(alloc: Global, sheet: &Sheet) -> Result<Vec<u8>, Memory>
    ensures text { IfOk result (λ text. text.items ≡ sheet_table sheet.now) }
{
    let titles = title_cells(alloc, sheet.titles.as_slice())?;
    let mut text = sheet_row(alloc, titles.as_slice())?;
    let rows = sheet.rows.as_slice();
    for row in rows {
        let line = sheet_row(alloc, row.as_slice())?;
        text.extend_from_slice(line.as_slice())?;
    }
    Ok(text)
}

fn sheet_row(alloc: Global, row: &[Cell]) -> Result<Vec<u8>, Memory>
    ensures { IfOk result (λ text. text.items ≡ sheet_row row.now) }
{
    let texts = row_fields(alloc, row)?;
    let fields = slices_of(alloc, texts.as_slice())?;
    text_of(alloc, fields.as_slice())
}

#[tactic(auto, using(std::proofs::lemmas::List::map_more))]
fn row_fields(alloc: Global, row: &[Cell]) -> Result<Vec<Text>, Memory>
    ensures { IfOk result (λ texts. texts.items ≡ row_fields row.now) }
{
    let mut texts = Vec::new(alloc);
    for cell in row {
        texts.push(cell_text(alloc, cell)?)?;
    }
    Ok(texts)
}

#[tactic(auto, using(std::proofs::lemmas::List::map_more))]
fn slices_of<'x>(alloc: Global, texts: &'x [Text]) -> Result<Vec<&'x [u8]>, Memory>
    ensures { IfOk result (λ slices. map (λ slice. slice.now) slices.items ≡ texts.now) }
{
    let mut slices = Vec::new(alloc);
    for text in texts {
        slices.push(text.as_bytes())?;
    }
    Ok(slices)
}

/// A sheet for reading: a line of titles, and a line for each row, with columns aligned.
#[tactic(auto, unfolding(crate::specs::Sheets::sheet_lines))]
pub fn sheet_lines(alloc: Global, sheet: &Sheet) -> Result<Vec<u8>, Memory>
    ensures text { IfOk result (λ text. text.items ≡ sheet_lines sheet.now) }
{
    let columns = sheet_columns(alloc, sheet.titles.as_slice(), sheet.rows.as_slice())?;
    sheet_lines_by(alloc, columns.as_slice(), sheet)
}

#[tactic(auto, using(std::proofs::lemmas::List::flat_map_more))]
fn sheet_lines_by(alloc: Global, columns: &[SheetColumn], sheet: &Sheet) -> Result<Vec<u8>, Memory>
    ensures { IfOk result (λ text. text.items ≡ sheet_lines_by columns.now sheet.now) }
{
    let titles = title_cells(alloc, sheet.titles.as_slice())?;
    let mut text = sheet_line(alloc, columns, titles.as_slice())?;
    let rows = sheet.rows.as_slice();
    for row in rows {
        let line = sheet_line(alloc, columns, row.as_slice())?;
        text.extend_from_slice(line.as_slice())?;
    }
    Ok(text)
}

fn sheet_line(alloc: Global, columns: &[SheetColumn], row: &[Cell]) -> Result<Vec<u8>, Memory>
    ensures { IfOk result (λ line. line.items ≡ sheet_line columns.now row.now) }
{
    let line = shown_cells(alloc, columns, row)?;
    with_text(line, "\n")
}

#[tactic(auto, using(std::proofs::lemmas::List::flat_map_more))]
fn shown_cells(alloc: Global, columns: &[SheetColumn], row: &[Cell]) -> Result<Vec<u8>, Memory>
    ensures { IfOk result (λ line. line.items ≡ flat_map (shown_in row.now) columns.now) }
{
    let mut line = Vec::new(alloc);
    for column in columns {
        let text = shown_at(alloc, row, column.place)?;
        line = with_shown(line, *column, text.as_str())?;
    }
    Ok(line)
}

fn with_shown(line: Vec<u8>, column: SheetColumn, text: &str) -> Result<Vec<u8>, Memory>
    ensures { IfOk result (λ new. new.items ≡ line.items ++ text_in column text.now) }
{
    let room = column.width.saturating_sub(text.width());
    let line = with_text(line, gap_before(column.place))?;
    with_padded(line, column.right, room, text)
}

fn gap_before<'x>(place: usize) -> &'x str
    ensures { result.now ≡ gap_before place }
{
    if place == 0 { "" } else { "  " }
}

/// A sheet as JSON on one line: an array with an object for each row.
pub fn sheet_json(alloc: Global, sheet: &Sheet) -> Result<Vec<u8>, Memory>
    ensures text { IfOk result (λ text. text.items ≡ sheet_json sheet.now) }
    ensures reads_back { IfOk result (λ text. read text.items ≡ Some (sheet_data sheet.now)) }
{
    let data = sheet_data(alloc, sheet)?;
    let mut text = data.to_vec(alloc)?;
    text.push(b'\n')?;
    Ok(text)
}

#[tactic(auto, using(std::proofs::lemmas::List::map_more), unfolding(crate::specs::Sheets::sheet_data))]
fn sheet_data(alloc: Global, sheet: &Sheet) -> Result<Value, Memory>
    ensures { IfOk result (λ value. view value ≡ sheet_data sheet.now) }
{
    let mut values = Vec::new(alloc);
    let titles = sheet.titles.as_slice();
    let rows = sheet.rows.as_slice();
    for row in rows {
        let value = sheet_row_data(alloc, titles, row.as_slice())?;
        values.push(value)?;
    }
    Ok(Value::Array(values))
}

#[tactic(auto, using(crate::proofs::Enumerated::steps))]
fn sheet_row_data(alloc: Global, titles: &[Title], row: &[Cell]) -> Result<Value, Memory>
    ensures { IfOk result (λ value. view value ≡ sheet_row_data titles.now row.now) }
{
    let mut members = Map::new(alloc);
    for (place, title) in titles.iter().enumerate() {
        let value = data_at(alloc, row, place)?;
        members = with_value(alloc, members, title.name.as_str(), value)?;
    }
    Ok(Value::Object(members))
}

fn data_at(alloc: Global, row: &[Cell], place: usize) -> Result<Value, Memory>
    ensures { IfOk result (λ value. view value ≡ cell_data (cell_at row.now place)) }
{
    match row.get(place) {
        Some(cell) => cell_data(alloc, cell),
        None => Ok(Value::Null),
    }
}

fn cell_data(alloc: Global, cell: &Cell) -> Result<Value, Memory>
    ensures { IfOk result (λ value. view value ≡ cell_data cell.now) }
{
    match cell {
        Cell::Empty => Ok(Value::Null),
        Cell::Word(text) => Ok(Value::try_from_str(alloc, text.as_str())?),
        Cell::Count(number) => Ok(Value::from(*number)),
        Cell::Truth(truth) => Ok(Value::Bool(*truth)),
    }
}
