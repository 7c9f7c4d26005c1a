ghost use Rattle.std.specs.Prelude.{◌≡◌, IfOk};
ghost use Rattle.pc_desk_table.specs.Lines.{cell, columns, gap_after, has_group, has_groups, high_text, is_right, layout, layout_with, left_text, low_text, title, widest};
ghost use Rattle.pc_desk_table.specs.Remarks.{ends_of};

use crate::entry::{Entry, Value};
use crate::fields::{group_name, line_text};
use crate::remarks::{ends_of, high_decimal};
use crate::table::has_lines;
use pc_list::Text;
use pc_num::Memory;
use std::alloc::Global;
use unicode_width::UnicodeWidthStr;

/// What a column of the lines for reading holds.
#[derive(Clone, Copy)]
pub(crate) enum Column {
    Line,
    Query,
    Group,
    Left,
    Low,
    High,
}

/// A column, and how wide it is.
#[derive(Clone, Copy)]
pub(crate) struct Placed {
    pub(crate) column: Column,
    pub(crate) width: usize,
}

/// The columns of these entries.
pub(crate) fn layout(alloc: Global, entries: &[Entry]) -> Result<Vec<Placed>, Memory>
    ensures { IfOk result (λ places. places.items ≡ layout entries.now) }
{
    let columns = columns(alloc, has_lines(entries), has_groups(entries))?;
    layout_with(alloc, entries, columns.as_slice())
}

fn columns(alloc: Global, lined: bool, grouped: bool) -> Result<Vec<Column>, Memory>
    ensures { IfOk result (λ found. found.items ≡ columns lined grouped) }
{
    use Column::*;
    let found = match (lined, grouped) {
        (true, true) => Vec::from_slice(alloc, &[Line, Query, Group, Left, Low, High])?,
        (true, false) => Vec::from_slice(alloc, &[Line, Query, Left, Low, High])?,
        (false, true) => Vec::from_slice(alloc, &[Query, Group, Left, Low, High])?,
        (false, false) => Vec::from_slice(alloc, &[Query, Left, Low, High])?,
    };
    Ok(found)
}

#[tactic(auto, using(std::proofs::lemmas::List::map_more))]
fn layout_with(alloc: Global, entries: &[Entry], columns: &[Column]) -> Result<Vec<Placed>, Memory>
    ensures { IfOk result (λ places. places.items ≡ layout_with entries.now columns.now) }
{
    let mut places = Vec::new(alloc);
    for column in columns {
        let width = widest(alloc, *column, entries)?;
        places.push(Placed {
            column: *column,
            width,
        })?;
    }
    Ok(places)
}

#[tactic(auto, using(std::proofs::lemmas::List::Sums::fold_more))]
fn widest(alloc: Global, column: Column, entries: &[Entry]) -> Result<usize, Memory>
    ensures { IfOk result (λ width. width ≡ widest column entries.now) }
{
    let mut width = title(column).width();
    for entry in entries {
        let cell = cell(alloc, column, entry)?;
        width = width.max(cell.as_str().width());
    }
    Ok(width)
}

fn has_groups(entries: &[Entry]) -> bool
    ensures { result ≡ has_groups entries.now }
{
    entries.iter().any(|entry| has_group(entry))
}

fn has_group(entry: &Entry) -> bool
    ensures { result ≡ has_group entry.now }
{
    entry.group.is_some()
}

pub(crate) fn title<'x>(column: Column) -> &'x str
    ensures { result.now ≡ title column }
{
    match column {
        Column::Line => "line",
        Column::Query => "query",
        Column::Group => "group",
        Column::Left => "left",
        Column::Low => "low",
        Column::High => "high",
    }
}

/// Whether a column has its texts at the right, as numbers have.
pub(crate) fn is_right(column: Column) -> bool
    ensures { result ≡ is_right column }
{
    match column {
        Column::Line => true,
        Column::Query => false,
        Column::Group => false,
        Column::Left => true,
        Column::Low => true,
        Column::High => true,
    }
}

pub(crate) fn gap_after<'x>(column: Column) -> &'x str
    ensures { result.now ≡ gap_after column }
{
    match column {
        Column::Line => "  ",
        Column::Query => "  ",
        Column::Group => "  ",
        Column::Left => "  ",
        Column::Low => "  ",
        Column::High => "",
    }
}

/// What stands in a column.
pub(crate) fn cell(alloc: Global, column: Column, entry: &Entry) -> Result<Text, Memory>
    ensures { IfOk result (λ text. text ≡ cell column entry.now) }
{
    match column {
        Column::Line => line_text(alloc, entry.line),
        Column::Query => copied(alloc, entry.query.as_str()),
        Column::Group => copied(alloc, group_name(&entry.group)),
        Column::Left => copied(alloc, left_text(&entry.observed)),
        Column::Low => copied(alloc, low_text(entry)),
        Column::High => copied(alloc, high_text(entry)),
    }
}

fn copied(alloc: Global, text: &str) -> Result<Text, Memory>
    ensures { IfOk result (λ copy. copy ≡ text.now) }
{
    Ok(Text::from_text(alloc, text)?)
}

fn left_text(observed: &Option<Value>) -> &str
    ensures { result.now ≡ left_text observed.now }
{
    match observed {
        Some(value) => value.decimal.as_str(),
        None => "-",
    }
}

fn low_text(entry: &Entry) -> &str
    ensures { result.now ≡ low_text (ends_of entry.now) }
{
    match ends_of(entry) {
        Some(range) => range.low.value.decimal.as_str(),
        None => "-",
    }
}

fn high_text(entry: &Entry) -> &str
    ensures { result.now ≡ high_text (ends_of entry.now) }
{
    match ends_of(entry) {
        Some(range) => high_decimal(range),
        None => "-",
    }
}
