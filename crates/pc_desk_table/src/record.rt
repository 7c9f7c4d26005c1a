ghost use Rattle.std.specs.Prelude.{◌≡◌, ◌∷◌, map, IfOk};
ghost use Rattle.csv.specs.Writing.{default_writer, row_text};
ghost use Rattle.pc_desk_table.specs.Table.{answer_fields, record_text};

use crate::entry::Entry;
use crate::fields::{group_column, group_name, lack_field, line_text, observed_text};
use crate::names::{mark_text, said_text};
use csv::WriterBuilder;
use pc_num::Memory;
use std::alloc::Global;

/// The record of an entry, with the line of its question where the table has that column.
pub(crate) fn record_of(alloc: Global, lined: bool, entry: &Entry) -> Result<Vec<u8>, Memory>
    ensures { IfOk result (λ text. text.items ≡ record_text lined entry.now) }
{
    let fields = answer_fields(entry);
    if lined {
        let line = line_text(alloc, entry.line)?;
        return lined_text(alloc, line.as_bytes(), &fields);
    }
    text_of(alloc, &fields)
}

/// .. of these fields after another one.
pub(crate) fn lined_text<'x>(
    alloc: Global,
    line: &'x [u8],
    fields: &[&'x [u8]],
) -> Result<Vec<u8>, Memory>
    ensures { IfOk result (λ text. text.items
        ≡ row_text default_writer (line.now ∷ map (λ field. field.now) fields.now)) }
{
    let mut all = Vec::new(alloc);
    all.push(line)?;
    all.extend_from_slice(fields)?;
    text_of(alloc, all.as_slice())
}

fn answer_fields<'x>(entry: &'x Entry) -> [&'x [u8]; 13]
    ensures { map (λ field. field.now) result ≡ answer_fields entry.now }
{
    let empty = b"".as_slice();
    let query = entry.query.as_bytes();
    match &entry.range {
        Some(range) => [
            query,
            group_column(&entry.group).as_bytes(),
            group_name(&entry.group).as_bytes(),
            said_text(entry.relation).as_bytes(),
            lack_field(entry.lack).as_bytes(),
            observed_text(&entry.observed).as_bytes(),
            range.low.value.text.as_bytes(),
            mark_text(range.low.mark).as_bytes(),
            range.high.value.text.as_bytes(),
            mark_text(range.high.mark).as_bytes(),
            range.width.as_bytes(),
            range.low.value.decimal.as_bytes(),
            range.high.value.decimal.as_bytes(),
        ],
        None => [
            query,
            group_column(&entry.group).as_bytes(),
            group_name(&entry.group).as_bytes(),
            said_text(entry.relation).as_bytes(),
            lack_field(entry.lack).as_bytes(),
            observed_text(&entry.observed).as_bytes(),
            empty,
            empty,
            empty,
            empty,
            empty,
            empty,
            empty,
        ],
    }
}

/// The text of a record of these fields, with quotes where they call for it.
pub(crate) fn text_of(alloc: Global, fields: &[&[u8]]) -> Result<Vec<u8>, Memory>
    ensures { IfOk result (λ text. text.items
        ≡ row_text default_writer (map (λ field. field.now) fields.now)) }
{
    let mut writer = WriterBuilder::new().from_writer(Vec::new(alloc));
    if writer.write_fields(fields).is_err() {
        return Err(Memory);
    }
    match writer.into_inner() {
        Ok(text) => Ok(text),
        Err(_) => Err(Memory),
    }
}
