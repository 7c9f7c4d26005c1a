ghost use Rattle.std.specs.Prelude.{◌≡◌, map, IfOk};
ghost use Rattle.csv.specs.Writing.{default_writer, row_text};
ghost use Rattle.pc_desk_table.specs.Table.{has_line, has_lines, header, names, table_text, table_with};

use crate::entry::Entry;
use crate::record::{lined_text, record_of, text_of};
use pc_num::Memory;
use std::alloc::Global;

/// The table of what is shown: a header, and a record for each entry, in their order.
#[tactic(auto, unfolding(crate::specs::Table::table_text))]
pub fn table_of(alloc: Global, entries: &[Entry]) -> Result<Vec<u8>, Memory>
    ensures text { IfOk result (λ text. text.items ≡ table_text entries.now) }
{
    table_with(alloc, has_lines(entries), entries)
}

#[tactic(auto, using(std::proofs::lemmas::List::flat_map_more))]
fn table_with(alloc: Global, lined: bool, entries: &[Entry]) -> Result<Vec<u8>, Memory>
    ensures { IfOk result (λ text. text.items ≡ table_with lined entries.now) }
{
    let mut text = header_text(alloc, lined)?;
    for entry in entries {
        let record = record_of(alloc, lined, entry)?;
        text.extend_from_slice(record.as_slice())?;
    }
    Ok(text)
}

/// Whether a first column tells the lines of questions.
pub(crate) fn has_lines(entries: &[Entry]) -> bool
    ensures { result ≡ has_lines entries.now }
{
    entries.iter().any(|entry| has_line(entry))
}

fn has_line(entry: &Entry) -> bool
    ensures { result ≡ has_line entry.now }
{
    entry.line.is_some()
}

fn header_text(alloc: Global, lined: bool) -> Result<Vec<u8>, Memory>
    ensures { IfOk result (λ text. text.items ≡ row_text default_writer (header lined)) }
{
    let names = names();
    if lined {
        return lined_text(alloc, b"line".as_slice(), &names);
    }
    text_of(alloc, &names)
}

fn names<'x>() -> [&'x [u8]; 13]
    ensures { map (λ name. name.now) result ≡ names }
{
    [
        b"query".as_slice(),
        b"group_column".as_slice(),
        b"group".as_slice(),
        b"relation".as_slice(),
        b"none".as_slice(),
        b"observed".as_slice(),
        b"low".as_slice(),
        b"low_mark".as_slice(),
        b"high".as_slice(),
        b"high_mark".as_slice(),
        b"width".as_slice(),
        b"low_decimal".as_slice(),
        b"high_decimal".as_slice(),
    ]
}
