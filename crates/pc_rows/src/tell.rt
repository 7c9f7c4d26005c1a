ghost use Rattle.std.specs.Prelude.{◌≡◌, ◌<◌, ◌^◌, length, IfOk};
ghost use Rattle.csv.specs.Reading.{default_config, records, strip_bom};
ghost use Rattle.pc_model.specs.WellFormed.{HaveFewNames};
ghost use Rattle.pc_rows.specs.RowFile.{rows_of};
ghost use Rattle.pc_rows.specs.Told.{Tells, header_told, refused_in, told_from, told_of, told_under};

use crate::column::{ColumnReader, column_readers};
use crate::halt::{Halt, halt_field, names_halt, record_halt};
use crate::header::find_places;
use crate::read::MOST_ROWS;
use csv::ByteRecord;
use pc_list::Seq;
use pc_model::{Column, ReadStop, Schema, text_of};
use pc_num::Memory;
use pc_records::Table;
use std::alloc::Global;

/// Why a row file is refused.
#[derive(Debug, Drop)]
pub struct RowsTold {
    /// The first record that is refused, where the header is 1.
    pub place: u64,
    pub halt: Halt,
    /// The field at which its reader stopped, if it was one.
    pub field: Seq<u8>,
    /// How many of the records after it give no row.
    pub further: u64,
}

/// Why `read_rows` refuses a row file, or nothing where it reads it, and where its fault is of no record's.
#[tactic(auto, using(crate::proofs::Telling::tells))]
pub fn tell_rows(alloc: Global, schema: &Schema, bytes: &[u8]) -> Result<Option<RowsTold>, Memory>
    requires { HaveFewNames schema.now.columns }
    ensures value { IfOk result (λ told. told ≡ told_of schema.now bytes.now) }
    ensures tells { IfOk result (λ told. Tells told (rows_of schema.now bytes.now)) }
{
    tell_file(alloc, schema, bytes)
}

#[tactic(auto, unfolding(crate::specs::Told::told_of))]
fn tell_file(alloc: Global, schema: &Schema, bytes: &[u8]) -> Result<Option<RowsTold>, Memory>
    requires { HaveFewNames schema.now.columns }
    ensures { IfOk result (λ told. told ≡ told_of schema.now bytes.now) }
{
    match text_of(bytes) {
        Ok(text) => tell_table(alloc, schema.columns.as_slice(), text),
        Err(_) => Ok(None),
    }
}

// The header, and then the records.
#[tactic(auto, using(crate::proofs::Telling::few_left), unfolding(crate::specs::Told::told_under))]
fn tell_table(alloc: Global, columns: &[Column], text: &[u8]) -> Result<Option<RowsTold>, Memory>
    requires { HaveFewNames columns.now }
    ensures { IfOk result (λ told. told ≡ told_under columns.now (records default_config (strip_bom text.now))) }
{
    let mut table = Table::new(alloc, text);
    let mut header = ByteRecord::new(alloc);
    if !table.next(&mut header)? {
        return Ok(None);
    }
    match find_places(alloc, columns, &header) {
        Ok(places) => {
            let readers = column_readers(alloc, columns)?;
            tell_records(
                alloc,
                readers.as_slice(),
                places.as_slice(),
                header.len(),
                table,
            )
        }
        Err(ReadStop::Reason(_)) => Ok(header_told(alloc, names_halt(columns, &header))),
        Err(ReadStop::Memory) => Err(Memory),
    }
}

fn header_told(alloc: Global, halt: Option<Halt>) -> Option<RowsTold>
    ensures { result ≡ header_told halt }
{
    match halt {
        Some(halt) => Some(RowsTold {
            place: 1,
            halt,
            field: Seq::new(alloc),
            further: 0,
        }),
        None => None,
    }
}

#[tactic(auto, using(crate::proofs::Telling::steps))]
fn tell_records(
    alloc: Global,
    columns: &[ColumnReader<'_>],
    places: &[usize],
    width: usize,
    mut table: Table<'_>,
) -> Result<Option<RowsTold>, Memory>
    requires count { length places.now ≡ length columns.now }
    requires few { length table < 2 ^ 64 }
    ensures { IfOk result (λ told. told ≡ told_from columns.now places.now width 0 table.entry) }
{
    let mut fields = ByteRecord::new(alloc);
    let mut count = 0;
    while table.next(&mut fields)? {
        if MOST_ROWS <= count {
            return Ok(None);
        }
        if let Some(halt) = record_halt(columns, places, width, &fields) {
            return Ok(Some(RowsTold {
                place: count + 2,
                halt,
                field: halt_field(alloc, halt, &fields)?,
                further: refused_in(alloc, columns, places, width, table)?,
            }));
        }
        count += 1;
    }
    Ok(None)
}

// How many records that are left give no row.
#[tactic(auto, using(crate::proofs::Telling::counts))]
fn refused_in(
    alloc: Global,
    columns: &[ColumnReader<'_>],
    places: &[usize],
    width: usize,
    mut table: Table<'_>,
) -> Result<u64, Memory>
    requires count { length places.now ≡ length columns.now }
    requires few { length table < 2 ^ 64 }
    ensures { IfOk result (λ count. count ≡ refused_in columns.now places.now width table.entry) }
{
    let mut fields = ByteRecord::new(alloc);
    let mut count = 0;
    while table.next(&mut fields)? {
        if record_halt(columns, places, width, &fields).is_some() {
            count += 1;
        }
    }
    Ok(count)
}
