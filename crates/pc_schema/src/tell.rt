ghost use Rattle.std.specs.Prelude.{◌≡◌, ◌≤◌, [], length, IfOk};
ghost use Rattle.csv.specs.Reading.{default_config, records, strip_bom};
ghost use Rattle.csv.specs.Records.{fields_of};
ghost use Rattle.pc_schema.specs.SchemaFile.{schema_of};
ghost use Rattle.pc_schema.specs.Told.{Tells, column_halt, record_told, told_from, told_of};

use crate::column::next_column;
use crate::halt::{Halt, column_halt, halt_field};
use csv::ByteRecord;
use pc_list::Seq;
use pc_model::{Column, Refusal, text_of};
use pc_num::Memory;
use pc_records::Table;
use std::alloc::Global;

/// Why a schema file is refused.
#[derive(Debug, Drop)]
pub struct SchemaTold {
    /// The first record that is refused, from 1.
    pub place: u64,
    pub halt: Halt,
    /// The field at which its reader stopped, if it was one.
    pub field: Seq<u8>,
}

/// Why `read_schema` refuses a schema file, or nothing where it reads it, and where its fault is of no record's.
#[tactic(auto, using(crate::proofs::Telling::tells))]
pub fn tell_schema(alloc: Global, bytes: &[u8]) -> Result<Option<SchemaTold>, Memory>
    ensures value { IfOk result (λ told. told ≡ told_of bytes.now) }
    ensures tells { IfOk result (λ told. Tells told (schema_of bytes.now)) }
{
    tell_file(alloc, bytes)
}

#[tactic(auto, unfolding(crate::specs::Told::told_of))]
fn tell_file(alloc: Global, bytes: &[u8]) -> Result<Option<SchemaTold>, Memory>
    ensures { IfOk result (λ told. told ≡ told_of bytes.now) }
{
    match text_of(bytes) {
        Ok(text) => tell_columns(alloc, text),
        Err(_) => Ok(None),
    }
}

#[tactic(auto, using(crate::proofs::Telling::steps))]
fn tell_columns(alloc: Global, text: &[u8]) -> Result<Option<SchemaTold>, Memory>
    ensures { IfOk result (λ told. told ≡ told_from [] (records default_config (strip_bom text.now))) }
{
    let mut table = Table::new(alloc, text);
    let mut row = ByteRecord::new(alloc);
    let mut columns = Seq::new(alloc);
    while table.next(&mut row)? {
        match next_column(alloc, columns.as_slice(), &row) {
            Ok(column) => columns.push(column)?,
            Err(Refusal::Fault(_)) => return tell_record(alloc, columns.as_slice(), &row),
            Err(Refusal::Memory) => return Err(Memory),
        }
    }
    Ok(None)
}

fn tell_record(
    alloc: Global,
    before: &[Column],
    row: &ByteRecord,
) -> Result<Option<SchemaTold>, Memory>
    requires { length before.now ≤ 12 }
    ensures { IfOk result (λ told. told ≡ record_told (length before.now) (fields_of row.now) (column_halt before.now (fields_of row.now))) }
{
    match column_halt(alloc, before, row)? {
        Some(halt) => Ok(Some(SchemaTold {
            place: before.len() as u64 + 1,
            halt,
            field: halt_field(alloc, halt, row)?,
        })),
        None => Ok(None),
    }
}
