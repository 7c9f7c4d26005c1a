ghost use Rattle.std.specs.Prelude.{[], IfOk};
ghost use Rattle.csv.specs.Reading.{default_config, records, strip_bom};
ghost use Rattle.pc_model.specs.Refusals.{Gives};
ghost use Rattle.pc_model.specs.WellFormed.{AreColumns, IsWellFormed};
ghost use Rattle.pc_schema.specs.SchemaFile.{columns_from, schema_from, schema_of};

use crate::column::next_column;
use csv::ByteRecord;
use pc_list::Seq;
use pc_model::{Column, FileKind, ReadStop, Reason, Refusal, Schema, text_of};
use pc_records::Table;
use std::alloc::Global;

/// Reads a schema file, or tells its first fault: by the records in their order, and of a record by its parts.
#[tactic(auto, unfolding(crate::specs::SchemaFile::schema_of))]
pub fn read_schema(alloc: Global, bytes: &[u8]) -> Result<Schema, Refusal>
    ensures gives { Gives result (schema_of bytes.now) }
    ensures well_formed { IfOk result IsWellFormed }
{
    match text_of(bytes) {
        Ok(text) => schema_from(read_columns(alloc, text)?),
        Err(reason) => Err(ReadStop::Reason(reason).at(FileKind::Schema, 0)),
    }
}

fn schema_from(columns: Seq<Column>) -> Result<Schema, Refusal>
    requires { AreColumns columns }
    ensures gives { Gives result (schema_from columns) }
    ensures well_formed { IfOk result IsWellFormed }
{
    if columns.is_empty() {
        return Err(ReadStop::Reason(Reason::NoHeader).at(FileKind::Schema, 1));
    }
    Ok(Schema { columns })
}

// A record for each column.
#[tactic(auto, using(crate::proofs::Columns::steps))]
fn read_columns(alloc: Global, text: &[u8]) -> Result<Seq<Column>, Refusal>
    ensures gives { Gives result (columns_from [] (records default_config (strip_bom text.now))) }
    ensures are { IfOk result AreColumns }
{
    let mut table = Table::new(alloc, text);
    let mut row = ByteRecord::new(alloc);
    let mut columns = Seq::new(alloc);
    while table.next(&mut row)? {
        let column = next_column(alloc, columns.as_slice(), &row)?;
        columns.push(column).map_err(|_| Refusal::Memory)?;
    }
    Ok(columns)
}
