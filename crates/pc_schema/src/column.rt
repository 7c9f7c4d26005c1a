ghost use Rattle.std.specs.Prelude.{◌≡◌, ◌<◌, ◌≤◌, length, IfOk, OnOk};
ghost use Rattle.csv.specs.Records.{fields_of};
ghost use Rattle.pc_model.specs.Refusals.{Answers, Gives};
ghost use Rattle.pc_model.specs.WellFormed.{IsColumn};
ghost use Rattle.pc_schema.specs.SchemaFile.{column_at, column_of, is_taken, LackName};

use crate::kind::{read_kind, read_name};
use csv::ByteRecord;
use pc_model::{Column, FileKind, ReadStop, Reason, Refusal};
use pc_records::field;
use std::alloc::Global;

pub(crate) const MOST_COLUMNS: usize = 12;

/// The column of a record, after those of the records before it.
#[tactic(auto, unfolding(crate::specs::SchemaFile::column_at))]
pub(crate) fn next_column(
    alloc: Global,
    before: &[Column],
    row: &ByteRecord,
) -> Result<Column, Refusal>
    requires { length before.now ≤ 12 }
    ensures gives { Gives result (column_at before.now (fields_of row.now)) }
    ensures is_column { IfOk result IsColumn }
    ensures room { OnOk result (length before.now < 12) }
    ensures fresh { IfOk result (λ column. LackName column.name before.now) }
{
    match read_column(alloc, before, row) {
        Ok(column) => Ok(column),
        Err(stop) => Err(stop.at(FileKind::Schema, before.len() as u64 + 1)),
    }
}

#[tactic(auto, using(crate::proofs::Names::lacks_name), unfolding(crate::specs::SchemaFile::column_of))]
fn read_column(alloc: Global, before: &[Column], row: &ByteRecord) -> Result<Column, ReadStop>
    ensures answers { Answers result (column_of before.now (fields_of row.now)) }
    ensures is_column { IfOk result IsColumn }
    ensures room { OnOk result (length before.now < 12) }
    ensures fresh { IfOk result (λ column. LackName column.name before.now) }
{
    if MOST_COLUMNS <= before.len() {
        return Err(ReadStop::Reason(Reason::TooMany));
    }
    let text = field(row, 0);
    let name = read_name(alloc, text, is_taken(before, text))?;
    let kind = read_kind(alloc, row)?;
    Ok(Column { name, kind })
}

pub(crate) fn is_taken(columns: &[Column], name: &[u8]) -> bool
    ensures { result ≡ is_taken columns.now name.now }
{
    columns.iter().any(|column| name == column.name.as_bytes())
}
