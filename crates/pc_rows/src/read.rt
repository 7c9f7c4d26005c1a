ghost use Rattle.std.specs.Prelude.{◌≡◌, ◌<◌, ◌≤◌, [], length, IfOk, OnOk, All};
ghost use Rattle.std.specs.List.{AllPass};
ghost use Rattle.csv.specs.Reading.{default_config, records, strip_bom};
ghost use Rattle.csv.specs.Records.{fields_of};
ghost use Rattle.pc_model.specs.Membership.{in_domain};
ghost use Rattle.pc_model.specs.Refusals.{Answers, Gives};
ghost use Rattle.pc_model.specs.WellFormed.{HaveFewNames};
ghost use Rattle.pc_rows.specs.RowFile.{cells_at, cells_from, cells_of, rows_from, rows_of, rows_under};
ghost use Rattle.pc_rows.specs.Stored.{row_limit};

use crate::column::{ColumnReader, column_readers};
use crate::header::find_places;
use crate::rows::Rows;
use csv::ByteRecord;
use pc_list::Seq;
use pc_model::{Column, FileKind, ReadStop, Reason, Refusal, Schema, text_of};
use pc_records::{Table, field};
use std::alloc::Global;

pub(crate) const MOST_ROWS: u64 = 1_000_000;

/// Reads a row file, or tells its first fault: by the records in their order, and of a record by the columns.
#[tactic(auto, unfolding(crate::specs::RowFile::rows_of))]
pub fn read_rows(alloc: Global, schema: &Schema, bytes: &[u8]) -> Result<Rows, Refusal>
    requires { HaveFewNames schema.now.columns }
    ensures gives { Gives result (rows_of schema.now bytes.now) }
    ensures seen { IfOk result (AllPass (in_domain schema.now)) }
    ensures wide { IfOk result (λ rows. All (λ row. length row.cells ≡ length schema.now.columns) rows) }
{
    match text_of(bytes) {
        Ok(text) => read_table(alloc, schema.columns.as_slice(), text),
        Err(reason) => Err(ReadStop::Reason(reason).at(FileKind::Rows, 0)),
    }
}

// The header, and then the rows.
#[tactic(auto, unfolding(crate::specs::RowFile::rows_under))]
fn read_table(alloc: Global, columns: &[Column], text: &[u8]) -> Result<Rows, Refusal>
    requires { HaveFewNames columns.now }
    ensures gives { Gives result (rows_under columns.now (records default_config (strip_bom text.now))) }
    ensures wide { IfOk result (λ rows. All (λ row. length row.cells ≡ length columns.now) rows) }
{
    let mut table = Table::new(alloc, text);
    let mut record = ByteRecord::new(alloc);
    if !table.next(&mut record)? {
        return Err(ReadStop::Reason(Reason::NoHeader).at(FileKind::Rows, 1));
    }
    let width = record.len();
    match find_places(alloc, columns, &record) {
        Ok(places) => {
            let readers = column_readers(alloc, columns)?;
            read_records(
                alloc,
                readers.as_slice(),
                places.as_slice(),
                width,
                Rows::for_columns(alloc, columns),
                table,
                record,
            )
        }
        Err(stop) => Err(stop.at(FileKind::Rows, 1)),
    }
}

// One record and one list of numbers serve all rows, so that no row takes memory but for its numbers.
#[tactic(auto, using(crate::proofs::Reading::steps))]
fn read_records(
    alloc: Global,
    columns: &[ColumnReader<'_>],
    places: &[usize],
    width: usize,
    mut rows: Rows,
    mut table: Table<'_>,
    mut fields: ByteRecord,
) -> Result<Rows, Refusal>
    requires count { length places.now ≡ length columns.now }
    requires empty { rows ≡ [] }
    ensures gives { Gives result (rows_from columns.now places.now width [] table.entry) }
    ensures wide { IfOk result (λ rows. All (λ row. length row.cells ≡ length columns.now) rows) }
{
    let mut cells = Seq::new(alloc);
    while table.next(&mut fields)? {
        cells = read_row(columns, places, width, rows.count(), &fields, cells)?;
        rows.push_cells(cells.as_slice())?;
    }
    Ok(rows)
}

// The numbers of a record after so many rows, in the place of `cells`.
#[tactic(auto, unfolding(crate::specs::RowFile::cells_at))]
fn read_row(
    columns: &[ColumnReader<'_>],
    places: &[usize],
    width: usize,
    count: u64,
    fields: &ByteRecord,
    cells: Seq<i64>,
) -> Result<Seq<i64>, Refusal>
    requires count { length places.now ≡ length columns.now }
    requires room { count ≤ row_limit }
    ensures gives { Gives result (cells_at columns.now places.now width count (fields_of fields.now)) }
    ensures room { OnOk result (count < row_limit) }
    ensures wide { IfOk result (λ cells. length cells ≡ length columns.now) }
{
    if MOST_ROWS <= count {
        return Err(ReadStop::Reason(Reason::TooMany).at(FileKind::Rows, count + 2));
    }
    match read_cells(columns, places, width, fields, cells) {
        Ok(cells) => Ok(cells),
        Err(stop) => Err(stop.at(FileKind::Rows, count + 2)),
    }
}

/// The numbers of a record of so many fields, in the place of `cells`.
#[tactic(auto, unfolding(crate::specs::RowFile::cells_of))]
pub(crate) fn read_cells(
    columns: &[ColumnReader<'_>],
    places: &[usize],
    width: usize,
    fields: &ByteRecord,
    cells: Seq<i64>,
) -> Result<Seq<i64>, ReadStop>
    requires count { length places.now ≡ length columns.now }
    ensures answers { Answers result (cells_of columns.now places.now width (fields_of fields.now)) }
    ensures wide { IfOk result (λ cells. length cells ≡ length columns.now) }
{
    if fields.len() != width {
        return Err(ReadStop::Reason(Reason::FieldCount));
    }
    fill_cells(columns, places, fields, cleared(cells))
}

// The memory of the numbers without them.
fn cleared(cells: Seq<i64>) -> Seq<i64>
    ensures { result ≡ [] }
{
    let mut numbers = cells.into_vec();
    numbers.clear();
    Seq::from_vec(numbers)
}

#[tactic(auto, using(crate::proofs::Cells::steps))]
fn fill_cells(
    columns: &[ColumnReader<'_>],
    places: &[usize],
    fields: &ByteRecord,
    mut cells: Seq<i64>,
) -> Result<Seq<i64>, ReadStop>
    requires count { length places.now ≡ length columns.now }
    requires empty { cells ≡ [] }
    ensures answers { Answers result (cells_from [] columns.now places.now (fields_of fields.now)) }
    ensures wide { IfOk result (λ cells. length cells ≡ length columns.now) }
{
    for (place, column) in columns.iter().enumerate() {
        let cell = column.read(field(fields, places[place]))?;
        cells.push(cell)?;
    }
    Ok(cells)
}
