ghost use Rattle.std.specs.Prelude.{◌≡◌, true, length, Ok, IfOk, MatchResult};
ghost use Rattle.csv.specs.Reading.{default_config, records, strip_bom};
ghost use Rattle.csv.specs.Records.{fields_of};
ghost use Rattle.pc_model.specs.declared.fault.FileKind.TheVariants as files;
ghost use Rattle.pc_model.specs.Membership.{in_domain};
ghost use Rattle.pc_model.specs.Refusals.{Answers, Gives, StopsAs, placed};
ghost use Rattle.pc_model.specs.WellFormed.{HaveFewNames};
ghost use Rattle.pc_rows.specs.Record.{only_record, places_below, row_of};

use crate::column::column_readers;
use crate::read::read_cells;
use csv::ByteRecord;
use pc_list::Seq;
use pc_model::{FileKind, ReadStop, Reason, Refusal, Row, Schema};
use pc_num::Memory;
use pc_records::Table;
use std::alloc::Global;

/// The row of one record, whose fields stand in the order of the columns: of a line of a script at this place.
pub fn read_row(alloc: Global, schema: &Schema, bytes: &[u8], place: u64) -> Result<Row, Refusal>
    requires few_names { HaveFewNames schema.now.columns }
    ensures gives { Gives result (placed files.Script place (row_of schema.now bytes.now)) }
    ensures allowed { IfOk result (λ row. in_domain schema.now row ≡ true) }
{
    match row_of(alloc, schema, bytes) {
        Ok(row) => Ok(row),
        Err(stop) => Err(stop.at(FileKind::Script, place)),
    }
}

/// The same without the place.
#[tactic(auto, using(crate::proofs::InDomain::record_in_domain))]
pub fn row_of(alloc: Global, schema: &Schema, bytes: &[u8]) -> Result<Row, ReadStop>
    requires few_names { HaveFewNames schema.now.columns }
    ensures answers { Answers result (row_of schema.now bytes.now) }
    ensures allowed { IfOk result (λ row. in_domain schema.now row ≡ true) }
{
    spelled_row(alloc, schema, bytes)
}

#[tactic(auto, unfolding(crate::specs::Record::row_of))]
fn spelled_row(alloc: Global, schema: &Schema, bytes: &[u8]) -> Result<Row, ReadStop>
    requires { HaveFewNames schema.now.columns }
    ensures { Answers result (row_of schema.now bytes.now) }
{
    let columns = schema.columns.as_slice();
    let fields = only_record(alloc, bytes)?;
    let readers = column_readers(alloc, columns)?;
    let places = places_below(alloc, columns.len())?;
    let cells = read_cells(
        readers.as_slice(),
        places.as_slice(),
        columns.len(),
        &fields,
        Seq::new(alloc),
    )?;
    Ok(Row { cells })
}

// The fields of the only record.
fn only_record(alloc: Global, bytes: &[u8]) -> Result<ByteRecord, ReadStop>
    ensures { MatchResult result (λ fields. only_record (records default_config (strip_bom bytes.now)) ≡ Ok (fields_of fields)) (λ stop. StopsAs stop (only_record (records default_config (strip_bom bytes.now)))) }
{
    let mut table = Table::new(alloc, bytes);
    let mut fields = ByteRecord::new(alloc);
    if !table.next(&mut fields)? {
        return Err(ReadStop::Reason(Reason::FieldCount));
    }
    let mut other = ByteRecord::new(alloc);
    if table.next(&mut other)? {
        return Err(ReadStop::Reason(Reason::FieldCount));
    }
    Ok(fields)
}

// The first so many places, in their order.
#[tactic(auto, unfolding(crate::specs::Record::places_below))]
fn places_below(alloc: Global, count: usize) -> Result<Seq<usize>, Memory>
    ensures places { IfOk result (λ places. places ≡ places_below count) }
    ensures count { IfOk result (λ places. length places ≡ count) }
{
    let mut places = Seq::new(alloc);
    for place in 0..count {
        places.push(place)?;
    }
    Ok(places)
}
