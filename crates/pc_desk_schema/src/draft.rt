ghost use Rattle.std.specs.Prelude.{◌≡◌, ◌≤◌, drop, length, map, IfOk, Ok};
ghost use Rattle.std.specs.List.{list_all, list_any};
ghost use Rattle.csv.specs.Reading.{default_config, records, strip_bom};
ghost use Rattle.csv.specs.Records.{fields_of};
ghost use Rattle.pc_model.specs.Refusals.{Gives};
ghost use Rattle.pc_model.specs.Texts.{text_of};
ghost use Rattle.pc_model.specs.WellFormed.{AreColumns, IsWellFormed};
ghost use Rattle.pc_rows.specs.RowFile.{rows_of};
ghost use Rattle.pc_desk_schema.specs.Draft.{draft_from, draft_over, drafted_of, drafted_under, is_field_of, is_whole, odd_header, parts_fields, spares};
ghost use Rattle.pc_desk_schema.specs.Sound.{IsSound};

use crate::found::{Found, found_for};
use crate::said::{Remark, Said};
use crate::table::{copies, wanted};
use csv::ByteRecord;
use pc_list::Seq;
use pc_model::{FileKind, ReadStop, Reason, Refusal, Schema, text_of};
use pc_num::Memory;
use pc_records::{Table, field};
use pc_rows::read_rows;
use std::alloc::Global;

/// What is drafted for a file: the columns that fit, of which there may be none, what is said of columns in the order in which
/// they are wanted, how many more fit, and a header that seems to part its fields by another sign than a comma.
#[derive(Debug, PartialEq, Eq, Drop)]
pub struct Draft {
    pub schema: Schema,
    pub remarks: Seq<Remark>,
    pub further: usize,
    pub header: Option<Seq<u8>>,
}

/// Drafts a schema for the columns of these names, in their order, or for all columns of the header where no name is given.
/// The range of a column is that of its fields. A column of whole numbers is `int` also where they stand for names, and one
/// of few numbers may have a wider range: the writer of the schema may change both.
#[tactic(auto, using(crate::proofs::Drafting::is_formed), unfolding(crate::specs::Draft::drafted_of))]
pub fn draft_schema(alloc: Global, bytes: &[u8], names: &[&str]) -> Result<Draft, Refusal>
    ensures gives { Gives result (drafted_of bytes.now (map (λ name. name.now) names.now)) }
    ensures well_formed { IfOk result (λ draft. 1 ≤ length draft.schema.columns → IsWellFormed draft.schema) }
{
    match text_of(bytes) {
        Ok(text) => drafted_in(alloc, bytes, text, names),
        Err(reason) => Err(ReadStop::Reason(reason).at(FileKind::Rows, 0)),
    }
}

impl Draft {
    /// Whether no column is left out.
    pub fn is_whole(&self) -> bool
        ensures { result ≡ is_whole self.now }
    {
        if !all_are_spared(self.remarks.as_slice()) {
            return false;
        }
        self.further == 0
    }
}

fn all_are_spared(remarks: &[Remark]) -> bool
    ensures { result ≡ list_all spares remarks.now }
{
    remarks.iter().all(|remark| spares(remark))
}

fn spares(remark: &Remark) -> bool
    ensures { result ≡ spares remark.now }
{
    match &remark.said {
        Said::Zero(_) => true,
        _ => false,
    }
}

// The draft for a text of these bytes.
#[tactic(auto, using(crate::proofs::Drafting::steps))]
fn drafted_in(alloc: Global, bytes: &[u8], text: &[u8], names: &[&str]) -> Result<Draft, Refusal>
    requires { text_of bytes.now ≡ Ok text.now }
    ensures gives { Gives result (drafted_of bytes.now (map (λ name. name.now) names.now)) }
    ensures are_columns { IfOk result (λ draft. AreColumns draft.schema.columns) }
{
    let columns = Seq::new(alloc);
    let _rows = read_rows(alloc, &Schema { columns }, bytes)?;
    drafted_under(alloc, text, names)
}

fn drafted_under(alloc: Global, text: &[u8], names: &[&str]) -> Result<Draft, Refusal>
    ensures gives { Gives result (drafted_under (map (λ name. name.now) names.now) (records default_config (strip_bom text.now))) }
    ensures are_columns { IfOk result (λ draft. AreColumns draft.schema.columns) }
{
    let mut table = Table::new(alloc, text);
    let mut header = ByteRecord::new(alloc);
    if !table.next(&mut header)? {
        return Err(ReadStop::Reason(Reason::NoHeader).at(FileKind::Rows, 1));
    }
    let names = copies(alloc, names)?;
    if !are_fields_of(&header, names.as_slice()) {
        return Err(ReadStop::Reason(Reason::MissingColumn).at(FileKind::Rows, 1));
    }
    Ok(draft_over(alloc, text, &header, names)?)
}

fn are_fields_of(header: &ByteRecord, names: &[Seq<u8>]) -> bool
    ensures { result ≡ list_all (is_field_of (fields_of header.now)) names.now }
{
    names
        .iter()
        .all(|name| is_field_of(header, name.as_slice()))
}

fn is_field_of(header: &ByteRecord, name: &[u8]) -> bool
    ensures { result ≡ is_field_of (fields_of header.now) name.now }
{
    for place in 0..header.len() {
        if name == field(header, place) {
            return true;
        }
    }
    false
}

fn draft_over(
    alloc: Global,
    text: &[u8],
    header: &ByteRecord,
    names: Seq<Seq<u8>>,
) -> Result<Draft, Memory>
    ensures value { IfOk result (λ draft. draft ≡ draft_over (fields_of header.now) (drop 1 (records default_config (strip_bom text.now))) names) }
    ensures are_columns { IfOk result (λ draft. AreColumns draft.schema.columns) }
{
    let names = wanted(alloc, names, header)?;
    let found = found_for(alloc, text, header, names.as_slice())?;
    draft_from(alloc, header, found)
}

fn draft_from(alloc: Global, header: &ByteRecord, found: Found) -> Result<Draft, Memory>
    requires { IsSound found }
    ensures value { IfOk result (λ draft. draft ≡ draft_from (fields_of header.now) found) }
    ensures are_columns { IfOk result (λ draft. AreColumns draft.schema.columns) }
{
    let header = odd_header(alloc, header)?;
    let Found {
        columns,
        remarks,
        further,
        ..
    } = found;
    Ok(Draft {
        schema: Schema { columns },
        remarks,
        further,
        header,
    })
}

#[tactic(auto, using(crate::proofs::Headers::steps))]
fn odd_header(alloc: Global, header: &ByteRecord) -> Result<Option<Seq<u8>>, Memory>
    ensures { IfOk result (λ odd. odd ≡ odd_header (fields_of header.now)) }
{
    if header.len() != 1 {
        return Ok(None);
    }
    if !has_sign(field(header, 0)) {
        return Ok(None);
    }
    Ok(Some(Seq::from_slice(alloc, field(header, 0))?))
}

fn has_sign(text: &[u8]) -> bool
    ensures { result ≡ list_any parts_fields text.now }
{
    text.iter().any(|byte| *byte == b';' || *byte == b'\t')
}
