ghost use Rattle.std.specs.Prelude.{◌≡◌, [], drop, map, IfOk};
ghost use Rattle.csv.specs.Reading.{default_config, records, strip_bom};
ghost use Rattle.csv.specs.Records.{fields_of};
ghost use Rattle.pc_desk_schema.specs.Columns.{texts_at};
ghost use Rattle.pc_desk_schema.specs.Draft.{wanted};

use csv::ByteRecord;
use pc_list::Seq;
use pc_num::Memory;
use pc_records::{Table, field};
use std::alloc::Global;

/// The fields at a place of the records of a text, but for the first record.
pub(crate) fn texts_at(alloc: Global, text: &[u8], place: usize) -> Result<Seq<Seq<u8>>, Memory>
    ensures { IfOk result (λ texts. texts ≡ texts_at place (drop 1 (records default_config (strip_bom text.now)))) }
{
    let mut table = Table::new(alloc, text);
    let mut row = ByteRecord::new(alloc);
    if table.next(&mut row)? {
        return left_texts(alloc, table, row, place);
    }
    Ok(Seq::new(alloc))
}

// The same of the records that are left.
#[tactic(auto, using(crate::proofs::Texts::steps))]
fn left_texts(
    alloc: Global,
    mut table: Table<'_>,
    mut row: ByteRecord,
    place: usize,
) -> Result<Seq<Seq<u8>>, Memory>
    ensures { IfOk result (λ texts. texts ≡ texts_at place table.entry) }
{
    let mut texts = Seq::new(alloc);
    while table.next(&mut row)? {
        let text = Seq::from_slice(alloc, field(&row, place))?;
        texts.push(text)?;
    }
    Ok(texts)
}

/// The names of the columns that are asked for: all of the header, or those that are given.
pub(crate) fn wanted(
    alloc: Global,
    names: Seq<Seq<u8>>,
    header: &ByteRecord,
) -> Result<Seq<Seq<u8>>, Memory>
    ensures { IfOk result (λ texts. texts ≡ wanted names (fields_of header.now)) }
{
    if names.is_empty() {
        return fields(alloc, header);
    }
    Ok(names)
}

#[tactic(auto, using(std::proofs::lemmas::List::take_more))]
fn fields(alloc: Global, row: &ByteRecord) -> Result<Seq<Seq<u8>>, Memory>
    ensures { IfOk result (λ texts. texts ≡ fields_of row.now) }
{
    let mut texts = Seq::new(alloc);
    for place in 0..row.len() {
        let text = Seq::from_slice(alloc, field(row, place))?;
        texts.push(text)?;
    }
    Ok(texts)
}

/// Copies of names.
#[tactic(auto, using(std::proofs::lemmas::List::map_more))]
pub(crate) fn copies(alloc: Global, names: &[&str]) -> Result<Seq<Seq<u8>>, Memory>
    ensures { IfOk result (λ texts. texts ≡ map (λ name. name.now) names.now) }
{
    let mut texts = Seq::new(alloc);
    for name in names {
        let text = Seq::from_slice(alloc, name.as_bytes())?;
        texts.push(text)?;
    }
    Ok(texts)
}
