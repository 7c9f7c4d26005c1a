ghost use Rattle.std.specs.Prelude.{◌≡◌, ◌<◌, ◌+◌, ◌^◌, drop, map, IfOk, IfSome};
ghost use Rattle.csv.specs.Reading.{default_config, records, strip_bom};
ghost use Rattle.csv.specs.Records.{fields_of};
ghost use Rattle.pc_model.specs.Texts.{IsName};
ghost use Rattle.pc_model.specs.WellFormed.{IsColumn};
ghost use Rattle.pc_rows.specs.RowFile.{place_from};
ghost use Rattle.pc_schema.specs.SchemaFile.{LackName, is_taken};
ghost use Rattle.pc_desk_schema.specs.Columns.{column_of, fitted_at, fitted_over, place_of};

use crate::fits::{fit_of, zero_of};
use crate::names::text_of_name;
use crate::said::{Odd, Said};
use crate::table::texts_at;
use csv::ByteRecord;
use pc_list::Seq;
use pc_model::{Column, is_name};
use pc_num::Memory;
use pc_records::field;
use std::alloc::Global;

/// A column that the rows fit, and its first number that loses a 0.
#[derive(Debug, Drop)]
pub(crate) struct Fitted {
    pub column: Column,
    pub zero: Option<Odd>,
}

/// The column of a name over the rows of a text, beside these columns.
#[tactic(auto, using(pc_schema::proofs::Names::lacks_name), unfolding(crate::specs::Columns::column_of))]
pub(crate) fn column_of(
    alloc: Global,
    text: &[u8],
    header: &ByteRecord,
    columns: &[Column],
    name: &[u8],
) -> Result<Result<Fitted, Said>, Memory>
    ensures value { IfOk result (λ found. found ≡ column_of (fields_of header.now) (drop 1 (records default_config (strip_bom text.now))) columns.now name.now) }
    ensures is_column { IfOk result (λ found. IfOk found (λ fitted. IsColumn fitted.column)) }
    ensures fresh { IfOk result (λ found. IfOk found (λ fitted. LackName fitted.column.name columns.now)) }
{
    if !is_name(name) {
        return Ok(Err(Said::BadName));
    }
    if is_taken(columns, name) {
        return Ok(Err(Said::Repeated));
    }
    fitted_at(alloc, text, name, place_of(name, header))
}

fn is_taken(columns: &[Column], name: &[u8]) -> bool
    ensures { result ≡ is_taken columns.now name.now }
{
    columns.iter().any(|column| name == column.name.as_bytes())
}

// The column of a name over the fields at its place.
fn fitted_at(
    alloc: Global,
    text: &[u8],
    name: &[u8],
    place: Option<usize>,
) -> Result<Result<Fitted, Said>, Memory>
    requires { IsName name.now }
    ensures value { IfOk result (λ found. found ≡ fitted_at name.now (drop 1 (records default_config (strip_bom text.now))) place) }
    ensures is_column { IfOk result (λ found. IfOk found (λ fitted. IsColumn fitted.column)) }
    ensures named { IfOk result (λ found. IfOk found (λ fitted. fitted.column.name ≡ name.now)) }
{
    match place {
        Some(place) => {
            let texts = texts_at(alloc, text, place)?;
            fitted_over(alloc, name, texts.as_slice())
        }
        None => Ok(Err(Said::Repeated)),
    }
}

fn fitted_over(
    alloc: Global,
    name: &[u8],
    texts: &[Seq<u8>],
) -> Result<Result<Fitted, Said>, Memory>
    requires { IsName name.now }
    ensures value { IfOk result (λ found. found ≡ fitted_over name.now texts.now) }
    ensures is_column { IfOk result (λ found. IfOk found (λ fitted. IsColumn fitted.column)) }
    ensures named { IfOk result (λ found. IfOk found (λ fitted. fitted.column.name ≡ name.now)) }
{
    match fit_of(alloc, texts)? {
        Ok(kind) => {
            let zero = zero_of(alloc, texts, &kind)?;
            let name = text_of_name(alloc, name)?;
            Ok(Ok(Fitted {
                column: Column { name, kind },
                zero,
            }))
        }
        Err(why) => Ok(Err(why)),
    }
}

#[tactic(auto, unfolding(crate::specs::Columns::place_of))]
fn place_of(name: &[u8], header: &ByteRecord) -> Option<usize>
    ensures { result ≡ place_of name.now (fields_of header.now) }
{
    let place = place_from(0, name, header)?;
    if place_from(place + 1, name, header).is_some() {
        return None;
    }
    Some(place)
}

// The first place from `start` on that holds the name.
#[tactic(auto, using(pc_rows::proofs::Places::scan))]
fn place_from(start: usize, name: &[u8], header: &ByteRecord) -> Option<usize>
    ensures value { result ≡ place_from start name.now (drop start (fields_of header.now)) }
    ensures inside { IfSome result (λ place. place + 1 < 2 ^ 64) }
{
    for place in start..header.len() {
        if name == field(header, place) {
            return Some(place);
        }
    }
    None
}
