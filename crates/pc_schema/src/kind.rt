ghost use Rattle.std.specs.Prelude.{◌≡◌, ◌≤◌, ◌-◌, [], length, drop, false, IfOk, OnOk};
ghost use Rattle.std.specs.Char.{is_ascii_digit};
ghost use Rattle.std.specs.List.{list_all, list_any};
ghost use Rattle.std.specs.Str.{bytes_eq};
ghost use Rattle.csv.specs.Records.{fields_of};
ghost use Rattle.pc_model.specs.Refusals.{Answers};
ghost use Rattle.pc_model.specs.Texts.{IsName};
ghost use Rattle.pc_model.specs.WellFormed.{AreNames, IsKind, IsSpan};
ghost use Rattle.pc_schema.specs.SchemaFile.{name_of, span_of, scale_of, int_of, dec_of, names_from, cat_of, kind_of};

use csv::ByteRecord;
use pc_list::{Seq, Text};
use pc_model::{Kind, ReadStop, Reason, is_name, read_number};
use pc_records::field;
use std::alloc::Global;
use std::str;

const GREATEST_SCALE: u64 = 6;

// A record of names begins with the column's name and the word, and at most 128 names follow.
pub(crate) const FEWEST_FIELDS: usize = 3;

pub(crate) const MOST_FIELDS: usize = 130;

/// The kind of the column that a record tells of.
#[tactic(auto, unfolding(crate::specs::SchemaFile::kind_of))]
pub(crate) fn read_kind(alloc: Global, row: &ByteRecord) -> Result<Kind, ReadStop>
    ensures answers { Answers result (kind_of (fields_of row.now)) }
    ensures is_kind { IfOk result IsKind }
{
    let word = field(row, 1);
    if word == b"int".as_slice() {
        return Ok(read_int(row)?);
    }
    if word == b"dec".as_slice() {
        return Ok(read_dec(row)?);
    }
    if word == b"cat".as_slice() {
        return read_cat(alloc, row);
    }
    Err(ReadStop::Reason(Reason::BadKind))
}

#[tactic(auto, unfolding(crate::specs::SchemaFile::int_of))]
fn read_int(row: &ByteRecord) -> Result<Kind, Reason>
    ensures value { result ≡ int_of (fields_of row.now) }
    ensures is_kind { IfOk result IsKind }
{
    if row.len() != 4 {
        return Err(Reason::FieldCount);
    }
    let (low, high) = read_span(0, field(row, 2), field(row, 3))?;
    Ok(Kind::Int { low, high })
}

#[tactic(auto, unfolding(crate::specs::SchemaFile::dec_of))]
fn read_dec(row: &ByteRecord) -> Result<Kind, Reason>
    ensures value { result ≡ dec_of (fields_of row.now) }
    ensures is_kind { IfOk result IsKind }
{
    if row.len() != 5 {
        return Err(Reason::FieldCount);
    }
    let scale = read_scale(field(row, 2))?;
    let (low, high) = read_span(scale, field(row, 3), field(row, 4))?;
    Ok(Kind::Dec { scale, low, high })
}

#[tactic(auto, unfolding(crate::specs::SchemaFile::span_of))]
pub(crate) fn read_span(scale: u8, low: &[u8], high: &[u8]) -> Result<(i64, i64), Reason>
    ensures value { result ≡ span_of scale low.now high.now }
    ensures is_span { IfOk result (λ span. IsSpan span.0 span.1) }
{
    let low = read_number(low, scale)?;
    let high = read_number(high, scale)?;
    if high < low {
        return Err(Reason::EmptySpan);
    }
    Ok((low, high))
}

#[tactic(auto, unfolding(crate::specs::SchemaFile::scale_of))]
pub(crate) fn read_scale(text: &[u8]) -> Result<u8, Reason>
    ensures value { result ≡ scale_of text.now }
    ensures small { IfOk result (λ scale. scale ≤ 6) }
{
    if !has_digits_only(text) {
        return Err(Reason::BadNumber);
    }
    let scale = read_number(text, 0)?.unsigned_abs();
    if GREATEST_SCALE < scale {
        return Err(Reason::PastLimit);
    }
    Ok(scale as u8)
}

fn has_digits_only(text: &[u8]) -> bool
    ensures { result ≡ list_all is_ascii_digit text.now }
{
    text.iter().all(|byte| byte.is_ascii_digit())
}

#[tactic(auto, unfolding(crate::specs::SchemaFile::cat_of))]
fn read_cat(alloc: Global, row: &ByteRecord) -> Result<Kind, ReadStop>
    ensures answers { Answers result (cat_of (fields_of row.now)) }
    ensures is_kind { IfOk result IsKind }
{
    if row.len() < FEWEST_FIELDS {
        return Err(ReadStop::Reason(Reason::FieldCount));
    }
    if MOST_FIELDS < row.len() {
        return Err(ReadStop::Reason(Reason::TooMany));
    }
    let names = read_names(alloc, row)?;
    Ok(Kind::Cat { names })
}

// The names of a record's column, which begin at its third field.
#[tactic(auto, using(crate::proofs::Names::steps))]
fn read_names(alloc: Global, row: &ByteRecord) -> Result<Seq<Text>, ReadStop>
    requires { 2 ≤ length (fields_of row.now) }
    ensures answers { Answers result (names_from [] (drop 2 (fields_of row.now))) }
    ensures own { IfOk result AreNames }
    ensures count { IfOk result (λ names. length names ≡ length (fields_of row.now) - 2) }
{
    let mut names = Seq::new(alloc);
    for place in 2..row.len() {
        let text = field(row, place);
        let name = read_name(alloc, text, is_among(names.as_slice(), text))?;
        names.push(name)?;
    }
    Ok(names)
}

pub(crate) fn is_among(names: &[Text], text: &[u8]) -> bool
    ensures { result ≡ list_any (bytes_eq text.now) names.now }
{
    names.iter().any(|name| text == name.as_bytes())
}

/// The name that a text is, unless it is taken already.
#[tactic(auto, unfolding(crate::specs::SchemaFile::name_of))]
pub(crate) fn read_name(alloc: Global, text: &[u8], is_taken: bool) -> Result<Text, ReadStop>
    ensures answers { Answers result (name_of is_taken text.now) }
    ensures name { IfOk result IsName }
    ensures free { OnOk result (is_taken ≡ false) }
    ensures same { IfOk result (λ name. name ≡ text.now) }
{
    if !is_name(text) {
        return Err(ReadStop::Reason(Reason::BadName));
    }
    if is_taken {
        return Err(ReadStop::Reason(Reason::RepeatedName));
    }
    match str::from_utf8(text) {
        Ok(name) => Ok(Text::from_text(alloc, name)?),
        Err(_) => unreachable!(),
    }
}
