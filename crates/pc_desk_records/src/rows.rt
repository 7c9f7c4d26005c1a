ghost use Rattle.std.specs.Prelude.{◌≡◌, ◌≤◌, ◌∷◌, [], All, IfOk, Some, codes, decimal, slice_get};
ghost use Rattle.std.specs.List.{concat};
ghost use Rattle.pc_model.specs.declared.fault.Reason.TheVariants as reasons;
ghost use Rattle.pc_model.specs.Texts.{text_of};
ghost use Rattle.pc_model.specs.WellFormed.{IsColumn, IsKind};
ghost use Rattle.pc_desk_records.specs.RowTexts.{column_text, further_text, halt_text, header_of, kind_text, name_for, name_text, number_for, number_text, record_text, rows_text, text_in, told_text, width_text};

use crate::fields::{row_texts, texts_of};
use crate::front::front_text;
use crate::joined::{joined, joined_four};
use crate::numbers::span_text;
use crate::texts::{choice_text, counted, shown, shown_after};
use csv::ByteRecord;
use pc_list::Seq;
use pc_model::{Column, Kind, Reason, Refusal, text_of};
use pc_num::Memory;
use pc_records::Table;
use pc_rows::{Halt, RowsTold, tell_rows};
use pc_schema::read_schema;
use std::alloc::Global;

/// What is told of a row file that is refused, behind the number of its record: the line on which that begins, the field at
/// which its reader stopped, what the schema has there, and how many more records are refused. Of a fault that is no
/// record's nothing is told.
#[tactic(auto, unfolding(crate::specs::RowTexts::rows_text))]
pub fn tell_of_rows(alloc: Global, schema: &[u8], rows: &[u8]) -> Result<Vec<u8>, Memory>
    ensures { IfOk result (λ text. text.items ≡ rows_text schema.now rows.now) }
{
    match read_schema(alloc, schema) {
        Ok(schema) => told_text(
            alloc,
            schema.columns.as_slice(),
            text_in(rows),
            tell_rows(alloc, &schema, rows)?,
        ),
        Err(Refusal::Fault(_)) => Ok(Vec::new(alloc)),
        Err(Refusal::Memory) => Err(Memory),
    }
}

pub(crate) fn text_in(bytes: &[u8]) -> &[u8]
    ensures { result.now ≡ text_in (text_of bytes.now) }
{
    match text_of(bytes) {
        Ok(text) => text,
        Err(_) => &[],
    }
}

fn told_text(
    alloc: Global,
    columns: &[Column],
    text: &[u8],
    told: Option<RowsTold>,
) -> Result<Vec<u8>, Memory>
    requires { All IsColumn columns.now }
    ensures { IfOk result (λ out. out.items ≡ told_text columns.now text.now told) }
{
    match told {
        Some(told) => record_text(alloc, columns, text, &told),
        None => Ok(Vec::new(alloc)),
    }
}

#[tactic(auto, unfolding(crate::specs::RowTexts::record_text))]
fn record_text(
    alloc: Global,
    columns: &[Column],
    text: &[u8],
    told: &RowsTold,
) -> Result<Vec<u8>, Memory>
    requires { All IsColumn columns.now }
    ensures { IfOk result (λ out. out.items ≡ record_text columns.now text.now told.now) }
{
    let mut out = front_text(alloc, told.place, text)?;
    let halt = halt_text(alloc, columns, text, told.field.as_slice(), told.halt)?;
    out.extend_from_slice(halt.as_slice())?;
    out.push(b'\n')?;
    let further = further_text(alloc, told.further)?;
    out.extend_from_slice(further.as_slice())?;
    Ok(out)
}

fn further_text(alloc: Global, further: u64) -> Result<Vec<u8>, Memory>
    ensures { IfOk result (λ text. text.items ≡ further_text further) }
{
    if further == 0 {
        return Ok(Vec::new(alloc));
    }
    let mut text = Vec::from_slice(alloc, b"  ".as_slice())?;
    let rest = counted(
        alloc,
        further,
        b" more record is refused".as_slice(),
        b" more records are refused".as_slice(),
    )?;
    text.extend_from_slice(rest.as_slice())?;
    text.push(b'\n')?;
    Ok(text)
}

fn halt_text(
    alloc: Global,
    columns: &[Column],
    text: &[u8],
    field: &[u8],
    halt: Halt,
) -> Result<Vec<u8>, Memory>
    requires { All IsColumn columns.now }
    ensures { IfOk result (λ out. out.items ≡ halt_text columns.now text.now field.now halt) }
{
    match halt {
        Halt::Width { fields, header } => width_text(alloc, fields, header),
        Halt::Field { column, reason, .. } => of_column(alloc, columns, column, reason, field),
        Halt::Name { column, reason } => of_name(alloc, columns, column, reason, text),
    }
}

fn width_text(alloc: Global, fields: usize, header: usize) -> Result<Vec<u8>, Memory>
    ensures { IfOk result (λ text. text.items ≡ width_text fields header) }
{
    let mut text = counted(
        alloc,
        fields as u64,
        b" field".as_slice(),
        b" fields".as_slice(),
    )?;
    let rest = format!(in alloc; ", and the header has {header}")?;
    text.extend_from_slice(rest.as_bytes())?;
    Ok(text)
}

fn of_column(
    alloc: Global,
    columns: &[Column],
    place: usize,
    reason: Reason,
    field: &[u8],
) -> Result<Vec<u8>, Memory>
    requires { All IsColumn columns.now }
    ensures { IfOk result (λ text. text.items ≡ column_text (slice_get columns.now place) reason field.now) }
{
    match columns.get(place) {
        Some(column) => column_text(alloc, column, reason, field),
        None => Ok(Vec::new(alloc)),
    }
}

fn column_text(
    alloc: Global,
    column: &Column,
    reason: Reason,
    field: &[u8],
) -> Result<Vec<u8>, Memory>
    requires { IsColumn column.now }
    ensures { IfOk result (λ text. text.items ≡ column_text (Some column.now) reason field.now) }
{
    let mut text = shown(alloc, column.name.as_bytes())?;
    let value = shown_after(alloc, b" = ".as_slice(), field)?;
    text.extend_from_slice(value.as_slice())?;
    text.extend_from_slice(b", and the schema has ".as_slice())?;
    let kind = kind_text(alloc, &column.kind, reason, field)?;
    text.extend_from_slice(kind.as_slice())?;
    Ok(text)
}

/// What the schema has for a column, beside the field that is refused there, of which nothing is said where it is empty.
pub fn kind_text(
    alloc: Global,
    kind: &Kind,
    reason: Reason,
    field: &[u8],
) -> Result<Vec<u8>, Memory>
    requires { IsKind kind.now }
    ensures { IfOk result (λ text. text.items ≡ kind_text kind.now reason field.now) }
{
    match kind {
        Kind::Int { low, high } => {
            number_text(alloc, reason, field, b"int ".as_slice(), 0, *low, *high)
        }
        Kind::Dec { scale, low, high } => number_text(
            alloc,
            reason,
            field,
            b"dec ".as_slice(),
            *scale,
            *low,
            *high,
        ),
        Kind::Cat { names } => {
            let names = texts_of(alloc, names.as_slice())?;
            choice_text(alloc, b" names".as_slice(), field, names.as_slice())
        }
    }
}

fn number_text(
    alloc: Global,
    reason: Reason,
    field: &[u8],
    kind: &[u8],
    scale: u8,
    low: i64,
    high: i64,
) -> Result<Vec<u8>, Memory>
    requires { scale ≤ 6 }
    ensures { IfOk result (λ text. text.items ≡ number_text reason field.now kind.now scale low high) }
{
    let span = span_text(alloc, scale, low, high)?;
    if field.is_empty() {
        return Ok(span);
    }
    match reason {
        Reason::BadNumber => no_number(alloc, kind, span.as_slice()),
        Reason::TooManyDecimals => too_fine(alloc, kind, scale, span.as_slice()),
        _ => Ok(span),
    }
}

fn no_number(alloc: Global, kind: &[u8], span: &[u8]) -> Result<Vec<u8>, Memory>
    ensures { IfOk result (λ text. text.items ≡ concat (kind.now ∷ span.now ∷ codes ": a number is to stand there" ∷ [])) }
{
    joined(
        alloc,
        kind,
        span,
        b": a number is to stand there".as_slice(),
    )
}

fn too_fine(alloc: Global, kind: &[u8], scale: u8, span: &[u8]) -> Result<Vec<u8>, Memory>
    ensures { IfOk result (λ text. text.items ≡ concat (decimal scale ∷ codes " decimals at most: " ∷ kind.now ∷ span.now ∷ [])) }
{
    let count = decimal_text(alloc, scale)?;
    joined_four(
        alloc,
        count.as_slice(),
        b" decimals at most: ".as_slice(),
        kind,
        span,
    )
}

fn decimal_text(alloc: Global, number: u8) -> Result<Vec<u8>, Memory>
    ensures { IfOk result (λ text. text.items ≡ decimal number) }
{
    Ok(number.to_string(alloc)?.into_bytes())
}

fn of_name(
    alloc: Global,
    columns: &[Column],
    place: usize,
    reason: Reason,
    text: &[u8],
) -> Result<Vec<u8>, Memory>
    ensures { IfOk result (λ out. out.items ≡ name_text (slice_get columns.now place) reason (header_of text.now)) }
{
    match columns.get(place) {
        Some(column) => {
            let header = header_of(alloc, text)?;
            name_for(alloc, reason, column.name.as_bytes(), header.as_slice())
        }
        None => Ok(Vec::new(alloc)),
    }
}

fn name_for(
    alloc: Global,
    reason: Reason,
    name: &[u8],
    header: &[Seq<u8>],
) -> Result<Vec<u8>, Memory>
    ensures { IfOk result (λ text. text.items ≡ name_for reason name.now header.now) }
{
    match reason {
        Reason::MissingColumn => missing_name(alloc, name, header),
        _ => repeated_name(alloc, name, header),
    }
}

fn missing_name(alloc: Global, name: &[u8], header: &[Seq<u8>]) -> Result<Vec<u8>, Memory>
    ensures { IfOk result (λ text. text.items ≡ name_for reasons.MissingColumn name.now header.now) }
{
    let shown = shown(alloc, name)?;
    let fields = choice_text(alloc, b" fields".as_slice(), name, header)?;
    joined_four(
        alloc,
        b"no field is ".as_slice(),
        shown.as_slice(),
        b", which the schema has; the header has ".as_slice(),
        fields.as_slice(),
    )
}

fn repeated_name(alloc: Global, name: &[u8], header: &[Seq<u8>]) -> Result<Vec<u8>, Memory>
    ensures { IfOk result (λ text. text.items ≡ name_for reasons.RepeatedName name.now header.now) }
{
    let shown = shown(alloc, name)?;
    let fields = choice_text(alloc, b" fields".as_slice(), &[], header)?;
    joined(
        alloc,
        shown.as_slice(),
        b" stands twice; the header has ".as_slice(),
        fields.as_slice(),
    )
}

// The fields of the first record, and none where there is no record.
#[tactic(auto, unfolding(crate::specs::RowTexts::header_of))]
fn header_of(alloc: Global, text: &[u8]) -> Result<Seq<Seq<u8>>, Memory>
    ensures { IfOk result (λ header. header ≡ header_of text.now) }
{
    let mut table = Table::new(alloc, text);
    let mut row = ByteRecord::new(alloc);
    if !table.next(&mut row)? {
        return Ok(Seq::new(alloc));
    }
    row_texts(alloc, &row)
}
