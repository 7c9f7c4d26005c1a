ghost use Rattle.std.specs.Prelude.{◌≡◌, ◌≤◌, ◌∷◌, [], pos, All, Ok, codes, IfOk};
ghost use Rattle.csv.specs.Records.{fields_of};
ghost use Rattle.csv.specs.Writing.{default_writer, row_text};
ghost use Rattle.pc_num.specs.Put.{scaled_text};
ghost use Rattle.pc_model.specs.Texts.{text_of};
ghost use Rattle.pc_model.specs.WellFormed.{IsColumn, IsKind, IsWellFormed};
ghost use Rattle.pc_schema.specs.Plain.{column_fields, kind_fields, plain_text};
ghost use Rattle.pc_schema.specs.SchemaFile.{schema_of};

use csv::{ByteRecord, WriterBuilder};
use pc_list::{Seq, Text};
use pc_model::{Column, Kind, Schema};
use pc_num::{Memory, put_scaled};
use std::alloc::Global;

/// The text of a schema file, a record for each column.
#[tactic(auto, using(crate::proofs::SchemaText::read_back))]
pub fn schema_text(alloc: Global, schema: &Schema) -> Result<Vec<u8>, Memory>
    requires { IsWellFormed schema.now }
    ensures exact { IfOk result (λ text. text.items ≡ plain_text schema.now.columns) }
    ensures read_back { IfOk result (λ text. text_of text.items ≡ Ok text.items → schema_of text.items ≡ Ok schema.now) }
{
    columns_text(alloc, schema.columns.as_slice())
}

#[tactic(auto, using(crate::proofs::SchemaText::steps))]
fn columns_text(alloc: Global, columns: &[Column]) -> Result<Vec<u8>, Memory>
    requires { All IsColumn columns.now }
    ensures { IfOk result (λ text. text.items ≡ plain_text columns.now) }
{
    let mut text = Vec::new(alloc);
    for column in columns {
        let line = column_text(alloc, column)?;
        text.extend_from_slice(line.as_slice())?;
    }
    Ok(text)
}

fn column_text(alloc: Global, column: &Column) -> Result<Vec<u8>, Memory>
    requires { IsColumn column.now }
    ensures { IfOk result (λ text. text.items ≡ row_text default_writer (column_fields column.now)) }
{
    let fields = kind_fields(alloc, &column.kind)?;
    let row = record_of(alloc, column.name.as_bytes(), fields.as_slice())?;
    record_text(alloc, &row)
}

fn kind_fields(alloc: Global, kind: &Kind) -> Result<Seq<Seq<u8>>, Memory>
    requires { IsKind kind.now }
    ensures { IfOk result (λ fields. fields ≡ kind_fields kind.now) }
{
    match kind {
        Kind::Int { low, high } => int_fields(alloc, *low, *high),
        Kind::Dec { scale, low, high } => dec_fields(alloc, *scale, *low, *high),
        Kind::Cat { names } => cat_fields(alloc, names.as_slice()),
    }
}

fn int_fields(alloc: Global, low: i64, high: i64) -> Result<Seq<Seq<u8>>, Memory>
    ensures { IfOk result (λ fields. fields ≡ codes "int" ∷ scaled_text low 0 ∷ scaled_text high 0 ∷ []) }
{
    let mut fields = Seq::new(alloc);
    fields.push(Seq::from_slice(alloc, b"int")?)?;
    fields.push(number_text(alloc, low, 0)?)?;
    fields.push(number_text(alloc, high, 0)?)?;
    Ok(fields)
}

fn dec_fields(alloc: Global, scale: u8, low: i64, high: i64) -> Result<Seq<Seq<u8>>, Memory>
    requires { scale ≤ 6 }
    ensures { IfOk result (λ fields. fields ≡ codes "dec" ∷ scaled_text (pos scale) 0 ∷ scaled_text low scale ∷ scaled_text high scale ∷ []) }
{
    let mut fields = Seq::new(alloc);
    fields.push(Seq::from_slice(alloc, b"dec")?)?;
    fields.push(number_text(alloc, i64::from(scale), 0)?)?;
    fields.push(number_text(alloc, low, scale)?)?;
    fields.push(number_text(alloc, high, scale)?)?;
    Ok(fields)
}

#[tactic(auto, using(std::proofs::lemmas::List::take_more))]
fn cat_fields(alloc: Global, names: &[Text]) -> Result<Seq<Seq<u8>>, Memory>
    ensures { IfOk result (λ fields. fields ≡ codes "cat" ∷ names.now) }
{
    let mut fields = Seq::new(alloc);
    fields.push(Seq::from_slice(alloc, b"cat")?)?;
    for name in names {
        fields.push(Seq::from_slice(alloc, name.as_bytes())?)?;
    }
    Ok(fields)
}

fn number_text(alloc: Global, number: i64, scale: u8) -> Result<Seq<u8>, Memory>
    requires { scale ≤ 6 }
    ensures { IfOk result (λ text. text ≡ scaled_text number scale) }
{
    let mut text = Vec::new(alloc);
    put_scaled(alloc, &mut text, i128::from(number), scale)?;
    Ok(Seq::from_vec(text))
}

// A record of a name and the fields after it.
#[tactic(auto, using(std::proofs::lemmas::List::take_more))]
fn record_of(alloc: Global, name: &[u8], fields: &[Seq<u8>]) -> Result<ByteRecord, Memory>
    ensures { IfOk result (λ row. fields_of row ≡ name.now ∷ fields.now) }
{
    let mut row = ByteRecord::new(alloc);
    row.push_field(name)?;
    for field in fields {
        row.push_field(field.as_slice())?;
    }
    Ok(row)
}

// The text of a record, with quotes where a field calls for them.
fn record_text(alloc: Global, row: &ByteRecord) -> Result<Vec<u8>, Memory>
    ensures { IfOk result (λ text. text.items ≡ row_text default_writer (fields_of row.now)) }
{
    let mut writer = WriterBuilder::new().from_writer(Vec::new(alloc));
    if writer.write_byte_record(row).is_err() {
        return Err(Memory);
    }
    match writer.into_inner() {
        Ok(text) => Ok(text),
        Err(_) => Err(Memory),
    }
}
