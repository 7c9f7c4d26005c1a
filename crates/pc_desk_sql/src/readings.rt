ghost use Rattle.std.specs.Prelude.{◌≡◌, ◌≤◌, ◌<◌, ◌^◌, ◌++◌, ◌∷◌, [], string_bytes, All, IfOk};
ghost use Rattle.pc_model.specs.WellFormed.{IsColumn, IsKind};
ghost use Rattle.pc_desk_sql.specs.Readings.{case_text, digit_test, digits_text, field_text, field_for, fields_table, front_text, kept_text, name_field, number_field, number_for, number_of_column, number_tests, number_text, numbered, numbers_table, placed, point_test, readings, rest_text, scale_test, sign_test, size_test, table_of, trimmed_text, value_text, values_table};

use crate::claims::domain_claim;
use crate::texts::{NAME, listed, quoted, surrounded, table_text};
use pc_list::{Seq, Text};
use pc_model::{Column, Kind};
use pc_num::Memory;
use std::alloc::{AllocError, Global};

/// The inner tables: of a row the texts of its fields, then whole numbers, then the values of the columns.
#[tactic(auto, unfolding(crate::specs::Readings::readings))]
pub(crate) fn readings(alloc: Global, columns: &[Column], table: &str) -> Result<Seq<u8>, Memory>
    requires { All IsColumn columns.now }
    ensures { IfOk result (λ text. text ≡ readings columns.now table.now) }
{
    let mut tables = Seq::new(alloc);
    tables.push(fields_table(alloc, columns, table)?)?;
    tables.push(numbers_table(alloc, columns)?)?;
    tables.push(values_table(alloc, columns)?)?;
    listed(alloc, "", ",\n", tables.as_slice())
}

#[tactic(auto, unfolding(crate::specs::Readings::fields_table))]
fn fields_table(alloc: Global, columns: &[Column], table: &str) -> Result<Seq<u8>, Memory>
    ensures { IfOk result (λ text. text ≡ fields_table columns.now table.now) }
{
    let fields = field_texts(alloc, columns)?;
    let name = table_text(alloc, table.as_bytes())?;
    let from = surrounded(alloc, "", name.as_slice(), b" AS t")?;
    table_of(alloc, "fields", fields.as_slice(), from.as_slice())
}

#[tactic(auto, unfolding(crate::specs::Readings::numbers_table))]
fn numbers_table(alloc: Global, columns: &[Column]) -> Result<Seq<u8>, Memory>
    requires { All IsColumn columns.now }
    ensures { IfOk result (λ text. text ≡ numbers_table columns.now) }
{
    let numbers = number_texts(alloc, columns)?;
    table_of(alloc, "numbers", numbers.as_slice(), b"\"(fields)\" AS f")
}

#[tactic(auto, unfolding(crate::specs::Readings::values_table))]
fn values_table(alloc: Global, columns: &[Column]) -> Result<Seq<u8>, Memory>
    ensures { IfOk result (λ text. text ≡ values_table columns.now) }
{
    let values = value_texts(alloc, columns)?;
    table_of(alloc, "values", values.as_slice(), b"\"(numbers)\" AS n")
}

#[tactic(auto, unfolding(crate::specs::Readings::table_of))]
fn table_of(alloc: Global, name: &str, columns: &[Seq<u8>], from: &[u8]) -> Result<Seq<u8>, Memory>
    ensures { IfOk result (λ text. text ≡ table_of name.now columns.now from.now) }
{
    let columns = listed(alloc, "", ",\n    ", columns)?;
    let mut text = Vec::from_slice(alloc, b"\"(")?;
    text.extend_from_slice(name.as_bytes())?;
    text.extend_from_slice(b")\" AS (\n  SELECT ")?;
    text.extend_from_slice(columns.as_slice())?;
    text.extend_from_slice(b"\n  FROM ")?;
    text.extend_from_slice(from)?;
    text.extend_from_slice(b"\n)")?;
    Ok(Seq::from_vec(text))
}

// ---- texts

#[tactic(auto, using(crate::proofs::Listing::placed_steps))]
fn field_texts(alloc: Global, columns: &[Column]) -> Result<Seq<Seq<u8>>, Memory>
    ensures { IfOk result (λ texts. texts ≡ placed field_text 0 columns.now) }
{
    let mut texts = Seq::new(alloc);
    for (place, column) in columns.iter().enumerate() {
        texts.push(field_text(alloc, place, column)?)?;
    }
    Ok(texts)
}

#[tactic(auto, unfolding(crate::specs::Readings::field_text))]
fn field_text(alloc: Global, place: usize, column: &Column) -> Result<Seq<u8>, Memory>
    ensures { IfOk result (λ text. text ≡ field_text place column.now) }
{
    field_for(alloc, place, &column.name, &column.kind)
}

fn field_for(alloc: Global, place: usize, name: &Text, kind: &Kind) -> Result<Seq<u8>, Memory>
    ensures { IfOk result (λ text. text ≡ field_for place name.now kind.now) }
{
    match kind {
        Kind::Int { .. } | Kind::Dec { .. } => number_field(alloc, place, name),
        Kind::Cat { .. } => name_field(alloc, place, name),
    }
}

#[tactic(auto, unfolding(crate::specs::Readings::number_field))]
fn number_field(alloc: Global, place: usize, name: &Text) -> Result<Seq<u8>, Memory>
    ensures { IfOk result (λ text. text ≡ number_field place name.now) }
{
    let trimmed = trimmed_text(alloc, name)?;
    let rest = rest_text(alloc, name)?;
    let mut text = Vec::from_slice(alloc, trimmed.as_slice())?;
    text.extend_from_slice(numbered(alloc, " AS c", place)?.as_slice())?;
    text.extend_from_slice(rest.as_slice())?;
    text.extend_from_slice(numbered(alloc, " AS r", place)?.as_slice())?;
    Ok(Seq::from_vec(text))
}

#[tactic(auto, unfolding(crate::specs::Readings::name_field))]
fn name_field(alloc: Global, place: usize, name: &Text) -> Result<Seq<u8>, Memory>
    ensures { IfOk result (λ text. text ≡ name_field place name.now) }
{
    let name = quoted(alloc, NAME, name.as_str().as_bytes())?;
    let mut text = surrounded(alloc, "CAST(t.", name.as_slice(), b" AS TEXT) || ''")?;
    text.extend_from_slice(numbered(alloc, " AS c", place)?.as_slice())?;
    Ok(text)
}

#[tactic(auto, unfolding(crate::specs::Readings::trimmed_text))]
fn trimmed_text(alloc: Global, name: &Text) -> Result<Seq<u8>, Memory>
    ensures { IfOk result (λ text. text ≡ trimmed_text name.now) }
{
    let name = quoted(alloc, NAME, name.as_str().as_bytes())?;
    surrounded(alloc, "TRIM(CAST(t.", name.as_slice(), b" AS TEXT))")
}

#[tactic(auto, unfolding(crate::specs::Readings::rest_text))]
fn rest_text(alloc: Global, name: &Text) -> Result<Seq<u8>, Memory>
    ensures { IfOk result (λ text. text ≡ rest_text name.now) }
{
    let trimmed = trimmed_text(alloc, name)?;
    surrounded(
        alloc,
        ",\n    LTRIM(",
        trimmed.as_slice(),
        b", '+-0123456789')",
    )
}

#[tactic(auto, unfolding(crate::specs::Readings::numbered))]
fn numbered(alloc: Global, before: &str, place: usize) -> Result<Seq<u8>, Memory>
    ensures { IfOk result (λ text. text ≡ numbered before.now place) }
{
    let text = format!(in alloc; "{before}{place}")?;
    Ok(Seq::from_slice(alloc, text.as_bytes())?)
}

// ---- whole numbers

#[tactic(auto, using(crate::proofs::Listing::placed_steps))]
fn number_texts(alloc: Global, columns: &[Column]) -> Result<Seq<Seq<u8>>, Memory>
    requires { All IsColumn columns.now }
    ensures { IfOk result (λ texts. texts ≡ placed number_of_column 0 columns.now) }
{
    let mut texts = Seq::new(alloc);
    for (place, column) in columns.iter().enumerate() {
        texts.push(number_of_column(alloc, place, column)?)?;
    }
    Ok(texts)
}

#[tactic(auto, unfolding(crate::specs::Readings::number_of_column))]
fn number_of_column(alloc: Global, place: usize, column: &Column) -> Result<Seq<u8>, Memory>
    requires { IsColumn column.now }
    ensures { IfOk result (λ text. text ≡ number_of_column place column.now) }
{
    number_for(alloc, place, &column.kind)
}

fn number_for(alloc: Global, place: usize, kind: &Kind) -> Result<Seq<u8>, Memory>
    requires { IsKind kind.now }
    ensures { IfOk result (λ text. text ≡ number_for place kind.now) }
{
    match kind {
        Kind::Int { .. } => number_text(alloc, place, 0),
        Kind::Dec { scale, .. } => number_text(alloc, place, *scale),
        Kind::Cat { .. } => Ok(Seq::from_slice(alloc, kept_text(alloc, place)?.as_bytes())?),
    }
}

#[tactic(auto, unfolding(crate::specs::Readings::kept_text))]
fn kept_text(alloc: Global, place: usize) -> Result<String, AllocError>
    ensures { IfOk result (λ text. string_bytes text ≡ kept_text place) }
{
    format!(in alloc; "f.c{place} AS c{place}")
}

// A field that looks like a number of so many decimals, as a whole number in units of its last place.
#[tactic(auto, unfolding(crate::specs::Readings::number_text))]
fn number_text(alloc: Global, place: usize, scale: u8) -> Result<Seq<u8>, Memory>
    requires { scale ≤ 6 }
    ensures { IfOk result (λ text. text ≡ number_text place scale) }
{
    let tests = number_tests(alloc, place, scale)?;
    let all = listed(alloc, "", "\n    AND ", tests.as_slice())?;
    let mut taken = front_text(alloc, place)?.into_bytes();
    taken.extend_from_slice(digits_text(alloc, place, scale)?.as_bytes())?;
    surrounded(alloc, "CASE WHEN ", all.as_slice(), taken.as_slice())
}

fn number_tests(alloc: Global, place: usize, scale: u8) -> Result<Seq<Seq<u8>>, Memory>
    requires { scale ≤ 6 }
    ensures { IfOk result (λ tests. tests ≡ number_tests place scale) }
{
    let mut tests = Seq::new(alloc);
    tests.push(bytes_of(sign_test(alloc, place)?))?;
    tests.push(bytes_of(digit_test(alloc, place)?))?;
    tests.push(bytes_of(point_test(alloc, place)?))?;
    tests.push(bytes_of(scale_test(alloc, place, scale + 2)?))?;
    tests.push(bytes_of(size_test(alloc, place, 16 - scale)?))?;
    Ok(tests)
}

fn bytes_of(text: String) -> Seq<u8>
    ensures { result ≡ string_bytes text }
{
    Seq::from_vec(text.into_bytes())
}

#[tactic(auto, unfolding(crate::specs::Readings::sign_test))]
fn sign_test(alloc: Global, place: usize) -> Result<String, AllocError>
    ensures { IfOk result (λ text. string_bytes text ≡ sign_test place) }
{
    format!(in alloc; "f.c{place} NOT LIKE '_%+%' AND f.c{place} NOT LIKE '_%-%'")
}

#[tactic(auto, unfolding(crate::specs::Readings::digit_test))]
fn digit_test(alloc: Global, place: usize) -> Result<String, AllocError>
    ensures { IfOk result (λ text. string_bytes text ≡ digit_test place) }
{
    format!(in alloc; "LTRIM(f.c{place}, '+-') <> f.r{place}")
}

#[tactic(auto, unfolding(crate::specs::Readings::point_test))]
fn point_test(alloc: Global, place: usize) -> Result<String, AllocError>
    ensures { IfOk result (λ text. string_bytes text ≡ point_test place) }
{
    format!(in alloc;
        "(f.r{place} = '' OR f.r{place} LIKE '._%' AND LTRIM(SUBSTR(f.r{place}, 2), '0123456789') = '')"
    )
}

#[tactic(auto, unfolding(crate::specs::Readings::scale_test))]
fn scale_test(alloc: Global, place: usize, past: u8) -> Result<String, AllocError>
    ensures { IfOk result (λ text. string_bytes text ≡ scale_test place past) }
{
    format!(in alloc; "RTRIM(SUBSTR(f.r{place}, {past}), '0') = ''")
}

#[tactic(auto, unfolding(crate::specs::Readings::size_test))]
fn size_test(alloc: Global, place: usize, digits: u8) -> Result<String, AllocError>
    ensures { IfOk result (λ text. string_bytes text ≡ size_test place digits) }
{
    format!(in alloc; "LENGTH(LTRIM(f.c{place}, '+-0')) - LENGTH(f.r{place}) <= {digits}")
}

#[tactic(auto, unfolding(crate::specs::Readings::front_text))]
fn front_text(alloc: Global, place: usize) -> Result<String, AllocError>
    ensures { IfOk result (λ text. string_bytes text ≡ front_text place) }
{
    format!(in alloc; " THEN CAST(SUBSTR(f.c{place}, 1, LENGTH(f.c{place}) - LENGTH(f.r{place}))")
}

#[tactic(auto, unfolding(crate::specs::Readings::digits_text))]
fn digits_text(alloc: Global, place: usize, scale: u8) -> Result<String, AllocError>
    ensures { IfOk result (λ text. string_bytes text ≡ digits_text place scale) }
{
    format!(in alloc;
        " || SUBSTR(SUBSTR(f.r{place}, 2) || '000000', 1, {scale}) AS BIGINT) END AS c{place}"
    )
}

// ---- values

#[tactic(auto, using(crate::proofs::Listing::placed_steps))]
fn value_texts(alloc: Global, columns: &[Column]) -> Result<Seq<Seq<u8>>, Memory>
    ensures { IfOk result (λ texts. texts ≡ placed value_text 0 columns.now) }
{
    let mut texts = Seq::new(alloc);
    for (place, column) in columns.iter().enumerate() {
        texts.push(value_text(alloc, place, column)?)?;
    }
    Ok(texts)
}

// The number or the name where the column has it.
#[tactic(auto, unfolding(crate::specs::Readings::value_text))]
fn value_text(alloc: Global, place: usize, column: &Column) -> Result<Seq<u8>, Memory>
    ensures { IfOk result (λ text. text ≡ value_text place column.now) }
{
    let name = quoted(alloc, NAME, column.name.as_str().as_bytes())?;
    let mut text = case_text(alloc, place, &column.kind)?;
    text.extend_from_slice(b" END AS ")?;
    text.extend_from_slice(name.as_slice())?;
    Ok(text)
}

#[tactic(auto, unfolding(crate::specs::Readings::case_text))]
fn case_text(alloc: Global, place: usize, kind: &Kind) -> Result<Seq<u8>, Memory>
    ensures { IfOk result (λ text. text ≡ case_text place kind.now) }
{
    let claim = domain_claim(alloc, kind)?;
    let then = numbered(alloc, " THEN n.c", place)?;
    let mut text = numbered(alloc, "CASE WHEN n.c", place)?;
    text.extend_from_slice(claim.as_slice())?;
    text.extend_from_slice(then.as_slice())?;
    Ok(text)
}
