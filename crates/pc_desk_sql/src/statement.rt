ghost use Rattle.std.specs.Prelude.{◌≡◌, ◌++◌, ◌<◌, ◌^◌, decimal, string_bytes, All, IfOk, OnOk};
ghost use Rattle.pc_model.specs.WellFormed.{IsColumn, IsWellFormed};
ghost use Rattle.pc_desk_sql.specs.Readings.{placed};
ghost use Rattle.pc_desk_sql.specs.Spelled.{all_text, constraint_text, count_text, counts_text, joined_text, line_fields, line_text, lines_text, own_tail, own_text, shown_text, sql_text};
ghost use Rattle.pc_desk_sql.specs.Statement.{line_of, lines_of, name_of, statement_over};
ghost use Rattle.pc_desk_sql.specs.Tests.{known};

use crate::conditions::{all_of, not_in, own_test, under_texts};
use crate::readings::readings;
use crate::texts::{STRING, listed, quoted, surrounded, with_each};
use pc_list::Seq;
use pc_model::{Column, Constraint, Schema, When};
use pc_num::Memory;
use std::alloc::{AllocError, Global};

/// A statement of SQL that tests constraints on a table. Its first answer is `(schema)`: the number of all rows, and of those
/// with a field that is no value of its column, which no constraint speaks of. Then for each constraint, in their order, how many
/// rows are under it and how many of these its values do not have, the limits, and whether the former is within them. Parts of
/// the name of a table between points are quoted each. SQLite and PostgreSQL run it, without regular expressions: each field is
/// read through its text, and a number as a whole number in units of its column's last place.
#[tactic(auto, unfolding(crate::specs::Spelled::sql_text, crate::specs::Spelled::spelled))]
pub fn sql_of(
    alloc: Global,
    schema: &Schema,
    constraints: &[Constraint],
    table: &str,
) -> Result<Vec<u8>, Memory>
    requires well_formed { IsWellFormed schema.now }
    ensures text { IfOk result (λ text. text.items ≡ sql_text schema.now constraints.now table.now) }
{
    let columns = schema.columns.as_slice();
    let readings = readings(alloc, columns, table)?;
    let lines = lines_text(alloc, columns, constraints)?;
    let shown = shown_text(alloc)?;
    let text = joined_text(
        alloc,
        readings.as_slice(),
        shown.as_slice(),
        lines.as_slice(),
    )?;
    Ok(text.into_vec())
}

#[tactic(auto, unfolding(crate::specs::Spelled::joined_text))]
fn joined_text(alloc: Global, tables: &[u8], shown: &[u8], lines: &[u8]) -> Result<Seq<u8>, Memory>
    ensures { IfOk result (λ text. text ≡ joined_text tables.now shown.now lines.now) }
{
    let mut text = Vec::from_slice(alloc, tables)?;
    text.extend_from_slice(shown)?;
    text.extend_from_slice(lines)?;
    surrounded(
        alloc,
        "WITH ",
        text.as_slice(),
        b"\n) AS a\nORDER BY a.\"place\";\n",
    )
}

#[tactic(auto, unfolding(crate::specs::Spelled::shown_text))]
fn shown_text(alloc: Global) -> Result<Seq<u8>, Memory>
    ensures { IfOk result (λ text. text ≡ shown_text) }
{
    let within =
        b"a.\"least\" IS NULL AND a.\"broken\" = 0 OR a.\"rows\" BETWEEN a.\"least\" AND a.\"most\"";
    surrounded(
        alloc,
        "\nSELECT a.\"constraint\", a.\"rows\", a.\"broken\", a.\"least\", a.\"most\",\n  CASE WHEN ",
        within,
        b" THEN 'yes' ELSE 'no' END AS \"within\"\nFROM (\n  ",
    )
}

// The answer of the schema, and one for each constraint.
#[tactic(auto, unfolding(crate::specs::Spelled::lines_text))]
fn lines_text(
    alloc: Global,
    columns: &[Column],
    constraints: &[Constraint],
) -> Result<Seq<u8>, Memory>
    requires { All IsColumn columns.now }
    ensures { IfOk result (λ text. text ≡ lines_text (statement_over columns.now constraints.now)) }
{
    let lines = constraint_lines(alloc, columns, constraints)?;
    let later = with_each(alloc, "\n  UNION ALL\n  ", lines.as_slice())?;
    let mut text = own_text(alloc, columns)?;
    text.extend_from_slice(later.as_slice())?;
    Ok(text)
}

#[tactic(auto, using(crate::proofs::Listing::lines_placed))]
fn constraint_lines(
    alloc: Global,
    columns: &[Column],
    constraints: &[Constraint],
) -> Result<Seq<Seq<u8>>, Memory>
    requires { All IsColumn columns.now }
    ensures { IfOk result (λ texts. texts ≡ placed (line_text columns.now) 0 (lines_of columns.now constraints.now)) }
{
    line_texts(alloc, columns, constraints)
}

#[tactic(auto, unfolding(crate::specs::Spelled::own_text))]
fn own_text(alloc: Global, columns: &[Column]) -> Result<Seq<u8>, Memory>
    ensures { IfOk result (λ text. text ≡ own_text columns.now (known columns.now)) }
{
    let own = own_test(alloc, columns)?;
    let tail = own_tail(alloc)?;
    surrounded(
        alloc,
        "SELECT 0 AS \"place\", '(schema)' AS \"constraint\", COUNT(*) AS \"rows\",\n    COUNT(CASE WHEN ",
        own.as_slice(),
        tail.as_slice(),
    )
}

#[tactic(auto, unfolding(crate::specs::Spelled::own_tail))]
fn own_tail(alloc: Global) -> Result<Seq<u8>, Memory>
    ensures { IfOk result (λ text. text ≡ own_tail) }
{
    surrounded(
        alloc,
        " THEN NULL ELSE 1 END) AS \"broken\",\n    ",
        b"CAST(NULL AS BIGINT) AS \"least\", CAST(NULL AS BIGINT) AS \"most\"",
        b"\n  FROM \"(values)\" AS v",
    )
}

#[tactic(auto, using(crate::proofs::Listing::placed_steps))]
fn line_texts(
    alloc: Global,
    columns: &[Column],
    constraints: &[Constraint],
) -> Result<Seq<Seq<u8>>, Memory>
    requires { All IsColumn columns.now }
    ensures { IfOk result (λ texts. texts ≡ placed (constraint_text columns.now constraints.now) 0 constraints.now) }
{
    let mut texts = Seq::new(alloc);
    for (place, constraint) in constraints.iter().enumerate() {
        texts.push(constraint_text(alloc, columns, constraints, place, constraint)?)?;
    }
    Ok(texts)
}

#[tactic(auto, unfolding(crate::specs::Spelled::line_text, crate::specs::Spelled::constraint_text))]
fn constraint_text(
    alloc: Global,
    columns: &[Column],
    constraints: &[Constraint],
    place: usize,
    constraint: &Constraint,
) -> Result<Seq<u8>, Memory>
    requires columns { All IsColumn columns.now }
    requires few { place < 2 ^ 63 }
    ensures { IfOk result (λ text. text ≡ constraint_text columns.now constraints.now place constraint.now) }
{
    let fields = line_fields(alloc, columns, constraints, place + 1, constraint)?;
    let answer = listed(alloc, "", ",\n    ", fields.as_slice())?;
    surrounded(
        alloc,
        "SELECT ",
        answer.as_slice(),
        b"\n  FROM \"(values)\" AS v",
    )
}

// The number of the line, its name, the two counts and the two limits.
#[tactic(auto, unfolding(crate::specs::Spelled::line_fields))]
fn line_fields(
    alloc: Global,
    columns: &[Column],
    constraints: &[Constraint],
    number: usize,
    constraint: &Constraint,
) -> Result<Seq<Seq<u8>>, Memory>
    requires { All IsColumn columns.now }
    ensures { IfOk result (λ fields.
        fields ≡ line_fields columns.now number (line_of columns.now constraints.now constraint.now)) }
{
    let name = name_of(&constraint.when, constraint.name.as_str());
    let mut fields = Seq::new(alloc);
    fields.push(count(alloc, number as u64)?)?;
    fields.push(quoted(alloc, STRING, name.as_bytes())?)?;
    push_counts(alloc, &mut fields, columns, constraints, constraint)?;
    fields.push(count(alloc, constraint.least)?)?;
    fields.push(count(alloc, constraint.most)?)?;
    Ok(fields)
}

// How many rows are under the constraint, and how many of them break it.
fn push_counts(
    alloc: Global,
    fields: &mut Seq<Seq<u8>>,
    columns: &[Column],
    constraints: &[Constraint],
    constraint: &Constraint,
) -> Result<(), Memory>
    requires { All IsColumn columns.now }
    ensures { OnOk result (
        fields.new ≡ fields.old ++ counts_text columns.now (line_of columns.now constraints.now constraint.now)) }
{
    let mut clauses = under_texts(alloc, columns, constraints, &constraint.when)?;
    fields.push(count_of(alloc, clauses.as_slice())?)?;
    clauses.push(not_in(alloc, columns, &constraint.values)?)?;
    fields.push(count_of(alloc, clauses.as_slice())?)?;
    Ok(())
}

#[tactic(auto, unfolding(crate::specs::Spelled::count_text))]
fn count_of(alloc: Global, clauses: &[Seq<u8>]) -> Result<Seq<u8>, Memory>
    ensures { IfOk result (λ text. text ≡ count_text (all_text clauses.now)) }
{
    let all = all_of(alloc, clauses)?;
    surrounded(alloc, "COUNT(CASE WHEN ", all.as_slice(), b" THEN 1 END)")
}

fn count(alloc: Global, count: u64) -> Result<Seq<u8>, Memory>
    ensures { IfOk result (λ text. text ≡ decimal count) }
{
    let text = decimal_text(alloc, count)?;
    Ok(Seq::from_slice(alloc, text.as_bytes())?)
}

fn decimal_text(alloc: Global, count: u64) -> Result<String, AllocError>
    ensures { IfOk result (λ text. string_bytes text ≡ decimal count) }
{
    format!(in alloc; "{count}")
}

#[tactic(auto, unfolding(crate::specs::Statement::name_of))]
fn name_of<'a>(when: &When, name: &'a str) -> &'a str
    ensures { result.now ≡ name_of when.now name.now }
{
    match when {
        When::Boxes(_) => name,
        When::Outside => "outside",
    }
}
