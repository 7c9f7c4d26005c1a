ghost use Rattle.std.specs.Prelude.{◌≡◌, ◌++◌, ◌≤◌, ◌^◌, length, nat_le, pos, true, unsigned_abs, IfOk, OnOk, Some};
ghost use Rattle.pc_model.specs.Places.{is_below};
ghost use Rattle.pc_model.specs.WellFormed.{HasFewNames, HaveFewNames, IsWellFormed};
ghost use Rattle.pc_document_format.specs.Formats.{if_spelled};
ghost use Rattle.pc_document_lines.specs.Kept.{IsKept, IsLikelyKept};
ghost use Rattle.pc_document_lines.specs.TokenLines.{are_cells, begins_run, field_number, fields_at, is_cell, is_run, number_of, place_in, read_run, run_of_tokens, run_text, token_at};

use crate::line_tokens::{name_at, number_at, small_number_at, tokens_of};
use pc_lang_tokens::Token;
use pc_list::{Seq, Text};
use pc_model::{Column, Kind, Row, Run, Schema};
use pc_num::Memory;
use pc_report::put_fields;
use std::alloc::Global;

/// Appends the line of a run.
#[tactic(auto, using(pc_report::proofs::Scales::scales), unfolding(crate::specs::TokenLines::run_text))]
pub(crate) fn put_run(
    alloc: Global,
    schema: &Schema,
    out: &mut Vec<u8>,
    run: &Run,
) -> Result<(), Memory>
    requires well_formed { IsWellFormed schema.now }
    ensures { OnOk result (out.new.items ≡ out.old.items ++ run_text schema.now run.now) }
{
    let times = run.times;
    let front = format!(in alloc; "run {times}: ")?;
    out.extend_from_slice(front.as_bytes())?;
    put_fields(
        alloc,
        out,
        schema.columns.as_slice(),
        run.row.cells.as_slice(),
    )
}

/// Whether a line begins as that of a run.
#[tactic(auto, unfolding(std::specs::Prelude::bytes_eq))]
pub fn begins_run(line: &[u8]) -> bool
    ensures { result ≡ begins_run line.now }
{
    line.starts_with(b"run ")
}

/// The run whose line this is, or none.
#[tactic(auto, using(crate::proofs::RunReading::steps))]
pub fn read_run(alloc: Global, schema: &Schema, line: &[u8]) -> Result<Option<Run>, Memory>
    requires well_formed { IsWellFormed schema.now }
    ensures { IfOk result (λ run. run ≡ read_run schema.now line.now) }
{
    let list = tokens_of(alloc, line)?;
    match run_of_tokens(alloc, schema, list.as_slice())? {
        Some(run) => if_spelled(alloc, schema, line, run),
        None => Ok(None),
    }
}

// The run, if this is its line.
fn if_spelled(alloc: Global, schema: &Schema, line: &[u8], run: Run) -> Result<Option<Run>, Memory>
    requires well_formed { IsWellFormed schema.now }
    requires good { is_run schema.now run ≡ true }
    ensures { IfOk result (λ found. found ≡ if_spelled (run_text schema.now) (is_run schema.now) line.now (Some run)) }
{
    let mut text = Vec::new(alloc);
    put_run(alloc, schema, &mut text, &run)?;
    if text.as_slice() != line {
        return Ok(None);
    }
    Ok(Some(run))
}

// The only run whose line can have these tokens, if it may stand.
#[tactic(auto, using(crate::proofs::RunReading::run_steps, pc_lang::proofs::Places::few_columns, pc_model::proofs::FewNames::have_few_names), unfolding(crate::specs::TokenLines::run_of_tokens, crate::specs::TokenLines::is_run))]
fn run_of_tokens(alloc: Global, schema: &Schema, list: &[Token]) -> Result<Option<Run>, Memory>
    requires well_formed { IsWellFormed schema.now }
    ensures { IfOk result (λ found. IsLikelyKept (is_run schema.now) (run_of_tokens schema.now list.now) found) }
{
    let Some(times) = times_of(list) else {
        return Ok(None);
    };
    match cells_of(alloc, schema.columns.as_slice(), list)? {
        Some(cells) => Ok(Some(Run {
            times,
            row: Row { cells },
        })),
        None => Ok(None),
    }
}

// How often the row stands.
fn times_of(list: &[Token]) -> Option<u64>
    ensures { IsKept (λ n. nat_le n (10 ^ 18)) (unsigned_abs (number_of (token_at list.now 1))) result }
{
    let Some(number) = number_at(list, 1) else {
        return None;
    };
    let size = number.unsigned_abs();
    if size > 1_000_000_000_000_000_000 {
        return None;
    }
    Some(size as u64)
}

// The numbers of the fields, if each may stand in its column.
#[tactic(auto, using(crate::proofs::RunReading::cells_steps))]
fn cells_of(alloc: Global, columns: &[Column], list: &[Token]) -> Result<Option<Seq<i64>>, Memory>
    requires few { length columns.now ≤ 12 }
    requires few_names { HaveFewNames columns.now }
    ensures { IfOk result (λ found. IsKept (are_cells columns.now) (fields_at columns.now 3 list.now) found) }
{
    let mut cells = Seq::new(alloc);
    for (place, column) in columns.iter().enumerate() {
        match cell_at(&column.kind, list, 2 * place + 3) {
            Some(cell) => cells.push(cell)?,
            None => return Ok(None),
        }
    }
    Ok(Some(cells))
}

// The number of the field at a place among the tokens.
fn cell_at(kind: &Kind, list: &[Token], place: usize) -> Option<i64>
    requires { HasFewNames kind.now }
    ensures { IsKept (is_cell kind.now) (field_number kind.now (token_at list.now place)) result }
{
    match kind {
        Kind::Int { .. } | Kind::Dec { .. } => small_number_at(list, place),
        Kind::Cat { names } => place_of(names.as_slice(), name_at(list, place)),
    }
}

#[tactic(auto, using(crate::proofs::RunReading::place_steps))]
fn place_of(names: &[Text], name: &[u8]) -> Option<i64>
    requires { length names.now ≤ 128 }
    ensures { IsKept (is_below (length names.now)) (pos (place_in names.now name.now)) result }
{
    for (place, other) in names.iter().enumerate() {
        if other.as_bytes() == name {
            return Some(place as i64);
        }
    }
    None
}
