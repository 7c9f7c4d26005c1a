ghost use Rattle.std.specs.Prelude.{◌≡◌, ◌++◌, codes, IfOk, OnErr, OnOk};
ghost use Rattle.pc_report.specs.RunLines.{HasScale, HaveScales, field_text, fields_text, name_at, next_fields_text, run_line, run_lines};

use pc_lang_tokens::put_name;
use pc_list::Text;
use pc_model::{Column, Kind, Run, Schema};
use pc_num::{Memory, put_scaled};
use std::alloc::Global;

/// Appends a line for each run: how often its row stands, and the row's fields in the order of the schema, with each
/// column's decimals and with the names of a column of names. A place past the names has an empty name.
pub fn put_runs(
    alloc: Global,
    schema: &Schema,
    out: &mut Vec<u8>,
    runs: &[Run],
) -> Result<(), Memory>
    requires { HaveScales schema.now.columns }
    ensures ok { OnOk result (out.new.items ≡ out.old.items ++ run_lines schema.now runs.now) }
    ensures err { OnErr result (out.new.items ≡ out.old.items) }
{
    let lines = lines_of(alloc, schema, runs)?;
    out.extend_from_slice(lines.as_slice())?;
    Ok(())
}

#[tactic(auto, using(std::proofs::lemmas::List::flat_map_more), unfolding(crate::specs::RunLines::run_lines))]
fn lines_of(alloc: Global, schema: &Schema, runs: &[Run]) -> Result<Vec<u8>, Memory>
    requires { HaveScales schema.now.columns }
    ensures { IfOk result (λ text. text.items ≡ run_lines schema.now runs.now) }
{
    let mut lines = Vec::new(alloc);
    for run in runs {
        put_run(alloc, &mut lines, schema, run)?;
    }
    Ok(lines)
}

#[tactic(auto, unfolding(crate::specs::RunLines::run_line))]
fn put_run(alloc: Global, out: &mut Vec<u8>, schema: &Schema, run: &Run) -> Result<(), Memory>
    requires { HaveScales schema.now.columns }
    ensures { OnOk result (out.new.items ≡ out.old.items ++ run_line schema.now run.now) }
{
    let times = run.times;
    let front = format!(in alloc; "run {times}: ")?;
    out.extend_from_slice(front.as_bytes())?;
    put_fields(
        alloc,
        out,
        schema.columns.as_slice(),
        run.row.cells.as_slice(),
    )?;
    out.push(b'\n')?;
    Ok(())
}

/// Appends the fields of a row in the order of the columns, with a comma and a space between two.
pub fn put_fields(
    alloc: Global,
    out: &mut Vec<u8>,
    columns: &[Column],
    cells: &[i64],
) -> Result<(), Memory>
    requires { HaveScales columns.now }
    ensures { OnOk result (out.new.items ≡ out.old.items ++ fields_text columns.now cells.now) }
{
    match (columns, cells) {
        ([column, columns @ ..], [cell, cells @ ..]) => {
            put_field(alloc, out, &column.kind, *cell)?;
            put_next_fields(alloc, out, columns, cells)
        }
        _ => Ok(()),
    }
}

// Appends the fields, each with a comma and a space before it.
#[tactic(auto, using(crate::proofs::Fields::steps))]
fn put_next_fields(
    alloc: Global,
    out: &mut Vec<u8>,
    columns: &[Column],
    cells: &[i64],
) -> Result<(), Memory>
    requires { HaveScales columns.now }
    ensures { OnOk result (out.new.items ≡ out.old.items ++ next_fields_text columns.now cells.now) }
{
    for (place, column) in columns.iter().enumerate() {
        if cells.len() <= place {
            return Ok(());
        }
        put_next_field(alloc, out, &column.kind, cells[place])?;
    }
    Ok(())
}

fn put_next_field(alloc: Global, out: &mut Vec<u8>, kind: &Kind, cell: i64) -> Result<(), Memory>
    requires { HasScale kind.now }
    ensures { OnOk result (out.new.items ≡ out.old.items ++ (codes ", " ++ field_text kind.now cell)) }
{
    out.extend_from_slice(b", ")?;
    put_field(alloc, out, kind, cell)
}

// Appends a number of a column with its decimals, or the name that stands at its place.
#[tactic(auto, unfolding(crate::specs::RunLines::field_text))]
fn put_field(alloc: Global, out: &mut Vec<u8>, kind: &Kind, cell: i64) -> Result<(), Memory>
    requires { HasScale kind.now }
    ensures { OnOk result (out.new.items ≡ out.old.items ++ field_text kind.now cell) }
{
    match kind {
        Kind::Int { .. } => put_scaled(alloc, out, i128::from(cell), 0),
        Kind::Dec { scale, .. } => put_scaled(alloc, out, i128::from(cell), *scale),
        Kind::Cat { names } => put_name(alloc, out, name_at(names.as_slice(), cell)),
    }
}

// The name at a place, or no text where there is none.
pub(crate) fn name_at(names: &[Text], place: i64) -> &str
    ensures { result.now ≡ name_at names.now place }
{
    if place < 0 {
        return "";
    }
    match names.get(place as usize) {
        Some(name) => name.as_str(),
        None => "",
    }
}
