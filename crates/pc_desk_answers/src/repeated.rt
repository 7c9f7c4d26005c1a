ghost use Rattle.std.specs.Prelude.{◌≡◌, IfOk, map};
ghost use Rattle.pc_report.specs.RunLines.{HasScale, HaveScales, name_at};
ghost use Rattle.pc_desk_answers.specs.Values.{cell_text, field_of, fields_of, repeated_of};

use crate::value::scaled;
use pc_desk_table::{Field, Repeated};
use pc_list::{Seq, Text};
use pc_model::{Column, Kind, Run, Schema};
use pc_num::Memory;
use std::alloc::Global;

/// The rows of runs, and how often each stands.
#[tactic(auto, using(std::proofs::lemmas::List::map_more))]
pub(crate) fn repeated_rows(
    alloc: Global,
    schema: &Schema,
    runs: &[Run],
) -> Result<Seq<Repeated>, Memory>
    requires { HaveScales schema.now.columns }
    ensures { IfOk result (λ rows. rows ≡ map (repeated_of schema.now) runs.now) }
{
    let mut rows = Seq::new(alloc);
    for run in runs {
        let row = repeated_of(alloc, schema, run)?;
        rows.push(row)?;
    }
    Ok(rows)
}

#[tactic(auto, unfolding(crate::specs::Values::repeated_of))]
fn repeated_of(alloc: Global, schema: &Schema, run: &Run) -> Result<Repeated, Memory>
    requires { HaveScales schema.now.columns }
    ensures { IfOk result (λ made. made ≡ repeated_of schema.now run.now) }
{
    Ok(Repeated {
        times: run.times,
        fields: fields_of(alloc, schema.columns.as_slice(), run.row.cells.as_slice())?,
    })
}

// The fields of a row in the order of the columns.
#[tactic(auto, using(crate::proofs::Repeats::steps))]
fn fields_of(alloc: Global, columns: &[Column], cells: &[i64]) -> Result<Seq<Field>, Memory>
    requires { HaveScales columns.now }
    ensures { IfOk result (λ fields. fields ≡ fields_of columns.now cells.now) }
{
    let mut fields = Seq::new(alloc);
    for (place, column) in columns.iter().enumerate() {
        if cells.len() <= place {
            return Ok(fields);
        }
        let field = field_of(alloc, column, cells[place])?;
        fields.push(field)?;
    }
    Ok(fields)
}

fn field_of(alloc: Global, column: &Column, cell: i64) -> Result<Field, Memory>
    requires { HasScale column.now.kind }
    ensures { IfOk result (λ field. field ≡ field_of column.now cell) }
{
    Ok(Field {
        column: Text::from_text(alloc, column.name.as_str())?,
        text: cell_text(alloc, &column.kind, cell)?,
    })
}

fn cell_text(alloc: Global, kind: &Kind, cell: i64) -> Result<Text, Memory>
    requires { HasScale kind.now }
    ensures { IfOk result (λ text. text ≡ cell_text kind.now cell) }
{
    match kind {
        Kind::Int { .. } => scaled(alloc, i128::from(cell), 0),
        Kind::Dec { scale, .. } => scaled(alloc, i128::from(cell), *scale),
        Kind::Cat { names } => Ok(Text::from_text(alloc, name_at(names.as_slice(), cell))?),
    }
}

// The name at a place, or no text where there is none.
fn name_at(names: &[Text], place: i64) -> &str
    ensures { result.now ≡ name_at names.now place }
{
    if place < 0 {
        return "";
    }
    match names.get(place as usize) {
        Some(name) => name.as_str(),
        None => "",
    }
}
