ghost use Rattle.std.specs.Prelude.{◌≡◌, IfOk};
ghost use Rattle.serde_json.specs.View.{view};
ghost use Rattle.pc_desk_table.specs.Json.{end_data, repeated_data, row_data, rows_data};

use crate::entry::{End, Field, Repeated};
use crate::members::{with_text, with_value};
use crate::names::mark_text;
use pc_num::Memory;
use serde_json::{Map, Value};
use std::alloc::Global;

/// An end: its value, its mark, and the rows that reach it.
pub(crate) fn end_data(alloc: Global, end: &End) -> Result<Value, Memory>
    ensures { IfOk result (λ value. view value ≡ end_data end.now) }
{
    let rows = rows_data(alloc, end.rows.as_slice())?;
    let members = with_text(alloc, Map::new(alloc), "value", end.value.text.as_str())?;
    let members = with_text(alloc, members, "mark", mark_text(end.mark))?;
    let members = with_value(alloc, members, "rows", rows)?;
    Ok(Value::Object(members))
}

#[tactic(auto, using(std::proofs::lemmas::List::map_more))]
fn rows_data(alloc: Global, rows: &[Repeated]) -> Result<Value, Memory>
    ensures { IfOk result (λ value. view value ≡ rows_data rows.now) }
{
    let mut values = Vec::new(alloc);
    for repeated in rows {
        let value = repeated_data(alloc, repeated)?;
        values.push(value)?;
    }
    Ok(Value::Array(values))
}

fn repeated_data(alloc: Global, repeated: &Repeated) -> Result<Value, Memory>
    ensures { IfOk result (λ value. view value ≡ repeated_data repeated.now) }
{
    let row = row_data(alloc, repeated.fields.as_slice())?;
    let members = with_value(alloc, Map::new(alloc), "times", Value::from(repeated.times))?;
    let members = with_value(alloc, members, "row", row)?;
    Ok(Value::Object(members))
}

#[tactic(auto, using(std::proofs::lemmas::List::Sums::fold_more))]
fn row_data(alloc: Global, fields: &[Field]) -> Result<Value, Memory>
    ensures { IfOk result (λ value. view value ≡ row_data fields.now) }
{
    let mut members = Map::new(alloc);
    for field in fields {
        members = with_text(alloc, members, field.column.as_str(), field.text.as_str())?;
    }
    Ok(Value::Object(members))
}
