ghost use Rattle.std.specs.Prelude.{◌≡◌, fold, IfOk, None, Some};
ghost use Rattle.serde_json.specs.View.{members_view, view};
ghost use Rattle.pc_desk_table.specs.Json.{entry_data, group_pairs, lack_data, line_pairs, observed_data, put_pair, question_pairs, range_pairs};

use crate::end_data::end_data;
use crate::entry::{Entry, Group, Range, SaidLack, Value as Shown};
use crate::members::{Members, with_null, with_text, with_value};
use crate::names::{lack_text, said_text};
use pc_num::Memory;
use serde_json::{Map, Value};
use std::alloc::Global;

/// An entry, as an object.
#[tactic(auto, unfolding(crate::specs::Json::entry_data))]
pub(crate) fn entry_data(alloc: Global, entry: &Entry) -> Result<Value, Memory>
    ensures { IfOk result (λ value. view value ≡ entry_data entry.now) }
{
    let members = with_line(alloc, Map::new(alloc), entry.line)?;
    let members = with_question(alloc, members, entry)?;
    let members = with_group(alloc, members, &entry.group)?;
    let members = with_range(alloc, members, &entry.range)?;
    Ok(Value::Object(members))
}

fn with_line(alloc: Global, members: Members, line: Option<u64>) -> Result<Members, Memory>
    ensures { IfOk result (λ new. members_view new.entries
        ≡ fold put_pair (members_view members.entries) (line_pairs line)) }
{
    match line {
        Some(line) => with_value(alloc, members, "line", Value::from(line)),
        None => Ok(members),
    }
}

fn with_question(alloc: Global, members: Members, entry: &Entry) -> Result<Members, Memory>
    ensures { IfOk result (λ new. members_view new.entries
        ≡ fold put_pair (members_view members.entries) (question_pairs entry.now)) }
{
    let lack = lack_data(alloc, entry.lack)?;
    let observed = observed_data(alloc, &entry.observed)?;
    let members = with_text(alloc, members, "query", entry.query.as_str())?;
    let members = with_text(alloc, members, "relation", said_text(entry.relation))?;
    let members = with_value(alloc, members, "none", lack)?;
    with_value(alloc, members, "observed", observed)
}

fn lack_data(alloc: Global, lack: Option<SaidLack>) -> Result<Value, Memory>
    ensures { IfOk result (λ value. view value ≡ lack_data lack) }
{
    match lack {
        Some(lack) => Ok(Value::try_from_str(alloc, lack_text(lack))?),
        None => Ok(Value::Null),
    }
}

fn observed_data(alloc: Global, observed: &Option<Shown>) -> Result<Value, Memory>
    ensures { IfOk result (λ value. view value ≡ observed_data observed.now) }
{
    match observed {
        Some(shown) => Ok(Value::try_from_str(alloc, shown.text.as_str())?),
        None => Ok(Value::Null),
    }
}

fn with_group(alloc: Global, members: Members, group: &Option<Group>) -> Result<Members, Memory>
    ensures { IfOk result (λ new. members_view new.entries
        ≡ fold put_pair (members_view members.entries) (group_pairs group.now)) }
{
    match group {
        Some(group) => {
            let members = with_text(alloc, members, "group_column", group.column.as_str())?;
            with_text(alloc, members, "group", group.name.as_str())
        }
        None => {
            let members = with_null(alloc, members, "group_column")?;
            with_null(alloc, members, "group")
        }
    }
}

fn with_range(alloc: Global, members: Members, range: &Option<Range>) -> Result<Members, Memory>
    ensures { IfOk result (λ new. members_view new.entries
        ≡ fold put_pair (members_view members.entries) (range_pairs range.now)) }
{
    match range {
        Some(range) => with_ends(alloc, members, range),
        None => without_ends(alloc, members),
    }
}

fn with_ends(alloc: Global, members: Members, range: &Range) -> Result<Members, Memory>
    ensures { IfOk result (λ new. members_view new.entries
        ≡ fold put_pair (members_view members.entries) (range_pairs (Some range.now))) }
{
    let low = end_data(alloc, &range.low)?;
    let high = end_data(alloc, &range.high)?;
    let members = with_value(alloc, members, "low", low)?;
    let members = with_value(alloc, members, "high", high)?;
    let members = with_text(alloc, members, "width", range.width.as_str())?;
    let members = with_text(
        alloc,
        members,
        "low_decimal",
        range.low.value.decimal.as_str(),
    )?;
    with_text(
        alloc,
        members,
        "high_decimal",
        range.high.value.decimal.as_str(),
    )
}

fn without_ends(alloc: Global, members: Members) -> Result<Members, Memory>
    ensures { IfOk result (λ new. members_view new.entries
        ≡ fold put_pair (members_view members.entries) (range_pairs None)) }
{
    let members = with_null(alloc, members, "low")?;
    let members = with_null(alloc, members, "high")?;
    let members = with_null(alloc, members, "width")?;
    let members = with_null(alloc, members, "low_decimal")?;
    with_null(alloc, members, "high_decimal")
}
