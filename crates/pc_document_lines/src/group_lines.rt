ghost use Rattle.std.specs.Prelude.{◌≡◌, ◌++◌, ◌≤◌, bytes_eq, length, slice_get, IfOk, OnOk, Some};
ghost use Rattle.pc_model.specs.WellFormed.{HasFewNames, IsWellFormed};
ghost use Rattle.pc_document_lines.specs.TokenLines.{group_text, group_text_of, kind_names, names_count, read_group};

use pc_lang_tokens::put_name;
use pc_model::{Column, Kind, Schema};
use pc_num::Memory;
use pc_report::kind_name;
use std::alloc::Global;

/// Appends the line of the name at a place of a column.
#[tactic(auto, unfolding(crate::specs::TokenLines::group_text))]
pub fn put_group(
    alloc: Global,
    schema: &Schema,
    out: &mut Vec<u8>,
    group: u8,
    place: u32,
) -> Result<(), Memory>
    ensures { OnOk result (out.new.items ≡ out.old.items ++ group_text schema.now group place) }
{
    match schema.columns.as_slice().get(usize::from(group)) {
        Some(column) => put_name_of(alloc, out, column, place),
        None => Ok(()),
    }
}

fn put_name_of(alloc: Global, out: &mut Vec<u8>, column: &Column, place: u32) -> Result<(), Memory>
    ensures { OnOk result (out.new.items ≡ out.old.items ++ group_text_of (Some column.now) place) }
{
    out.extend_from_slice(b"group ")?;
    put_name(alloc, out, column.name.as_str())?;
    out.extend_from_slice(b" = ")?;
    put_name(alloc, out, kind_name(&column.kind, place))
}

/// The place of the name whose line this is, or none.
#[tactic(auto, using(crate::proofs::GroupReading::steps), unfolding(crate::specs::TokenLines::read_group))]
pub fn read_group(
    alloc: Global,
    schema: &Schema,
    group: u8,
    line: &[u8],
) -> Result<Option<u32>, Memory>
    requires well_formed { IsWellFormed schema.now }
    ensures { IfOk result (λ found. found ≡ read_group schema.now group line.now) }
{
    let count = names_count(schema, group);
    for place in 0..count {
        if is_group(alloc, schema, group, place, line)? {
            return Ok(Some(place));
        }
    }
    Ok(None)
}

// Whether the line is that of the name at the place.
fn is_group(
    alloc: Global,
    schema: &Schema,
    group: u8,
    place: u32,
    line: &[u8],
) -> Result<bool, Memory>
    ensures { IfOk result (λ same. same ≡ bytes_eq (group_text schema.now group place) line.now) }
{
    let mut text = Vec::new(alloc);
    put_group(alloc, schema, &mut text, group, place)?;
    Ok(text.as_slice() == line)
}

#[tactic(auto, using(crate::proofs::GroupReading::few_names))]
fn names_count(schema: &Schema, group: u8) -> u32
    requires { IsWellFormed schema.now }
    ensures { result ≡ names_count (slice_get schema.now.columns group) }
{
    match schema.columns.as_slice().get(usize::from(group)) {
        Some(column) => count_of(&column.kind),
        None => 0,
    }
}

fn count_of(kind: &Kind) -> u32
    requires { HasFewNames kind.now }
    ensures { result ≡ length (kind_names kind.now) }
{
    match kind {
        Kind::Int { .. } | Kind::Dec { .. } => 0,
        Kind::Cat { names } => names.len() as u32,
    }
}
