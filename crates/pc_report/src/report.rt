ghost use Rattle.std.specs.Prelude.{◌≡◌, ◌++◌, All, IfOk, OnErr, OnOk};
ghost use Rattle.pc_model.specs.Accepted.{IsQuery};
ghost use Rattle.pc_model.specs.WellFormed.{IsWellFormed};
ghost use Rattle.pc_proof.specs.declared.document.Block.{Block};
ghost use Rattle.pc_report.specs.Report.{block_text, blocks_text, group_line, group_text, kind_name, query_line, report_text};
ghost use Rattle.pc_report.specs.Units.{HasAverages};

use crate::answer::put_answer;
use crate::runs::name_at;
use crate::told::Told;
use pc_lang::put_query;
use pc_lang_tokens::put_name;
use pc_model::{Column, Kind, Query, Schema};
use pc_num::Memory;
use pc_proof::{Block, Document};
use std::alloc::Global;

/// Appends the report of a document, block by block: the query, the name that it is for, whether lost rows can meet
/// the constraints, whether the aggregate can lack a value, and its ends, with the lines of the runs that reach them.
pub fn put_report(
    alloc: Global,
    schema: &Schema,
    out: &mut Vec<u8>,
    doc: &Document,
) -> Result<(), Memory>
    requires well_formed { IsWellFormed schema.now }
    requires queries { All (λ (block : Block). IsQuery schema.now block.query) doc.now.blocks }
    requires averages { All HasAverages doc.now.blocks }
    ensures ok { OnOk result (out.new.items ≡ out.old.items ++ report_text schema.now doc.now) }
    ensures err { OnErr result (out.new.items ≡ out.old.items) }
{
    let text = text_of(alloc, schema, doc.blocks.as_slice())?;
    out.extend_from_slice(text.as_slice())?;
    Ok(())
}

#[tactic(auto, using(std::proofs::lemmas::List::flat_map_more), unfolding(crate::specs::Report::blocks_text))]
fn text_of(alloc: Global, schema: &Schema, blocks: &[Block]) -> Result<Vec<u8>, Memory>
    requires well_formed { IsWellFormed schema.now }
    requires queries { All (λ (block : Block). IsQuery schema.now block.query) blocks.now }
    requires averages { All HasAverages blocks.now }
    ensures { IfOk result (λ text. text.items ≡ blocks_text schema.now blocks.now) }
{
    let mut text = Vec::new(alloc);
    for block in blocks {
        put_block(alloc, schema, &mut text, block)?;
    }
    Ok(text)
}

#[tactic(auto, using(crate::proofs::Scales::scales), unfolding(crate::specs::Report::block_text))]
fn put_block(alloc: Global, schema: &Schema, out: &mut Vec<u8>, block: &Block) -> Result<(), Memory>
    requires well_formed { IsWellFormed schema.now }
    requires accepted { IsQuery schema.now block.now.query }
    requires averages { HasAverages block.now }
    ensures { OnOk result (out.new.items ≡ out.old.items ++ block_text schema.now block.now) }
{
    put_query_line(alloc, schema, out, &block.query)?;
    put_group(alloc, schema, out, block.query.group, block.name)?;
    put_answer(alloc, schema, out, &block.query, &Told::of(&block.answer))
}

#[tactic(auto, unfolding(crate::specs::Report::query_line))]
fn put_query_line(
    alloc: Global,
    schema: &Schema,
    out: &mut Vec<u8>,
    query: &Query,
) -> Result<(), Memory>
    requires well_formed { IsWellFormed schema.now }
    requires accepted { IsQuery schema.now query.now }
    ensures { OnOk result (out.new.items ≡ out.old.items ++ query_line schema.now query.now) }
{
    out.extend_from_slice(b"query ")?;
    put_query(alloc, schema, out, query)?;
    out.push(b'\n')?;
    Ok(())
}

// Appends the line of the name at a place of the group column.
fn put_group(
    alloc: Global,
    schema: &Schema,
    out: &mut Vec<u8>,
    group: Option<u8>,
    name: Option<u32>,
) -> Result<(), Memory>
    ensures { OnOk result (out.new.items ≡ out.old.items ++ group_line schema.now group name) }
{
    match (group, name) {
        (Some(group), Some(place)) => match schema.columns.as_slice().get(usize::from(group)) {
            Some(column) => put_group_line(alloc, out, column, place),
            None => Ok(()),
        },
        _ => Ok(()),
    }
}

fn put_group_line(
    alloc: Global,
    out: &mut Vec<u8>,
    column: &Column,
    place: u32,
) -> Result<(), Memory>
    ensures { OnOk result (out.new.items ≡ out.old.items ++ group_text (Some column.now) place) }
{
    out.extend_from_slice(b"group ")?;
    put_name(alloc, out, column.name.as_str())?;
    out.extend_from_slice(b" = ")?;
    put_name(alloc, out, kind_name(&column.kind, place))?;
    out.push(b'\n')?;
    Ok(())
}

/// The name at a place of a column of names, or no text where there is none.
pub fn kind_name(kind: &Kind, place: u32) -> &str
    ensures { result.now ≡ kind_name kind.now place }
{
    match kind {
        Kind::Int { .. } | Kind::Dec { .. } => "",
        Kind::Cat { names } => name_at(names.as_slice(), i64::from(place)),
    }
}
