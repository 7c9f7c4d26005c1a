ghost use Rattle.std.specs.Prelude.{IfOk};
ghost use Rattle.pc_model.specs.WellFormed.{IsWellFormed};
ghost use Rattle.pc_model.specs.Accepted.{IsQuery};
ghost use Rattle.pc_document_format.specs.Formats.{read_line};
ghost use Rattle.pc_document.specs.Places.{IsLineStart, Reads, lines_at};
ghost use Rattle.pc_document.specs.Reading.{read_block, read_block_tree, read_body, read_name, read_named, read_tree_line, tagged_tree};
ghost use Rattle.pc_document_lines.specs.TokenLines.{read_group, read_query_line};

use crate::answer::answer_at;
use crate::cuts::cuts_at;
use crate::halt::Halt;
use crate::places::first_line_at;
use crate::tags::TreeLine;
use crate::words::read_tree_line;
use pc_document_lines::{read_group, read_query_line};
use pc_model::{Query, Schema};
use pc_proof::{Block, BlockTree};
use std::alloc::Global;

/// The block from a place on, and the place after it.
#[tactic(auto, unfolding(crate::specs::Reading::read_block, crate::specs::Reading::read_named, crate::specs::Reading::read_body))]
pub(crate) fn block_at(
    alloc: Global,
    schema: &Schema,
    bytes: &[u8],
    at: usize,
) -> Result<(Block, usize), Halt>
    requires well_formed { IsWellFormed schema.now }
    requires start { IsLineStart bytes.now at }
    ensures { Reads bytes.now result (read_block schema.now (lines_at bytes.now at)) }
{
    let (query, at) = query_line_at(alloc, schema, bytes, at)?;
    let (name, at) = name_at(alloc, schema, query.group, bytes, at)?;
    let (tree, at) = block_tree_at(alloc, schema, bytes, at)?;
    let (answer, at) = answer_at(alloc, schema, &query, bytes, at)?;
    let block = Block {
        query,
        name,
        tree,
        answer,
    };
    Ok((block, at))
}

fn query_line_at(
    alloc: Global,
    schema: &Schema,
    bytes: &[u8],
    at: usize,
) -> Result<(Query, usize), Halt>
    requires well_formed { IsWellFormed schema.now }
    requires start { IsLineStart bytes.now at }
    ensures reads { Reads bytes.now result (read_line (read_query_line schema.now) (lines_at bytes.now at)) }
    ensures accepted { IfOk result (λ found. IsQuery schema.now found.0) }
{
    let (line, next) = first_line_at(bytes, at)?;
    match read_query_line(alloc, schema, line)? {
        Some(query) => Ok((query, next)),
        None => Err(Halt::Fault { at }),
    }
}

/// The name of a group, where the query is grouped.
fn name_at(
    alloc: Global,
    schema: &Schema,
    group: Option<u8>,
    bytes: &[u8],
    at: usize,
) -> Result<(Option<u32>, usize), Halt>
    requires well_formed { IsWellFormed schema.now }
    requires start { IsLineStart bytes.now at }
    ensures { Reads bytes.now result (read_name schema.now group (lines_at bytes.now at)) }
{
    match group {
        None => Ok((None, at)),
        Some(group) => {
            let (name, at) = group_line_at(alloc, schema, group, bytes, at)?;
            Ok((Some(name), at))
        }
    }
}

fn group_line_at(
    alloc: Global,
    schema: &Schema,
    group: u8,
    bytes: &[u8],
    at: usize,
) -> Result<(u32, usize), Halt>
    requires well_formed { IsWellFormed schema.now }
    requires start { IsLineStart bytes.now at }
    ensures { Reads bytes.now result (read_line (read_group schema.now group) (lines_at bytes.now at)) }
{
    let (line, next) = first_line_at(bytes, at)?;
    match read_group(alloc, schema, group, line)? {
        Some(name) => Ok((name, next)),
        None => Err(Halt::Fault { at }),
    }
}

#[tactic(auto, unfolding(crate::specs::Reading::read_block_tree))]
fn block_tree_at(
    alloc: Global,
    schema: &Schema,
    bytes: &[u8],
    at: usize,
) -> Result<(BlockTree, usize), Halt>
    requires well_formed { IsWellFormed schema.now }
    requires start { IsLineStart bytes.now at }
    ensures { Reads bytes.now result (read_block_tree schema.now (lines_at bytes.now at)) }
{
    let (line, at) = tree_line_at(bytes, at)?;
    tagged_tree_at(alloc, schema, line, bytes, at)
}

fn tree_line_at(bytes: &[u8], at: usize) -> Result<(TreeLine, usize), Halt>
    requires start { IsLineStart bytes.now at }
    ensures { Reads bytes.now result (read_line read_tree_line (lines_at bytes.now at)) }
{
    let (line, next) = first_line_at(bytes, at)?;
    match read_tree_line(line) {
        Some(line) => Ok((line, next)),
        None => Err(Halt::Fault { at }),
    }
}

fn tagged_tree_at(
    alloc: Global,
    schema: &Schema,
    line: TreeLine,
    bytes: &[u8],
    at: usize,
) -> Result<(BlockTree, usize), Halt>
    requires well_formed { IsWellFormed schema.now }
    requires start { IsLineStart bytes.now at }
    ensures { Reads bytes.now result (tagged_tree schema.now line (lines_at bytes.now at)) }
{
    match line {
        TreeLine::Own => {
            let (tree, at) = cuts_at(alloc, schema, bytes, at)?;
            Ok((BlockTree::Own(tree), at))
        }
        TreeLine::Same => Ok((BlockTree::Same, at)),
    }
}
