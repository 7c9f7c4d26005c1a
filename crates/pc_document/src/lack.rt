ghost use Rattle.pc_model.specs.WellFormed.{IsWellFormed};
ghost use Rattle.pc_model.specs.Accepted.{IsQuery};
ghost use Rattle.pc_document_format.specs.Formats.{read_line};
ghost use Rattle.pc_document.specs.Places.{IsLineStart, Reads, lines_at};
ghost use Rattle.pc_document.specs.Reading.{read_never, read_always, read_some, read_lack, read_never_line, read_always_line, read_lack_line, tagged_never, tagged_always, tagged_lack};

use crate::halt::Halt;
use crate::places::first_line_at;
use crate::proof::crossing_at;
use crate::runs::runs_at;
use crate::tags::{AlwaysLine, LackLine, NeverLine};
use crate::tree::tree_at;
use crate::words::{is_text, read_always_line, read_lack_line, read_never_line};
use pc_list::Seq;
use pc_model::{Query, Run, Schema};
use pc_proof::{AlwaysBy, Lack, NeverBy};
use std::alloc::Global;

/// What is said of the lack of a value from a place on, and the place after it.
#[tactic(auto, unfolding(crate::specs::Reading::read_lack))]
pub(crate) fn lack_at(
    alloc: Global,
    schema: &Schema,
    query: &Query,
    bytes: &[u8],
    at: usize,
) -> Result<(Lack, usize), Halt>
    requires well_formed { IsWellFormed schema.now }
    requires query { IsQuery schema.now query.now }
    requires start { IsLineStart bytes.now at }
    ensures { Reads bytes.now result (read_lack schema.now query.now (lines_at bytes.now at)) }
{
    let (line, at) = lack_line_at(bytes, at)?;
    tagged_lack_at(alloc, schema, query, line, bytes, at)
}

fn lack_line_at(bytes: &[u8], at: usize) -> Result<(LackLine, usize), Halt>
    requires start { IsLineStart bytes.now at }
    ensures { Reads bytes.now result (read_line read_lack_line (lines_at bytes.now at)) }
{
    let (line, next) = first_line_at(bytes, at)?;
    match read_lack_line(line) {
        Some(line) => Ok((line, next)),
        None => Err(Halt::Fault { at }),
    }
}

fn tagged_lack_at(
    alloc: Global,
    schema: &Schema,
    query: &Query,
    line: LackLine,
    bytes: &[u8],
    at: usize,
) -> Result<(Lack, usize), Halt>
    requires well_formed { IsWellFormed schema.now }
    requires query { IsQuery schema.now query.now }
    requires start { IsLineStart bytes.now at }
    ensures { Reads bytes.now result (tagged_lack schema.now query.now line (lines_at bytes.now at)) }
{
    match line {
        LackLine::Never => {
            let (by, at) = never_at(alloc, bytes, at)?;
            Ok((Lack::Never(by), at))
        }
        LackLine::Sometimes => {
            let (without, at) = runs_at(alloc, schema, bytes, at)?;
            let (with, at) = some_at(alloc, schema, bytes, at)?;
            Ok((Lack::Sometimes { without, with }, at))
        }
        LackLine::Always => {
            let (by, at) = always_at(alloc, schema, query, bytes, at)?;
            Ok((Lack::Always(by), at))
        }
        LackLine::Undecided => Ok((Lack::Undecided, at)),
    }
}

/// The runs of rows with a value, after the line that announces them.
#[tactic(auto, unfolding(crate::specs::Reading::read_some, pc_document_format::specs::Formats::found_in))]
fn some_at(
    alloc: Global,
    schema: &Schema,
    bytes: &[u8],
    at: usize,
) -> Result<(Seq<Run>, usize), Halt>
    requires well_formed { IsWellFormed schema.now }
    requires start { IsLineStart bytes.now at }
    ensures { Reads bytes.now result (read_some schema.now (lines_at bytes.now at)) }
{
    let (line, next) = first_line_at(bytes, at)?;
    if !is_text("some", line) {
        return Err(Halt::Fault { at });
    }
    runs_at(alloc, schema, bytes, next)
}

#[tactic(auto, unfolding(crate::specs::Reading::read_never))]
fn never_at(alloc: Global, bytes: &[u8], at: usize) -> Result<(NeverBy, usize), Halt>
    requires start { IsLineStart bytes.now at }
    ensures { Reads bytes.now result (read_never (lines_at bytes.now at)) }
{
    let (line, at) = never_line_at(bytes, at)?;
    tagged_never_at(alloc, line, bytes, at)
}

fn never_line_at(bytes: &[u8], at: usize) -> Result<(NeverLine, usize), Halt>
    requires start { IsLineStart bytes.now at }
    ensures { Reads bytes.now result (read_line read_never_line (lines_at bytes.now at)) }
{
    let (line, next) = first_line_at(bytes, at)?;
    match read_never_line(line) {
        Some(line) => Ok((line, next)),
        None => Err(Halt::Fault { at }),
    }
}

fn tagged_never_at(
    alloc: Global,
    line: NeverLine,
    bytes: &[u8],
    at: usize,
) -> Result<(NeverBy, usize), Halt>
    requires start { IsLineStart bytes.now at }
    ensures { Reads bytes.now result (tagged_never line (lines_at bytes.now at)) }
{
    match line {
        NeverLine::Rows => Ok((NeverBy::Rows, at)),
        NeverLine::Tree => {
            let (tree, at) = tree_at(alloc, bytes, at)?;
            Ok((NeverBy::Tree(tree), at))
        }
    }
}

#[tactic(auto, unfolding(crate::specs::Reading::read_always))]
fn always_at(
    alloc: Global,
    schema: &Schema,
    query: &Query,
    bytes: &[u8],
    at: usize,
) -> Result<(AlwaysBy, usize), Halt>
    requires well_formed { IsWellFormed schema.now }
    requires query { IsQuery schema.now query.now }
    requires start { IsLineStart bytes.now at }
    ensures { Reads bytes.now result (read_always schema.now query.now (lines_at bytes.now at)) }
{
    let (line, at) = always_line_at(bytes, at)?;
    tagged_always_at(alloc, schema, query, line, bytes, at)
}

fn always_line_at(bytes: &[u8], at: usize) -> Result<(AlwaysLine, usize), Halt>
    requires start { IsLineStart bytes.now at }
    ensures { Reads bytes.now result (read_line read_always_line (lines_at bytes.now at)) }
{
    let (line, next) = first_line_at(bytes, at)?;
    match read_always_line(line) {
        Some(line) => Ok((line, next)),
        None => Err(Halt::Fault { at }),
    }
}

fn tagged_always_at(
    alloc: Global,
    schema: &Schema,
    query: &Query,
    line: AlwaysLine,
    bytes: &[u8],
    at: usize,
) -> Result<(AlwaysBy, usize), Halt>
    requires well_formed { IsWellFormed schema.now }
    requires query { IsQuery schema.now query.now }
    requires start { IsLineStart bytes.now at }
    ensures { Reads bytes.now result (tagged_always schema.now query.now line (lines_at bytes.now at)) }
{
    match line {
        AlwaysLine::Tree => {
            let (tree, at) = tree_at(alloc, bytes, at)?;
            Ok((AlwaysBy::Tree(tree), at))
        }
        AlwaysLine::Ends => {
            let ((low, high), at) = crossing_at(alloc, schema, query, bytes, at)?;
            Ok((AlwaysBy::Ends(low, high), at))
        }
    }
}
