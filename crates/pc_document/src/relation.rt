ghost use Rattle.pc_model.specs.WellFormed.{IsWellFormed};
ghost use Rattle.pc_model.specs.Accepted.{IsQuery};
ghost use Rattle.pc_document_format.specs.Formats.{read_line};
ghost use Rattle.pc_document.specs.Places.{IsLineStart, Reads, lines_at};
ghost use Rattle.pc_document.specs.Reading.{read_why, read_relation, read_why_line, read_relation_line, tagged_why, tagged_relation};

use crate::halt::Halt;
use crate::places::first_line_at;
use crate::proof::crossing_at;
use crate::runs::runs_at;
use crate::tags::{RelationLine, WhyLine};
use crate::tree::tree_at;
use crate::words::{read_relation_line, read_why_line};
use pc_model::{Query, Schema};
use pc_proof::{Relation, Why};
use std::alloc::Global;

/// What is said of the relation from a place on, and the place after it.
#[tactic(auto, unfolding(crate::specs::Reading::read_relation))]
pub(crate) fn relation_at(
    alloc: Global,
    schema: &Schema,
    query: &Query,
    bytes: &[u8],
    at: usize,
) -> Result<(Relation, usize), Halt>
    requires well_formed { IsWellFormed schema.now }
    requires query { IsQuery schema.now query.now }
    requires start { IsLineStart bytes.now at }
    ensures { Reads bytes.now result (read_relation schema.now query.now (lines_at bytes.now at)) }
{
    let (line, at) = relation_line_at(bytes, at)?;
    tagged_relation_at(alloc, schema, query, line, bytes, at)
}

fn relation_line_at(bytes: &[u8], at: usize) -> Result<(RelationLine, usize), Halt>
    requires start { IsLineStart bytes.now at }
    ensures { Reads bytes.now result (read_line read_relation_line (lines_at bytes.now at)) }
{
    let (line, next) = first_line_at(bytes, at)?;
    match read_relation_line(line) {
        Some(line) => Ok((line, next)),
        None => Err(Halt::Fault { at }),
    }
}

fn tagged_relation_at(
    alloc: Global,
    schema: &Schema,
    query: &Query,
    line: RelationLine,
    bytes: &[u8],
    at: usize,
) -> Result<(Relation, usize), Halt>
    requires well_formed { IsWellFormed schema.now }
    requires query { IsQuery schema.now query.now }
    requires start { IsLineStart bytes.now at }
    ensures { Reads bytes.now result (tagged_relation schema.now query.now line (lines_at bytes.now at)) }
{
    match line {
        RelationLine::Possible => {
            let (runs, at) = runs_at(alloc, schema, bytes, at)?;
            Ok((Relation::Possible(runs), at))
        }
        RelationLine::Impossible => {
            let (why, at) = why_at(alloc, schema, query, bytes, at)?;
            Ok((Relation::Impossible(why), at))
        }
        RelationLine::Undecided => Ok((Relation::Undecided, at)),
    }
}

#[tactic(auto, unfolding(crate::specs::Reading::read_why))]
fn why_at(
    alloc: Global,
    schema: &Schema,
    query: &Query,
    bytes: &[u8],
    at: usize,
) -> Result<(Why, usize), Halt>
    requires well_formed { IsWellFormed schema.now }
    requires query { IsQuery schema.now query.now }
    requires start { IsLineStart bytes.now at }
    ensures { Reads bytes.now result (read_why schema.now query.now (lines_at bytes.now at)) }
{
    let (line, at) = why_line_at(bytes, at)?;
    tagged_why_at(alloc, schema, query, line, bytes, at)
}

fn why_line_at(bytes: &[u8], at: usize) -> Result<(WhyLine, usize), Halt>
    requires start { IsLineStart bytes.now at }
    ensures { Reads bytes.now result (read_line read_why_line (lines_at bytes.now at)) }
{
    let (line, next) = first_line_at(bytes, at)?;
    match read_why_line(line) {
        Some(line) => Ok((line, next)),
        None => Err(Halt::Fault { at }),
    }
}

fn tagged_why_at(
    alloc: Global,
    schema: &Schema,
    query: &Query,
    line: WhyLine,
    bytes: &[u8],
    at: usize,
) -> Result<(Why, usize), Halt>
    requires well_formed { IsWellFormed schema.now }
    requires query { IsQuery schema.now query.now }
    requires start { IsLineStart bytes.now at }
    ensures { Reads bytes.now result (tagged_why schema.now query.now line (lines_at bytes.now at)) }
{
    match line {
        WhyLine::Void => {
            let (tree, at) = tree_at(alloc, bytes, at)?;
            Ok((Why::Void(tree), at))
        }
        WhyLine::Cross => {
            let (most, at) = tree_at(alloc, bytes, at)?;
            let (fewest, at) = tree_at(alloc, bytes, at)?;
            Ok((Why::Cross(most, fewest), at))
        }
        WhyLine::Ends => {
            let ((low, high), at) = crossing_at(alloc, schema, query, bytes, at)?;
            Ok((Why::Ends(low, high), at))
        }
    }
}
