ghost use Rattle.std.specs.Prelude.{◌≡◌, false};
ghost use Rattle.pc_model.specs.WellFormed.{IsWellFormed};
ghost use Rattle.pc_model.specs.Accepted.{IsQuery};
ghost use Rattle.pc_model.specs.Right as plain;
ghost use Rattle.pc_document.specs.Parts.{ends_block};
ghost use Rattle.pc_document.specs.Places.{IsLineStart, Reads, lines_at};
ghost use Rattle.pc_document.specs.Reading.{read_after, read_answer, read_ends_unless, read_lack_unless};

use crate::ends::ends_at;
use crate::halt::Halt;
use crate::lack::lack_at;
use crate::relation::relation_at;
use crate::tags::After;
use pc_model::{Query, Schema};
use pc_proof::{Answer, End, Lack, always_has_value};
use std::alloc::Global;

/// The answer to a query from a place on, and the place after it.
#[tactic(auto, unfolding(crate::specs::Reading::read_answer))]
pub(crate) fn answer_at(
    alloc: Global,
    schema: &Schema,
    query: &Query,
    bytes: &[u8],
    at: usize,
) -> Result<(Answer, usize), Halt>
    requires well_formed { IsWellFormed schema.now }
    requires query { IsQuery schema.now query.now }
    requires start { IsLineStart bytes.now at }
    ensures { Reads bytes.now result (read_answer schema.now query.now (lines_at bytes.now at)) }
{
    let (relation, at) = relation_at(alloc, schema, query, bytes, at)?;
    let (after, at) = after_at(alloc, schema, query, relation.is_impossible(), bytes, at)?;
    let answer = Answer {
        relation,
        lack: after.lack,
        ends: after.ends,
    };
    Ok((answer, at))
}

/// What stands after the relation: nothing where it ends the block.
fn after_at(
    alloc: Global,
    schema: &Schema,
    query: &Query,
    ends_block: bool,
    bytes: &[u8],
    at: usize,
) -> Result<(After, usize), Halt>
    requires well_formed { IsWellFormed schema.now }
    requires query { IsQuery schema.now query.now }
    requires start { IsLineStart bytes.now at }
    ensures { Reads bytes.now result (read_after schema.now query.now ends_block (lines_at bytes.now at)) }
{
    if ends_block {
        let nothing = After {
            lack: Lack::Silent,
            ends: None,
        };
        return Ok((nothing, at));
    }
    lack_and_ends_at(alloc, schema, query, bytes, at)
}

fn lack_and_ends_at(
    alloc: Global,
    schema: &Schema,
    query: &Query,
    bytes: &[u8],
    at: usize,
) -> Result<(After, usize), Halt>
    requires well_formed { IsWellFormed schema.now }
    requires query { IsQuery schema.now query.now }
    requires start { IsLineStart bytes.now at }
    ensures { Reads bytes.now result (read_after schema.now query.now false (lines_at bytes.now at)) }
{
    let is_silent = always_has_value(query.agg);
    let (lack, at) = lack_unless_at(alloc, schema, query, is_silent, bytes, at)?;
    let (ends, at) = ends_unless_at(alloc, schema, query, lack.is_always(), bytes, at)?;
    Ok((After { lack, ends }, at))
}

/// The lack, unless the aggregate always has a value.
fn lack_unless_at(
    alloc: Global,
    schema: &Schema,
    query: &Query,
    is_silent: bool,
    bytes: &[u8],
    at: usize,
) -> Result<(Lack, usize), Halt>
    requires well_formed { IsWellFormed schema.now }
    requires query { IsQuery schema.now query.now }
    requires start { IsLineStart bytes.now at }
    ensures { Reads bytes.now result (read_lack_unless schema.now query.now is_silent (lines_at bytes.now at)) }
{
    if is_silent {
        return Ok((Lack::Silent, at));
    }
    lack_at(alloc, schema, query, bytes, at)
}

/// The ends, unless the aggregate never has a value.
fn ends_unless_at(
    alloc: Global,
    schema: &Schema,
    query: &Query,
    has_none: bool,
    bytes: &[u8],
    at: usize,
) -> Result<(Option<(End, End)>, usize), Halt>
    requires well_formed { IsWellFormed schema.now }
    requires query { IsQuery schema.now query.now }
    requires start { IsLineStart bytes.now at }
    ensures { Reads bytes.now result (read_ends_unless schema.now query.now has_none (lines_at bytes.now at)) }
{
    if has_none {
        return Ok((None, at));
    }
    ends_at(alloc, schema, query, bytes, at)
}
