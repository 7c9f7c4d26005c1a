ghost use Rattle.std.specs.Prelude.{◌≡◌, [], map, All, IfOk};
ghost use Rattle.std.specs.List.{AllZip};
ghost use Rattle.pc_model.specs.Accepted.{AreConstraints, IsQuery};
ghost use Rattle.pc_model.specs.WellFormed.{IsWellFormed};
ghost use Rattle.pc_lang.specs.Canonical.{query_text};
ghost use Rattle.pc_lang.specs.Quantiles.{IsQuantile, quantile_text};
ghost use Rattle.pc_group.specs.Answers.{AnswersWanted};
ghost use Rattle.pc_group.specs.Trees.{told};
ghost use Rattle.pc_group.specs.Wanted.{wanted_by};
ghost use Rattle.pc_quantile.specs.Licensed.{Owes};
ghost use Rattle.pc_quantile.specs.Measured.{least_of};
ghost use Rattle.pc_desk_answers.specs.Blocks.{AreShown, IsGround, IsPrinted, ShowsQuantile, block, block_entry, entries_between, ground_in, quantile_shown};
ghost use Rattle.pc_desk_table.specs.Texts.{shown};

use crate::answers::Scope;
use crate::entry::{Title, entry_of, group_of};
use pc_cells::Shared;
use pc_desk_table::{Entry, shown};
use pc_group::{answer_seen, divide_for, folds_of};
use pc_lang::{Quantile, put_quantile_query, put_query};
use pc_list::{Seq, Text};
use pc_model::{Agg, Constraint, Query, Schema};
use pc_num::Memory;
use pc_proof::{Block, Document};
use pc_quantile::{QuantileAnswer, bound_quantile};
use pc_report::Told;
use std::alloc::Global;

/// What is shown of the blocks of a query, beside what they come to where nothing is lost.
pub(crate) fn block_entries(
    alloc: Global,
    scope: &Scope<'_>,
    query: &Query,
    blocks: &[Block],
    lefts: &[Block],
) -> Result<Seq<Entry>, Memory>
    requires ground { IsGround (ground_in scope.now) }
    requires asked { IsQuery scope.now.schema.now query.now }
    requires answers { AllZip (AnswersWanted scope.now.nodes scope.now.schema.now scope.now.rows.now scope.now.constraints.now) (wanted_by scope.now.schema.now query.now) (told blocks.now) }
    requires nothing_lost { AllZip (AnswersWanted scope.now.nodes scope.now.schema.now scope.now.rows.now []) (wanted_by scope.now.schema.now query.now) (told lefts.now) }
    ensures { IfOk result (AreShown (ground_in scope.now) (map block (wanted_by scope.now.schema.now query.now))) }
{
    entries_between(alloc, scope, query, blocks, lefts)
}

/// The blocks of a query under no constraints, over a tree of their own.
pub(crate) fn where_nothing_is_lost(
    alloc: Global,
    scope: &Scope<'_>,
    query: &Query,
) -> Result<Document, Memory>
    requires ground { IsGround (ground_in scope.now) }
    requires asked { IsQuery scope.now.schema.now query.now }
    ensures nothing_lost { IfOk result (λ document. AllZip (AnswersWanted scope.now.nodes scope.now.schema.now scope.now.rows.now []) (wanted_by scope.now.schema.now query.now) (told document.blocks)) }
{
    let folds = folds_of(alloc, scope.schema, scope.rows, query)?;
    let mut whole = Shared::new(alloc, scope.schema)?;
    divide_for(alloc, scope.schema, &[], query, &mut whole)?;
    answer_seen(
        alloc,
        scope.schema,
        folds.as_slice(),
        &[],
        query,
        &whole,
        scope.nodes,
    )
}

#[tactic(auto, using(crate::proofs::Between::steps))]
fn entries_between(
    alloc: Global,
    scope: &Scope<'_>,
    query: &Query,
    blocks: &[Block],
    lefts: &[Block],
) -> Result<Seq<Entry>, Memory>
    requires well_formed { IsWellFormed scope.now.schema.now }
    requires asked { IsQuery scope.now.schema.now query.now }
    requires printed { All (IsPrinted query.now) blocks.now }
    requires left_printed { All (IsPrinted query.now) lefts.now }
    ensures { IfOk result (λ entries. entries ≡ entries_between (ground_in scope.now) query.now blocks.now lefts.now) }
{
    let mut entries = Seq::new(alloc);
    for (place, block) in blocks.iter().enumerate() {
        if lefts.len() <= place {
            return Ok(entries);
        }
        let entry = block_entry(alloc, scope, query, block, &lefts[place])?;
        entries.push(entry)?;
    }
    Ok(entries)
}

#[tactic(auto, using(pc_report::proofs::Scales::scales))]
fn block_entry(
    alloc: Global,
    scope: &Scope<'_>,
    query: &Query,
    block: &Block,
    left: &Block,
) -> Result<Entry, Memory>
    requires well_formed { IsWellFormed scope.now.schema.now }
    requires asked { IsQuery scope.now.schema.now query.now }
    requires printed { IsPrinted query.now block.now }
    requires left_printed { IsPrinted query.now left.now }
    ensures { IfOk result (λ entry. entry ≡ block_entry (ground_in scope.now) query.now block.now left.now) }
{
    let title = Title {
        line: scope.line,
        query: query_name(alloc, scope.schema, query)?,
        group: group_of(alloc, scope.schema, query.group, block.name)?,
    };
    let told = Told::of(&block.answer);
    let left = Told::of(&left.answer);
    entry_of(alloc, scope.schema, query, title, &told, &left)
}

/// The text of a query, as it is shown.
pub fn query_name(alloc: Global, schema: &Schema, query: &Query) -> Result<Text, Memory>
    requires well_formed { IsWellFormed schema.now }
    requires asked { IsQuery schema.now query.now }
    ensures { IfOk result (λ text. text ≡ shown (query_text schema.now query.now)) }
{
    let mut bytes = Vec::new(alloc);
    put_query(alloc, schema, &mut bytes, query)?;
    shown(alloc, bytes.as_slice())
}

/// What is shown of a quantile, beside what it is where nothing is lost.
pub(crate) fn quantile_entry(
    alloc: Global,
    scope: &Scope<'_>,
    asked: &Quantile,
) -> Result<Entry, Memory>
    requires ground { IsGround (ground_in scope.now) }
    requires asked { IsQuantile scope.now.schema.now asked.now }
    ensures { IfOk result (ShowsQuantile (ground_in scope.now) asked.now) }
{
    let answer = quantile_under(alloc, scope, scope.constraints, asked)?;
    let left = quantile_under(alloc, scope, &[], asked)?;
    quantile_shown(alloc, scope, asked, &answer, &left)
}

fn quantile_under(
    alloc: Global,
    scope: &Scope<'_>,
    constraints: &[Constraint],
    asked: &Quantile,
) -> Result<QuantileAnswer, Memory>
    requires ground { IsGround (ground_in scope.now) }
    requires accepted { AreConstraints scope.now.schema.now constraints.now }
    requires asked { IsQuantile scope.now.schema.now asked.now }
    ensures { IfOk result (Owes scope.now.schema.now scope.now.rows.now constraints.now asked.now scope.now.nodes) }
{
    bound_quantile(
        alloc,
        scope.schema,
        scope.rows,
        constraints,
        asked,
        scope.nodes,
    )
}

#[tactic(auto, using(pc_report::proofs::Scales::scales))]
fn quantile_shown(
    alloc: Global,
    scope: &Scope<'_>,
    asked: &Quantile,
    answer: &QuantileAnswer,
    left: &QuantileAnswer,
) -> Result<Entry, Memory>
    requires well_formed { IsWellFormed scope.now.schema.now }
    requires asked { IsQuantile scope.now.schema.now asked.now }
    ensures { IfOk result (λ entry. entry ≡ quantile_shown (ground_in scope.now) asked.now answer.now left.now) }
{
    let query = least_of(asked)?;
    let title = Title {
        line: scope.line,
        query: quantile_name(alloc, scope.schema, asked)?,
        group: None,
    };
    entry_of(
        alloc,
        scope.schema,
        &query,
        title,
        &answer.told(),
        &left.told(),
    )
}

/// The query of the least number of the same rows, as which a quantile is shown.
pub fn least_of(asked: &Quantile) -> Result<Query, Memory>
    ensures { IfOk result (λ query. query ≡ least_of asked.now) }
{
    Ok(Query {
        agg: Agg::Min,
        column: Some(asked.column),
        chosen: asked.chosen.clone()?,
        group: None,
    })
}

/// The text of the query of a quantile, as it is shown.
pub fn quantile_name(alloc: Global, schema: &Schema, asked: &Quantile) -> Result<Text, Memory>
    requires well_formed { IsWellFormed schema.now }
    requires asked { IsQuantile schema.now asked.now }
    ensures { IfOk result (λ text. text ≡ shown (quantile_text schema.now asked.now)) }
{
    let mut bytes = Vec::new(alloc);
    put_quantile_query(alloc, schema, &mut bytes, asked)?;
    shown(alloc, bytes.as_slice())
}
