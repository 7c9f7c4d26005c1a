ghost use Rattle.std.specs.Prelude.{◌≡◌, ◌≤◌, ◌<◌, ◌*◌, ◌∷◌, [], ℕ, List, nat_abs, false, is_none, length, map, All, IfOk, IfSome, Some};
ghost use Rattle.std.specs.List.{AllPass};
ghost use Rattle.pc_num.specs.Scaled.{greatest_size};
ghost use Rattle.pc_model.specs.declared.query.Agg.TheVariants as aggs;
ghost use Rattle.pc_model.specs.declared.query.Folded.{Folded};
ghost use Rattle.pc_model.specs.declared.row.Row.{Row};
ghost use Rattle.pc_model.specs.Accepted.{AreConstraints, IsQuery};
ghost use Rattle.pc_model.specs.Folds.{IsFold};
ghost use Rattle.pc_model.specs.Membership.{in_domain};
ghost use Rattle.pc_model.specs.WellFormed.{IsWellFormed};
ghost use Rattle.pc_proof.specs.Setting.{narrowed};
ghost use Rattle.pc_proof.specs.Unbroken.{AllowsName};
ghost use Rattle.pc_agg_search.specs.Asked.{AreAsked};
ghost use Rattle.pc_avg.specs.Averages.{HasShortEnds};
ghost use Rattle.pc_cells_tree.specs.Linked.{IsTree, IsDividedFor};
ghost use Rattle.pc_group.specs.Answers.{AnswersWanted};
ghost use Rattle.pc_group.specs.Scopes.{IsDivided, IsScope, AddsBlocks, AreFolds, AreFoldsFor};
ghost use Rattle.pc_group.specs.Trees.{AreDividedFor};
ghost use Rattle.pc_group.specs.Wanted.{wanted, wanted_by, wanted_of, wanted_as};
ghost use Rattle.pc_group.specs.Written.{AreBlocksOf};
ghost use Rattle.pc_agg.specs.Calls.{OwesCall};

use crate::blocks::{Written, with_block};
use crate::folds::folds_of;
use crate::narrowing::query_for;
use crate::scope::Scope;
use crate::wanted::allowed_names;
use pc_agg::{bound_count, bound_max, bound_min, bound_sum, settle};
use pc_avg::bound_avg;
use pc_cells::{Cells, Shared};
use pc_model::{Agg, Constraint, Folded, Query, Schema};
use pc_num::Memory;
use pc_proof::Answer;
use pc_rows::Rows;
use std::alloc::Global;

/// The blocks of the queries, over a tree that is divided for all of them.
pub(crate) fn answer_queries(
    alloc: Global,
    schema: &Schema,
    rows: &Rows,
    constraints: &[Constraint],
    queries: &[Query],
    shared: &Shared,
    nodes: u32,
) -> Result<Written, Memory>
    requires well_formed { IsWellFormed schema.now }
    requires seen { AllPass (in_domain schema.now) rows.now }
    requires accepted { AreConstraints schema.now constraints.now }
    requires asked { All (IsQuery schema.now) queries.now }
    requires budget { (1 ≤ nodes) × (nodes ≤ 100_000) }
    requires tree { IsTree schema.now shared.now.nodes }
    requires divided { AreDividedFor schema.now constraints.now shared.now.nodes (wanted schema.now queries.now) }
    ensures { IfOk result (AreBlocksOf (AnswersWanted nodes schema.now rows.now constraints.now) shared.now.nodes (wanted schema.now queries.now)) }
{
    let scope = Scope {
        schema,
        constraints,
        shared,
        nodes,
    };
    let mut written = Written::nothing(alloc);
    for query in queries {
        written = answer_query(alloc, &scope, rows, query, written)?;
    }
    Ok(written)
}

/// The blocks of a query after those before.
fn answer_query(
    alloc: Global,
    scope: &Scope<'_>,
    rows: &Rows,
    query: &Query,
    written: Written,
) -> Result<Written, Memory>
    requires scope { IsScope scope.now }
    requires seen { AllPass (in_domain scope.now.schema.now) rows.now }
    requires asked { IsQuery scope.now.schema.now query.now }
    requires divided { IsDivided scope.now (wanted_by scope.now.schema.now query.now) }
    ensures { IfOk result (AddsBlocks scope.now rows.now written (wanted_by scope.now.schema.now query.now)) }
{
    let folds = folds_of(alloc, scope.schema, rows, query)?;
    answer_folds(alloc, scope, query, folds.as_slice(), written)
}

/// The blocks of a query, of which each has its fold, after those before.
pub(crate) fn answer_folds(
    alloc: Global,
    scope: &Scope<'_>,
    query: &Query,
    folds: &[Folded],
    written: Written,
) -> Result<Written, Memory>
    requires scope { IsScope scope.now }
    requires asked { IsQuery scope.now.schema.now query.now }
    requires folds { AreFoldsFor (wanted_by scope.now.schema.now query.now) folds.now }
    requires divided { IsDivided scope.now (wanted_by scope.now.schema.now query.now) }
    ensures { IfOk result (λ more. (observed : List Row) → AreFolds (wanted_by scope.now.schema.now query.now) observed folds.now → AddsBlocks scope.now observed written (wanted_by scope.now.schema.now query.now) more) }
{
    let Some(column) = query.group else {
        return answer_block(alloc, scope, query, None, &folds[0], written);
    };
    let names = allowed_names(alloc, scope.schema, query, column)?;
    answer_names(alloc, scope, query, names.as_slice(), folds, written)
}

/// The blocks of names of a query's group, of which each has its fold.
fn answer_names(
    alloc: Global,
    scope: &Scope<'_>,
    query: &Query,
    names: &[u32],
    folds: &[Folded],
    written: Written,
) -> Result<Written, Memory>
    requires scope { IsScope scope.now }
    requires asked { IsQuery scope.now.schema.now query.now }
    requires named { is_none query.now.group ≡ false }
    requires places { All (λ (name : ℕ). name < 128) names.now }
    requires allowed { All (λ (name : ℕ). AllowsName query.now.chosen query.now.group (Some name)) names.now }
    requires folds { AreFoldsFor (map (wanted_of query.now) names.now) folds.now }
    requires divided { IsDivided scope.now (map (wanted_of query.now) names.now) }
    ensures { IfOk result (λ more. (observed : List Row) → AreFolds (map (wanted_of query.now) names.now) observed folds.now → AddsBlocks scope.now observed written (map (wanted_of query.now) names.now) more) }
{
    let mut more = written;
    for (index, name) in names.iter().enumerate() {
        more = answer_block(alloc, scope, query, Some(*name), &folds[index], more)?;
    }
    Ok(more)
}

/// The block of a query, and of a name where it is grouped, whose observed rows come to `seen`.
fn answer_block(
    alloc: Global,
    scope: &Scope<'_>,
    query: &Query,
    name: Option<u32>,
    seen: &Folded,
    written: Written,
) -> Result<Written, Memory>
    requires scope { IsScope scope.now }
    requires asked { IsQuery scope.now.schema.now query.now }
    requires named { is_none name ≡ is_none query.now.group }
    requires place { IfSome name (λ place. place < 128) }
    requires allowed { AllowsName query.now.chosen query.now.group name }
    requires few_seen { seen.now.count ≤ 1_000_000 }
    requires small_seen { nat_abs seen.now.sum ≤ 1_000_000 * greatest_size }
    requires divided { IsDividedFor scope.now.schema.now scope.now.constraints.now (narrowed query.now.chosen query.now.group name) scope.now.shared.now.nodes }
    ensures { IfOk result (λ more. (observed : List Row) → IsFold query.now name observed seen.now → AddsBlocks scope.now observed written (wanted_as query.now name ∷ []) more) }
{
    let asked = query_for(alloc, query, name)?;
    let cells = scope
        .shared
        .cells(scope.schema, scope.constraints, &asked.chosen)?;
    let answer = answer_of(
        alloc,
        scope.schema,
        seen,
        scope.constraints,
        &cells,
        &asked,
        scope.nodes,
    )?;
    with_block(written, query, name, cells.tree, answer)
}

/// The answer of the query's aggregate.
fn answer_of(
    alloc: Global,
    schema: &Schema,
    seen: &Folded,
    constraints: &[Constraint],
    cells: &Cells,
    query: &Query,
    nodes: u32,
) -> Result<Answer, Memory>
    requires asked { AreAsked schema.now seen.now constraints.now cells.now query.now nodes }
    requires small_seen { nat_abs seen.now.sum ≤ 1_000_000 * greatest_size }
    ensures owes { OwesCall schema.now seen.now constraints.now cells.now query.now nodes result }
    ensures short { query.now.agg ≡ aggs.Avg → IfOk result HasShortEnds }
{
    match query.agg {
        Agg::Count => bound_count(alloc, schema, seen, constraints, cells, query, nodes),
        Agg::Sum => bound_sum(alloc, schema, seen, constraints, cells, query, nodes),
        Agg::Min => bound_min(alloc, schema, seen, constraints, cells, query, nodes),
        Agg::Max => bound_max(alloc, schema, seen, constraints, cells, query, nodes),
        Agg::Avg => average_of(alloc, schema, seen, constraints, cells, query, nodes),
    }
}

/// An average starts from what is settled of the relation and of the lack.
fn average_of(
    alloc: Global,
    schema: &Schema,
    seen: &Folded,
    constraints: &[Constraint],
    cells: &Cells,
    query: &Query,
    nodes: u32,
) -> Result<Answer, Memory>
    requires asked { AreAsked schema.now seen.now constraints.now cells.now query.now nodes }
    requires average { query.now.agg ≡ aggs.Avg }
    requires small_seen { nat_abs seen.now.sum ≤ 1_000_000 * greatest_size }
    ensures owes { OwesCall schema.now seen.now constraints.now cells.now query.now nodes result }
    ensures short { IfOk result HasShortEnds }
{
    let settled = settle(alloc, schema, seen, constraints, cells, query, nodes)?;
    bound_avg(
        alloc,
        schema,
        seen,
        constraints,
        cells,
        query,
        &settled,
        nodes,
    )
}
