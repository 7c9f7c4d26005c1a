ghost use Rattle.std.specs.Prelude.{◌≡◌, ◌≤◌, All, AllPairs, IfOk, List, OnOk};
ghost use Rattle.std.specs.List.{AllPass, AllZip};
ghost use Rattle.pc_model.specs.declared.row.Row.{Row};
ghost use Rattle.pc_model.specs.Accepted.{AreConstraints, IsQuery};
ghost use Rattle.pc_model.specs.CutTrees.{shape_of};
ghost use Rattle.pc_model.specs.Membership.{in_domain};
ghost use Rattle.pc_model.specs.WellFormed.{IsWellFormed};
ghost use Rattle.pc_cells_tree.specs.Linked.{IsTree, KeepsInner};
ghost use Rattle.pc_cells_tree.specs.Owned.{HasOwnCuts};
ghost use Rattle.pc_cells_tree.specs.Walking.{bare};
ghost use Rattle.pc_proof.specs.Form.{IsInForm};
ghost use Rattle.pc_group.specs.Answers.{AnswersWanted};
ghost use Rattle.pc_group.specs.Scopes.{AreFolds, AreFoldsFor};
ghost use Rattle.pc_group.specs.Trees.{Told, AreDividedFor, AreOfTree, AreWritten, HasCutsForBlocks, told};
ghost use Rattle.pc_group.specs.Wanted.{wanted, wanted_by};

use crate::answering::{answer_folds, answer_queries};
use crate::blocks::Written;
use crate::refining::refine_for_all;
use crate::scope::Scope;
use crate::wanted::areas_of;
use pc_cells::Shared;
use pc_model::{Constraint, Folded, Query, Schema};
use pc_num::Memory;
use pc_proof::Document;
use pc_rows::{Case, Rows};
use std::alloc::Global;

/// The blocks of the queries, by searches of at most so many nodes each, over one tree of cuts that is cut on for
/// all of them before the first is answered.
pub fn answer_with(
    alloc: Global,
    schema: &Schema,
    rows: &Rows,
    constraints: &[Constraint],
    queries: &[Query],
    shared: &mut Shared,
    nodes: u32,
) -> Result<Document, Memory>
    requires well_formed { IsWellFormed schema.now }
    requires seen { AllPass (in_domain schema.now) rows.now }
    requires accepted { AreConstraints schema.now constraints.now }
    requires asked { All (IsQuery schema.now) queries.now }
    requires budget { (1 ≤ nodes) × (nodes ≤ 100_000) }
    requires tree { IsTree schema.now shared.old.nodes }
    ensures tree { IsTree schema.now shared.new.nodes }
    ensures kept { KeepsInner shared.old.nodes shared.new.nodes }
    ensures own { HasOwnCuts schema.now shared.old.nodes → HasOwnCuts schema.now shared.new.nodes }
    ensures needed { HasCutsForBlocks schema.now constraints.now (wanted schema.now queries.now)
        shared.old.nodes shared.new.nodes }
    ensures divided { OnOk result (AreDividedFor schema.now constraints.now shared.new.nodes (wanted schema.now queries.now)) }
    ensures answers { IfOk result (λ document. AllZip (AnswersWanted nodes schema.now rows.now constraints.now) (wanted schema.now queries.now) (told document.blocks)) }
    ensures shared { IfOk result (λ document. AreOfTree shared.new.nodes (told document.blocks)) }
    ensures written { IfOk result (λ document. AreWritten document.blocks) }
    ensures formed { HasOwnCuts schema.now shared.old.nodes → IfOk result (IsInForm schema.now) }
{
    let areas = areas_of(alloc, schema, queries)?;
    refine_for_all(schema, constraints, areas.as_slice(), shared)?;
    let written = answer_queries(alloc, schema, rows, constraints, queries, shared, nodes)?;
    Ok(Document {
        blocks: written.blocks,
    })
}

/// The blocks of a query, as `answer_with` gives them, by what the observed rows come to for each of its blocks, over a
/// tree that is divided for them.
pub fn answer_seen(
    alloc: Global,
    schema: &Schema,
    folds: &[Folded],
    constraints: &[Constraint],
    query: &Query,
    shared: &Shared,
    nodes: u32,
) -> Result<Document, Memory>
    requires well_formed { IsWellFormed schema.now }
    requires folds { AreFoldsFor (wanted_by schema.now query.now) folds.now }
    requires accepted { AreConstraints schema.now constraints.now }
    requires asked { IsQuery schema.now query.now }
    requires budget { (1 ≤ nodes) × (nodes ≤ 100_000) }
    requires tree { IsTree schema.now shared.now.nodes }
    requires divided { AreDividedFor schema.now constraints.now shared.now.nodes (wanted_by schema.now query.now) }
    ensures answers { IfOk result (λ document. (observed : List Row) → AreFolds (wanted_by schema.now query.now) observed folds.now → AllZip (AnswersWanted nodes schema.now observed constraints.now) (wanted_by schema.now query.now) (told document.blocks)) }
{
    let scope = Scope {
        schema,
        constraints,
        shared,
        nodes,
    };
    let written = answer_folds(alloc, &scope, query, folds, Written::nothing(alloc))?;
    Ok(Document {
        blocks: written.blocks,
    })
}

/// The blocks of a case's queries, by searches of at most so many nodes each, over one tree of cuts.
pub fn answer_all(alloc: Global, case: &Case, nodes: u32) -> Result<Document, Memory>
    requires well_formed { IsWellFormed case.now.schema }
    requires seen { AllPass (in_domain case.now.schema) case.now.rows }
    requires accepted { AreConstraints case.now.schema case.now.constraints }
    requires asked { All (IsQuery case.now.schema) case.now.queries }
    requires budget { (1 ≤ nodes) × (nodes ≤ 100_000) }
    ensures answers { IfOk result (λ document. AllZip (AnswersWanted nodes case.now.schema case.now.rows case.now.constraints) (wanted case.now.schema case.now.queries) (told document.blocks)) }
    ensures same_cuts { IfOk result (λ document. AllPairs (λ (a b : Told). bare (shape_of a.nodes) ≡ bare (shape_of b.nodes)) (told document.blocks)) }
    ensures written { IfOk result (λ document. AreWritten document.blocks) }
    ensures formed { IfOk result (IsInForm case.now.schema) }
{
    let mut shared = Shared::new(alloc, &case.schema)?;
    answer_with(
        alloc,
        &case.schema,
        &case.rows,
        case.constraints.as_slice(),
        case.queries.as_slice(),
        &mut shared,
        nodes,
    )
}
