ghost use Rattle.std.specs.Prelude.{◌≡◌, ◌≤◌, map, All, IfOk};
ghost use Rattle.pc_model.specs.Accepted.{IsQuery};
ghost use Rattle.pc_cells_tree.specs.Linked.{IsTree};
ghost use Rattle.pc_files.specs.Reads.{IsUsable};
ghost use Rattle.pc_group.specs.Trees.{AreDividedFor};
ghost use Rattle.pc_group.specs.Wanted.{wanted_by};
ghost use Rattle.pc_desk_answers.specs.Blocks.{IsGround, asked, asked_by, block, ground_of};
ghost use Rattle.pc_desk_answers.specs.Questions.{IsQuestion};
ghost use Rattle.pc_desk_why.specs.Explained.{AreExplained};
ghost use Rattle.pc_desk_why.specs.Scopes.{IsDivided, ground_in};

use crate::blocks::{explain_blocks, explain_quantile};
use crate::dividing::shared_for;
use crate::explained::Explained;
use pc_cells::Shared;
use pc_desk_answers::Question;
use pc_files::Observed;
use pc_group::{answer_seen, folds_of};
use pc_list::Seq;
use pc_model::{Constraint, Query, Schema};
use pc_num::Memory;
use pc_rows::Rows;
use std::alloc::Global;

/// What answers are explained over: what was observed, a tree of cuts under the constraints, and how many nodes each search may
/// have.
#[derive(Clone, Copy, Debug)]
pub(crate) struct Scope<'a> {
    pub schema: &'a Schema,
    pub rows: &'a Rows,
    pub constraints: &'a [Constraint],
    pub shared: &'a Shared,
    pub nodes: u32,
}

/// What is explained of the answers to questions, in their order, by searches of at most so many nodes each, over one tree of
/// cuts that is cut on for all of them before the first is answered.
pub fn explain(
    alloc: Global,
    observed: &Observed,
    questions: &[Question],
    nodes: u32,
) -> Result<Seq<Explained>, Memory>
    requires usable { IsUsable observed.now }
    requires asked { All (IsQuestion observed.now.schema) questions.now }
    requires budget { (1 ≤ nodes) × (nodes ≤ 100_000) }
    ensures explained { IfOk result (AreExplained (ground_of observed.now nodes) (asked observed.now.schema questions.now)) }
    ensures places { IfOk result (λ all. All (λ told. told.places ≤ 6) all) }
{
    let constraints = observed.constraints.as_slice();
    let shared = shared_for(alloc, &observed.schema, constraints, questions)?;
    let scope = Scope {
        schema: &observed.schema,
        rows: &observed.rows,
        constraints,
        shared: &shared,
        nodes,
    };
    explain_all(alloc, &scope, questions)
}

// One question after the other.
fn explain_all<'a>(
    alloc: Global,
    scope: &Scope<'a>,
    questions: &'a [Question],
) -> Result<Seq<Explained>, Memory>
    requires ground { IsGround (ground_in scope.now) }
    requires asked { All (IsQuestion scope.now.schema.now) questions.now }
    requires tree { IsTree scope.now.schema.now scope.now.shared.now.nodes }
    requires divided { All (IsDivided scope.now.schema.now scope.now.constraints.now scope.now.shared.now.nodes) questions.now }
    ensures explained { IfOk result (AreExplained (ground_in scope.now) (asked scope.now.schema.now questions.now)) }
{
    let mut all = Vec::new(alloc);
    for question in questions {
        let more = explain_one(alloc, scope, question)?;
        all.append(&mut more.into_vec())?;
    }
    Ok(Seq::from_vec(all))
}

fn explain_one<'a>(
    alloc: Global,
    scope: &Scope<'a>,
    question: &'a Question,
) -> Result<Seq<Explained>, Memory>
    requires ground { IsGround (ground_in scope.now) }
    requires asked { IsQuestion scope.now.schema.now question.now }
    requires tree { IsTree scope.now.schema.now scope.now.shared.now.nodes }
    requires divided { IsDivided scope.now.schema.now scope.now.constraints.now scope.now.shared.now.nodes question.now }
    ensures explained { IfOk result (AreExplained (ground_in scope.now) (asked_by scope.now.schema.now question.now)) }
{
    match question {
        Question::Plain(query) => explain_query(alloc, scope, query),
        Question::Share(asked) => {
            let told = explain_quantile(alloc, scope, asked)?;
            let mut all = Seq::new(alloc);
            all.push(told)?;
            Ok(all)
        }
    }
}

fn explain_query<'a>(
    alloc: Global,
    scope: &Scope<'a>,
    query: &'a Query,
) -> Result<Seq<Explained>, Memory>
    requires ground { IsGround (ground_in scope.now) }
    requires asked { IsQuery scope.now.schema.now query.now }
    requires tree { IsTree scope.now.schema.now scope.now.shared.now.nodes }
    requires divided { AreDividedFor scope.now.schema.now scope.now.constraints.now scope.now.shared.now.nodes (wanted_by scope.now.schema.now query.now) }
    ensures explained { IfOk result (AreExplained (ground_in scope.now) (map block (wanted_by scope.now.schema.now query.now))) }
{
    let folds = folds_of(alloc, scope.schema, scope.rows, query)?;
    let document = answer_seen(
        alloc,
        scope.schema,
        folds.as_slice(),
        scope.constraints,
        query,
        scope.shared,
        scope.nodes,
    )?;
    let blocks = document.blocks.as_slice();
    explain_blocks(alloc, scope, query, blocks, folds.as_slice())
}
