ghost use Rattle.std.specs.Prelude.{◌≡◌, ◌≤◌, [], ◌∷◌, map, All, IfOk};
ghost use Rattle.pc_model.specs.Accepted.{IsQuery};
ghost use Rattle.pc_session.specs.Sessions.{IsSession, held_by};
ghost use Rattle.pc_files.specs.Reads.{IsUsable};
ghost use Rattle.pc_lang.specs.Quantiles.{IsQuantile};
ghost use Rattle.pc_group.specs.Wanted.{wanted_by};
ghost use Rattle.pc_desk_answers.specs.Blocks.{AreShown, IsGround, asked, asked_by, block, ground_held, ground_in, ground_of, quantile};
ghost use Rattle.pc_desk_answers.specs.Divided.{AreDivided, AreTrees, IsDivided};
ghost use Rattle.pc_desk_answers.specs.Questions.{IsQuestion};

use crate::blocks::{block_entries, quantile_entry, where_nothing_is_lost};
use crate::question::Question;
use crate::trees::{Trees, trees_for};
use pc_desk_table::Entry;
use pc_files::Observed;
use pc_group::{answer_seen, ask, folds_of};
use pc_lang::Quantile;
use pc_list::Seq;
use pc_model::{Constraint, Query, Schema};
use pc_num::Memory;
use pc_rows::Rows;
use pc_session::Session;
use std::alloc::Global;
use std::slice::from_ref;

/// What answers are over: what was observed, how many nodes each search may have, and the line of the question, where a script
/// asked it.
#[derive(Clone, Copy, Debug)]
pub(crate) struct Scope<'a> {
    pub schema: &'a Schema,
    pub rows: &'a Rows,
    pub constraints: &'a [Constraint],
    pub nodes: u32,
    pub line: Option<u64>,
}

/// What is shown of the answers to questions, in their order, by searches of at most so many nodes each, over trees of cuts
/// that are cut on for all of them before the first is answered.
pub fn answer_questions(
    alloc: Global,
    observed: &Observed,
    questions: &[Question],
    nodes: u32,
) -> Result<Seq<Entry>, Memory>
    requires usable { IsUsable observed.now }
    requires asked { All (IsQuestion observed.now.schema) questions.now }
    requires budget { (1 ≤ nodes) × (nodes ≤ 100_000) }
    ensures shown { IfOk result (AreShown (ground_of observed.now nodes) (asked observed.now.schema questions.now)) }
{
    let scope = Scope {
        schema: &observed.schema,
        rows: &observed.rows,
        constraints: observed.constraints.as_slice(),
        nodes,
        line: None,
    };
    let trees = trees_for(alloc, &scope, questions)?;
    answer_all(alloc, &scope, questions, &trees)
}

// The answers one after the other.
fn answer_all(
    alloc: Global,
    scope: &Scope<'_>,
    questions: &[Question],
    trees: &Trees,
) -> Result<Seq<Entry>, Memory>
    requires ground { IsGround (ground_in scope.now) }
    requires asked { All (IsQuestion scope.now.schema.now) questions.now }
    requires trees { AreTrees scope.now.schema.now trees.now }
    requires divided { All (IsDivided (ground_in scope.now) trees.now) questions.now }
    ensures shown { IfOk result (AreShown (ground_in scope.now) (asked scope.now.schema.now questions.now)) }
{
    let mut entries = Vec::new(alloc);
    for question in questions {
        let more = answer_one(alloc, scope, question, trees)?;
        entries.append(&mut more.into_vec())?;
    }
    Ok(Seq::from_vec(entries))
}

fn answer_one(
    alloc: Global,
    scope: &Scope<'_>,
    question: &Question,
    trees: &Trees,
) -> Result<Seq<Entry>, Memory>
    requires ground { IsGround (ground_in scope.now) }
    requires asked { IsQuestion scope.now.schema.now question.now }
    requires trees { AreTrees scope.now.schema.now trees.now }
    requires divided { IsDivided (ground_in scope.now) trees.now question.now }
    ensures shown { IfOk result (AreShown (ground_in scope.now) (asked_by scope.now.schema.now question.now)) }
{
    match question {
        Question::Plain(query) => answer_query(alloc, scope, query, trees),
        Question::Share(asked) => answer_share(alloc, scope, asked),
    }
}

/// What is shown of a quantile, which is one entry.
pub(crate) fn answer_share(
    alloc: Global,
    scope: &Scope<'_>,
    asked: &Quantile,
) -> Result<Seq<Entry>, Memory>
    requires ground { IsGround (ground_in scope.now) }
    requires asked { IsQuantile scope.now.schema.now asked.now }
    ensures shown { IfOk result (AreShown (ground_in scope.now) (quantile asked.now ∷ [])) }
{
    let entry = quantile_entry(alloc, scope, asked)?;
    let mut entries = Seq::new(alloc);
    entries.push(entry)?;
    Ok(entries)
}

fn answer_query(
    alloc: Global,
    scope: &Scope<'_>,
    query: &Query,
    trees: &Trees,
) -> Result<Seq<Entry>, Memory>
    requires ground { IsGround (ground_in scope.now) }
    requires asked { IsQuery scope.now.schema.now query.now }
    requires trees { AreTrees scope.now.schema.now trees.now }
    requires divided { AreDivided (ground_in scope.now) trees.now (wanted_by scope.now.schema.now query.now) }
    ensures shown { IfOk result (AreShown (ground_in scope.now) (map block (wanted_by scope.now.schema.now query.now))) }
{
    let folds = folds_of(alloc, scope.schema, scope.rows, query)?;
    let document = answer_seen(
        alloc,
        scope.schema,
        folds.as_slice(),
        scope.constraints,
        query,
        &trees.constrained,
        scope.nodes,
    )?;
    let left = answer_seen(
        alloc,
        scope.schema,
        folds.as_slice(),
        &[],
        query,
        &trees.whole,
        scope.nodes,
    )?;
    block_entries(
        alloc,
        scope,
        query,
        document.blocks.as_slice(),
        left.blocks.as_slice(),
    )
}

/// What is shown of the answer to a query about what a session holds, which the given line of a script asks.
pub fn ask_session(
    alloc: Global,
    session: &mut Session,
    query: &Query,
    line: u64,
    nodes: u32,
) -> Result<Seq<Entry>, Memory>
    requires session { IsSession session.old }
    requires asked { IsQuery session.old.schema query.now }
    requires budget { (1 ≤ nodes) × (nodes ≤ 100_000) }
    ensures session { IsSession session.new }
    ensures schema { session.new.schema ≡ session.old.schema }
    ensures held { held_by session.new ≡ held_by session.old }
    ensures shown { IfOk result (AreShown (ground_held session.old.schema (held_by session.old) line nodes) (map block (wanted_by session.old.schema query.now))) }
{
    let document = ask(alloc, session, from_ref(query), nodes)?;
    let scope = Scope {
        schema: &session.schema,
        rows: &session.rows,
        constraints: session.constraints.as_slice(),
        nodes,
        line: Some(line),
    };
    let left = where_nothing_is_lost(alloc, &scope, query)?;
    block_entries(
        alloc,
        &scope,
        query,
        document.blocks.as_slice(),
        left.blocks.as_slice(),
    )
}
