//! Answers to one question under each of several lists of constraints.
ghost use Rattle.std.specs.Prelude.{◌≡◌, ◌≤◌, [], ◌∷◌, map, All, IfOk};
ghost use Rattle.std.specs.List.{AllZip};
ghost use Rattle.pc_model.specs.declared.query.Folded.{Folded};
ghost use Rattle.pc_model.specs.Accepted.{AreConstraints, IsQuery};
ghost use Rattle.pc_cells_tree.specs.Linked.{IsTree};
ghost use Rattle.pc_files.specs.Reads.{IsUsable};
ghost use Rattle.pc_lang.specs.Quantiles.{IsQuantile};
ghost use Rattle.pc_group.specs.Answers.{AnswersWanted};
ghost use Rattle.pc_group.specs.Scopes.{AreFolds, AreFoldsFor};
ghost use Rattle.pc_group.specs.Trees.{told};
ghost use Rattle.pc_group.specs.Wanted.{wanted_by};
ghost use Rattle.pc_desk_answers.specs.Blocks.{AreShown, AreShownUnder, IsGround, asked_by, block, ground_in, ground_of, ground_under, quantile};
ghost use Rattle.pc_desk_answers.specs.Questions.{IsQuestion};

use crate::answers::{Scope, answer_share};
use crate::blocks::{block_entries, where_nothing_is_lost};
use crate::question::Question;
use crate::watch::Watch;
use pc_cells::Shared;
use pc_desk_table::Entry;
use pc_files::Observed;
use pc_group::{answer_seen, divide_for, folds_of};
use pc_lang::Quantile;
use pc_list::Seq;
use pc_model::{Constraint, Folded, Query};
use pc_num::Memory;
use pc_proof::Block;
use std::alloc::Global;

/// What is shown of the answers to a question under each of these lists of constraints, by searches of at most so many nodes
/// each. One tree of cuts serves them all: it is cut on for each list before that is answered. The watch is told of each list that is
/// answered.
pub fn answer_under_each<'x, W: Watch>(
    alloc: Global,
    observed: &'x Observed,
    question: &Question,
    lists: &'x [Seq<Constraint>],
    nodes: u32,
    watch: &mut W,
) -> Result<Seq<Seq<Entry>>, Memory>
    requires usable { IsUsable observed.now }
    requires asked { IsQuestion observed.now.schema question.now }
    requires lists { All (AreConstraints observed.now.schema) lists.now }
    requires budget { (1 ≤ nodes) × (nodes ≤ 100_000) }
    ensures shown { IfOk result (AreShownUnder (ground_of observed.now nodes) (asked_by observed.now.schema question.now) lists.now) }
{
    let scope = Scope {
        schema: &observed.schema,
        rows: &observed.rows,
        constraints: observed.constraints.as_slice(),
        nodes,
        line: None,
    };
    match question {
        Question::Plain(query) => query_under_each(alloc, &scope, query, lists, watch),
        Question::Share(asked) => share_under_each(alloc, &scope, asked, lists, watch),
    }
}

fn query_under_each<'x, W: Watch>(
    alloc: Global,
    scope: &Scope<'x>,
    query: &Query,
    lists: &'x [Seq<Constraint>],
    watch: &mut W,
) -> Result<Seq<Seq<Entry>>, Memory>
    requires ground { IsGround (ground_in scope.now) }
    requires asked { IsQuery scope.now.schema.now query.now }
    requires lists { All (AreConstraints scope.now.schema.now) lists.now }
    ensures shown { IfOk result (AreShownUnder (ground_in scope.now) (map block (wanted_by scope.now.schema.now query.now)) lists.now) }
{
    let folds = folds_of(alloc, scope.schema, scope.rows, query)?;
    let left = where_nothing_is_lost(alloc, scope, query)?;
    let mut shared = Shared::new(alloc, scope.schema)?;
    let mut all = Vec::new(alloc);
    for list in lists {
        let under = scope_under(scope, list.as_slice());
        let blocks = left.blocks.as_slice();
        let entries = query_under(alloc, &under, query, folds.as_slice(), blocks, &mut shared)?;
        all.push(entries)?;
        watch.saw(all.len(), lists.len());
    }
    Ok(Seq::from_vec(all))
}

// The same over other constraints.
fn scope_under<'a>(scope: &Scope<'a>, constraints: &'a [Constraint]) -> Scope<'a>
    ensures { ground_in result ≡ ground_under (ground_in scope.now) constraints.now }
{
    Scope {
        schema: scope.schema,
        rows: scope.rows,
        constraints,
        nodes: scope.nodes,
        line: scope.line,
    }
}

fn query_under(
    alloc: Global,
    scope: &Scope<'_>,
    query: &Query,
    folds: &[Folded],
    left: &[Block],
    shared: &mut Shared,
) -> Result<Seq<Entry>, Memory>
    requires ground { IsGround (ground_in scope.now) }
    requires asked { IsQuery scope.now.schema.now query.now }
    requires folds { AreFolds (wanted_by scope.now.schema.now query.now) scope.now.rows.now folds.now }
    requires fit { AreFoldsFor (wanted_by scope.now.schema.now query.now) folds.now }
    requires nothing_lost { AllZip (AnswersWanted scope.now.nodes scope.now.schema.now scope.now.rows.now []) (wanted_by scope.now.schema.now query.now) (told left.now) }
    requires tree { IsTree scope.now.schema.now shared.old.nodes }
    ensures tree { IsTree scope.now.schema.now shared.new.nodes }
    ensures shown { IfOk result (AreShown (ground_in scope.now) (map block (wanted_by scope.now.schema.now query.now))) }
{
    divide_for(alloc, scope.schema, scope.constraints, query, shared)?;
    let document = answer_seen(
        alloc,
        scope.schema,
        folds,
        scope.constraints,
        query,
        shared,
        scope.nodes,
    )?;
    block_entries(alloc, scope, query, document.blocks.as_slice(), left)
}

fn share_under_each<'x, W: Watch>(
    alloc: Global,
    scope: &Scope<'x>,
    asked: &Quantile,
    lists: &'x [Seq<Constraint>],
    watch: &mut W,
) -> Result<Seq<Seq<Entry>>, Memory>
    requires ground { IsGround (ground_in scope.now) }
    requires asked { IsQuantile scope.now.schema.now asked.now }
    requires lists { All (AreConstraints scope.now.schema.now) lists.now }
    ensures shown { IfOk result (AreShownUnder (ground_in scope.now) (quantile asked.now ∷ []) lists.now) }
{
    let mut all = Vec::new(alloc);
    for list in lists {
        let under = scope_under(scope, list.as_slice());
        let entries = answer_share(alloc, &under, asked)?;
        all.push(entries)?;
        watch.saw(all.len(), lists.len());
    }
    Ok(Seq::from_vec(all))
}
