ghost use Rattle.std.specs.Prelude.{◌≡◌, length, map, true, false, None, option_map, All, IfOk};
ghost use Rattle.std.specs.List.{AllZip};
ghost use Rattle.pc_model.specs.Accepted.{IsQuery};
ghost use Rattle.pc_model.specs.Folds.{IsFold};
ghost use Rattle.pc_lang.specs.Quantiles.{IsQuantile};
ghost use Rattle.pc_group.specs.Answers.{AnswersWanted};
ghost use Rattle.pc_group.specs.Scopes.{AreFolds};
ghost use Rattle.pc_group.specs.Trees.{told};
ghost use Rattle.pc_group.specs.Wanted.{wanted_as, wanted_by};
ghost use Rattle.pc_quantile.specs.Licensed.{Owes};
ghost use Rattle.pc_quantile.specs.Measured.{least_of};
ghost use Rattle.pc_desk_table.specs.declared.entry.Group.{Group};
ghost use Rattle.pc_desk_answers.specs.Blocks.{IsGround, block};
ghost use Rattle.pc_desk_answers.specs.Entries.{group_of};
ghost use Rattle.pc_desk_why.specs.Explained.{AreExplained, ExplainsBlock, ExplainsQuantile, IsAskOf, is_summed};
ghost use Rattle.pc_desk_why.specs.Scopes.{IsAnswered, ground_in};

use crate::explained::Explained;
use crate::explaining::Scope;
use crate::found::{found_of, is_open};
use pc_desk_answers::{group_of, least_of, quantile_name, query_name};
use pc_desk_parts::{Asked, Seen};
use pc_desk_table::Group;
use pc_lang::Quantile;
use pc_list::{Seq, Text};
use pc_model::{Agg, Folded, Query, Schema};
use pc_num::Memory;
use pc_proof::Block;
use pc_quantile::{QuantileAnswer, bound_quantile};
use pc_report::{Told, scale_for};
use std::alloc::Global;

/// What is explained of the blocks of a query, of each by what the observed rows come to for it.
pub(crate) fn explain_blocks<'a>(
    alloc: Global,
    scope: &Scope<'a>,
    query: &'a Query,
    blocks: &[Block],
    folds: &[Folded],
) -> Result<Seq<Explained>, Memory>
    requires ground { IsGround (ground_in scope.now) }
    requires asked { IsQuery scope.now.schema.now query.now }
    requires answers { AllZip (AnswersWanted scope.now.nodes scope.now.schema.now scope.now.rows.now scope.now.constraints.now) (wanted_by scope.now.schema.now query.now) (told blocks.now) }
    requires folds { AreFolds (wanted_by scope.now.schema.now query.now) scope.now.rows.now folds.now }
    ensures { IfOk result (AreExplained (ground_in scope.now) (map block (wanted_by scope.now.schema.now query.now))) }
{
    explain_each(alloc, scope, query, blocks, folds)
}

fn explain_each<'a>(
    alloc: Global,
    scope: &Scope<'a>,
    query: &'a Query,
    blocks: &[Block],
    folds: &[Folded],
) -> Result<Seq<Explained>, Memory>
    requires ground { IsGround (ground_in scope.now) }
    requires asked { IsQuery scope.now.schema.now query.now }
    requires even { length folds.now ≡ length blocks.now }
    requires answered { All (IsAnswered (ground_in scope.now) query.now) blocks.now }
    requires seen { AllZip (λ (b : Block) (folded : Folded). IsFold query.now b.name scope.now.rows.now folded) blocks.now folds.now }
    ensures { IfOk result (AllZip (λ (b : Block) (told : Explained). ExplainsBlock (ground_in scope.now) (wanted_as query.now b.name) told) blocks.now) }
{
    let mut all = Vec::new(alloc);
    for (place, block) in blocks.iter().enumerate() {
        let folded = &folds[place];
        let told = explain_block(alloc, scope, query, block, folded)?;
        all.push(told)?;
    }
    Ok(Seq::from_vec(all))
}

fn explain_block<'a>(
    alloc: Global,
    scope: &Scope<'a>,
    query: &'a Query,
    block: &Block,
    folded: &Folded,
) -> Result<Explained, Memory>
    requires ground { IsGround (ground_in scope.now) }
    requires asked { IsQuery scope.now.schema.now query.now }
    requires answered { IsAnswered (ground_in scope.now) query.now block.now }
    requires seen { IsFold query.now block.now.name scope.now.rows.now folded.now }
    ensures { IfOk result (ExplainsBlock (ground_in scope.now) (wanted_as query.now block.now.name)) }
{
    let seen = Seen::Folded(*folded);
    let ask = Asked {
        schema: scope.schema,
        constraints: scope.constraints,
        query,
        name: block.name,
        seen,
    };
    block_explained(alloc, scope, query, block, &ask)
}

#[tactic(auto, using(pc_report::proofs::Scales::scales))]
fn block_explained(
    alloc: Global,
    scope: &Scope<'_>,
    query: &Query,
    block: &Block,
    ask: &Asked,
) -> Result<Explained, Memory>
    requires ground { IsGround (ground_in scope.now) }
    requires asked { IsQuery scope.now.schema.now query.now }
    requires answered { IsAnswered (ground_in scope.now) query.now block.now }
    requires asks { IsAskOf (ground_in scope.now) query.now block.now.name true ask.now }
    ensures { IfOk result (ExplainsBlock (ground_in scope.now) (wanted_as query.now block.now.name)) }
{
    let told = Told::of(&block.answer);
    let found = found_of(alloc, ask, &told)?;
    Ok(Explained {
        query: query_name(alloc, scope.schema, query)?,
        group: group_name(alloc, scope.schema, query.group, block.name)?,
        places: scale_for(scope.schema, query.column),
        open: is_open(&told),
        sums: is_summed(query.agg),
        found,
    })
}

fn group_name(
    alloc: Global,
    schema: &Schema,
    group: Option<u8>,
    name: Option<u32>,
) -> Result<Option<Text>, Memory>
    ensures { IfOk result (λ found. found ≡ option_map (λ (g : Group). g.name) (group_of schema.now group name)) }
{
    match group_of(alloc, schema, group, name)? {
        Some(Group { name, .. }) => Ok(Some(name)),
        None => Ok(None),
    }
}

// Whether an end is what its parts add.
fn is_summed(agg: Agg) -> bool
    ensures { result ≡ is_summed agg }
{
    match agg {
        Agg::Count | Agg::Sum => true,
        Agg::Min | Agg::Max | Agg::Avg => false,
    }
}

/// What is explained of a quantile, by the numbers of the observed rows.
pub(crate) fn explain_quantile(
    alloc: Global,
    scope: &Scope<'_>,
    asked: &Quantile,
) -> Result<Explained, Memory>
    requires ground { IsGround (ground_in scope.now) }
    requires asked { IsQuantile scope.now.schema.now asked.now }
    ensures { IfOk result (ExplainsQuantile (ground_in scope.now) asked.now) }
{
    let answer = bound_quantile(
        alloc,
        scope.schema,
        scope.rows,
        scope.constraints,
        asked,
        scope.nodes,
    )?;
    let query = least_of(asked)?;
    let numbers = scope.rows.numbers(alloc, &query)?;
    let seen = Seen::Numbers(numbers.as_slice());
    let ask = Asked {
        schema: scope.schema,
        constraints: scope.constraints,
        query: &query,
        name: None,
        seen,
    };
    quantile_explained(alloc, scope, asked, &ask, &answer)
}

#[tactic(auto, using(pc_report::proofs::Scales::scales))]
fn quantile_explained(
    alloc: Global,
    scope: &Scope<'_>,
    asked: &Quantile,
    ask: &Asked,
    answer: &QuantileAnswer,
) -> Result<Explained, Memory>
    requires ground { IsGround (ground_in scope.now) }
    requires asked { IsQuantile scope.now.schema.now asked.now }
    requires asks { IsAskOf (ground_in scope.now) (least_of asked.now) None false ask.now }
    requires answers { Owes scope.now.schema.now scope.now.rows.now scope.now.constraints.now asked.now scope.now.nodes answer.now }
    ensures { IfOk result (ExplainsQuantile (ground_in scope.now) asked.now) }
{
    let told = answer.told();
    let found = found_of(alloc, ask, &told)?;
    Ok(Explained {
        query: quantile_name(alloc, scope.schema, asked)?,
        group: None,
        places: scale_for(scope.schema, Some(asked.column)),
        open: is_open(&told),
        sums: false,
        found,
    })
}
