ghost use Rattle.std.specs.Prelude.{◌≡◌, ◌<◌, ◌↔◌, IfOk, IfSome, IsSome, IsTrue, List, Some, is_none};
ghost use Rattle.pc_model.specs.declared.row.Row.{Row};
ghost use Rattle.pc_proof.specs.Form.{IsFormedBlock};
ghost use Rattle.pc_check.specs.Premises.{ArePremises};
ghost use Rattle.pc_check.specs.Seen.{AskAlike, IsSeen, IsSeenFor};

use crate::premises::Premises;
use crate::same::are_same;
use pc_model::{Folded, Query};
use pc_num::Memory;
use pc_proof::Block;
use pc_rows::Rows;
use std::alloc::Global;

/// What the observed rows of a query come to, of its group those of a name.
#[derive(Clone, Copy, Debug)]
pub(crate) struct Seen<'a> {
    pub query: &'a Query,
    pub name: Option<u32>,
    pub folded: Folded,
}

/// What the observed rows come to for the question of a block. They are folded anew where the block before asks another.
pub(crate) fn seen_for<'a>(
    alloc: Global,
    premises: &Premises<'_>,
    before: Option<Seen<'a>>,
    block: &'a Block,
) -> Result<Seen<'a>, Memory>
    requires premises { ArePremises premises.now }
    requires formed { IsFormedBlock premises.now.schema.now block.now }
    requires before { IfSome before (IsSeen premises.now.rows.now) }
    ensures folded { IfOk result (λ seen. IsSeenFor block.now.query block.now.name premises.now.rows.now seen.folded) }
    ensures kept { IfOk result (IsSeen premises.now.rows.now) }
{
    seen_after(alloc, premises.rows, before, &block.query, block.name)
}

fn seen_after<'a>(
    alloc: Global,
    rows: &Rows,
    before: Option<Seen<'a>>,
    query: &'a Query,
    name: Option<u32>,
) -> Result<Seen<'a>, Memory>
    requires before { IfSome before (IsSeen rows.now) }
    requires named { is_none name ≡ is_none query.now.group }
    requires place { IfSome name (λ place. place < 128) }
    ensures folded { IfOk result (λ seen. IsSeenFor query.now name rows.now seen.folded) }
    ensures kept { IfOk result (IsSeen rows.now) }
{
    if let Some(folded) = seen_again(before, query, name) {
        return Ok(Seen {
            query,
            name,
            folded,
        });
    }
    let folded = seen_in(alloc, rows, query, name)?;
    Ok(Seen {
        query,
        name,
        folded,
    })
}

/// What the observed rows came to for the question before, where it is this one.
#[tactic(auto, using(crate::proofs::SeenAgain::seen_for_alike))]
fn seen_again(before: Option<Seen<'_>>, query: &Query, name: Option<u32>) -> Option<Folded>
    ensures { (rows : List Row) → IfSome before.entry (IsSeen rows) → IfSome result (IsSeenFor query.now name rows) }
{
    let seen = before?;
    if seen.name == name && ask_alike(seen.query, query) {
        return Some(seen.folded);
    }
    None
}

/// Whether two queries have the same column, area and group. Which aggregate they ask for makes no difference to what
/// rows come to.
fn ask_alike(query: &Query, other: &Query) -> bool
    ensures { IsTrue result ↔ AskAlike query.now other.now }
{
    query.column == other.column
        && query.group == other.group
        && are_same(&query.chosen, &other.chosen)
}

fn seen_in(alloc: Global, rows: &Rows, query: &Query, name: Option<u32>) -> Result<Folded, Memory>
    requires named { is_none name ≡ is_none query.now.group }
    requires place { IfSome name (λ place. place < 128) }
    ensures { IfOk result (IsSeenFor query.now name rows.now) }
{
    let Some(place) = name else {
        return Ok(rows.fold(query));
    };
    seen_of_name(alloc, rows, query, place)
}

fn seen_of_name(alloc: Global, rows: &Rows, query: &Query, place: u32) -> Result<Folded, Memory>
    requires grouped { IsSome query.now.group }
    requires place { place < 128 }
    ensures { IfOk result (IsSeenFor query.now (Some place) rows.now) }
{
    let names = [place];
    let folds = rows.fold_each(alloc, query, names.as_slice())?;
    let Some(folded) = folds.as_slice().first() else {
        unreachable!();
    };
    Ok(*folded)
}
