ghost use Rattle.std.specs.Prelude.{◌≡◌, IfOk, None, Some};
ghost use Rattle.std.specs.List.{AllPass};
ghost use Rattle.pc_model.specs.Membership.{in_domain};
ghost use Rattle.pc_model.specs.WellFormed.{IsWellFormed};
ghost use Rattle.pc_group.specs.Scopes.{AreFolds, AreFoldsFor};
ghost use Rattle.pc_group.specs.Wanted.{wanted_by};

use crate::wanted::allowed_names;
use pc_list::Seq;
use pc_model::{Folded, Query, Schema};
use pc_num::Memory;
use pc_rows::Rows;
use std::alloc::Global;

/// What the observed rows come to for each block of a query, in the order of the blocks, by one walk over the rows.
pub fn folds_of(
    alloc: Global,
    schema: &Schema,
    rows: &Rows,
    query: &Query,
) -> Result<Seq<Folded>, Memory>
    requires well_formed { IsWellFormed schema.now }
    requires seen { AllPass (in_domain schema.now) rows.now }
    ensures folds { IfOk result (AreFolds (wanted_by schema.now query.now) rows.now) }
    ensures fit { IfOk result (AreFoldsFor (wanted_by schema.now query.now)) }
{
    match query.group {
        Some(column) => folds_by(alloc, schema, rows, query, column),
        None => fold_alone(alloc, schema, rows, query),
    }
}

// One fold, of all rows in the query's area.
#[tactic(auto, using(crate::proofs::Folded::alone))]
fn fold_alone(
    alloc: Global,
    schema: &Schema,
    rows: &Rows,
    query: &Query,
) -> Result<Seq<Folded>, Memory>
    requires well_formed { IsWellFormed schema.now }
    requires seen { AllPass (in_domain schema.now) rows.now }
    requires ungrouped { query.now.group ≡ None }
    ensures folds { IfOk result (AreFolds (wanted_by schema.now query.now) rows.now) }
    ensures fit { IfOk result (AreFoldsFor (wanted_by schema.now query.now)) }
{
    let mut folds = Seq::new(alloc);
    folds.push(rows.fold(query))?;
    Ok(folds)
}

// One fold for each name of the column.
fn folds_by(
    alloc: Global,
    schema: &Schema,
    rows: &Rows,
    query: &Query,
    column: u8,
) -> Result<Seq<Folded>, Memory>
    requires well_formed { IsWellFormed schema.now }
    requires seen { AllPass (in_domain schema.now) rows.now }
    requires grouped { query.now.group ≡ Some column }
    ensures folds { IfOk result (AreFolds (wanted_by schema.now query.now) rows.now) }
    ensures fit { IfOk result (AreFoldsFor (wanted_by schema.now query.now)) }
{
    let names = allowed_names(alloc, schema, query, column)?;
    rows.fold_each(alloc, query, names.as_slice())
}
