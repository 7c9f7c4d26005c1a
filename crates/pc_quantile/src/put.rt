//! The text of a quantile and of its answer.
ghost use Rattle.std.specs.Prelude.{◌≡◌, ◌++◌, IfOk, OnErr, OnOk};
ghost use Rattle.pc_model.specs.WellFormed.{IsWellFormed};
ghost use Rattle.pc_lang.specs.Quantiles.{IsQuantile, quantile_text};
ghost use Rattle.pc_quantile.specs.Texts.{block_text};

use crate::answer::QuantileAnswer;
use crate::bounds::least_of;
use pc_lang::{Quantile, put_quantile_query};
use pc_model::Schema;
use pc_num::Memory;
use pc_report::put_answer;
use std::alloc::Global;

/// Appends the block of a quantile: the query, and the lines of its answer as of one to the least number, in the unit of the
/// column, with those of the runs that reach its ends.
pub fn put_quantile(
    alloc: Global,
    schema: &Schema,
    out: &mut Vec<u8>,
    asked: &Quantile,
    answer: &QuantileAnswer,
) -> Result<(), Memory>
    requires well_formed { IsWellFormed schema.now }
    requires accepted { IsQuantile schema.now asked.now }
    ensures ok { OnOk result (out.new.items ≡ out.old.items ++ block_text schema.now (quantile_text schema.now asked.now) asked.now answer.now) }
    ensures err { OnErr result (out.new.items ≡ out.old.items) }
{
    let text = text_of(alloc, schema, asked, answer)?;
    out.extend_from_slice(text.as_slice())?;
    Ok(())
}

#[tactic(auto, using(pc_report::proofs::Scales::scales), unfolding(crate::specs::Texts::block_text))]
fn text_of(
    alloc: Global,
    schema: &Schema,
    asked: &Quantile,
    answer: &QuantileAnswer,
) -> Result<Vec<u8>, Memory>
    requires well_formed { IsWellFormed schema.now }
    requires accepted { IsQuantile schema.now asked.now }
    ensures { IfOk result (λ text. text.items ≡ block_text schema.now (quantile_text schema.now asked.now) asked.now answer.now) }
{
    let query = least_of(asked)?;
    let mut text = Vec::new(alloc);
    text.extend_from_slice(b"query ")?;
    put_quantile_query(alloc, schema, &mut text, asked)?;
    text.push(b'\n')?;
    put_answer(alloc, schema, &mut text, &query, &answer.told())?;
    Ok(text)
}
