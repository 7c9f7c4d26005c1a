ghost use Rattle.std.specs.Prelude.{◌≡◌, IfOk, length, option_map};
ghost use Rattle.pc_desk_fault.specs.Queries.{IsMedianTold, IsQueryTold, after, before, of_median, query_told};

use crate::meanings::Form;
use crate::texts::{Refused, text_for};
use crate::words::after_blanks;
use pc_lang_grammar::{QuantileWant, Want};
use pc_model::Reason;
use pc_num::Memory;
use std::alloc::Global;

/// What is told of a query that is refused for a reason.
#[tactic(auto, using(crate::proofs::Telling::queries))]
pub(crate) fn query_told(
    alloc: Global,
    schema: &[u8],
    reason: Reason,
    text: &[u8],
) -> Result<Vec<u8>, Memory>
    ensures { IfOk result (λ out. IsQueryTold schema.now reason text.now out.items) }
{
    let told = median_told(alloc, schema, reason, text)?;
    on_own_line(alloc, told.as_slice())
}

#[tactic(auto, unfolding(crate::specs::Queries::query_told))]
pub(crate) fn on_own_line(alloc: Global, told: &[u8]) -> Result<Vec<u8>, Memory>
    ensures { IfOk result (λ out. out.items ≡ query_told told.now) }
{
    let mut out = Vec::from_slice(alloc, b"\n".as_slice())?;
    out.extend_from_slice(told)?;
    Ok(out)
}

fn median_told(alloc: Global, schema: &[u8], reason: Reason, text: &[u8]) -> Result<Vec<u8>, Memory>
    ensures { IfOk result (λ told. IsMedianTold schema.now reason text.now (of_median text.now) told.items) }
{
    match of_median(text) {
        Some(rest) => {
            let refused = Refused {
                form: Form::Query,
                schema,
                front: before(text, rest.len()),
                text: rest,
                start: Want::Quantile(QuantileWant::Column),
            };
            text_for(alloc, reason, &refused)
        }
        None => {
            let refused = Refused {
                form: Form::Query,
                schema,
                front: &[],
                text,
                start: Want::Asked,
            };
            text_for(alloc, reason, &refused)
        }
    }
}

/// A text without so many bytes at its end.
pub(crate) fn before(text: &[u8], left: usize) -> &[u8]
    ensures { result.now ≡ before left text.now }
{
    &text[..text.len().saturating_sub(left)]
}

// What stands after `median(`, with blanks before each of them or none.
#[tactic(auto, unfolding(crate::specs::Queries::of_median))]
fn of_median(text: &[u8]) -> Option<&[u8]>
    ensures { option_map (λ rest. rest.now) result ≡ of_median text.now }
{
    let rest = after(b"median", after_blanks(text))?;
    after(b"(", after_blanks(rest))
}

fn after<'x>(front: &[u8], text: &'x [u8]) -> Option<&'x [u8]>
    ensures { option_map (λ rest. rest.now) result ≡ after front.now text.now }
{
    text.strip_prefix(front)
}
