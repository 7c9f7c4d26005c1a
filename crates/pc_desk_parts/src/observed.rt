ghost use Rattle.std.specs.Prelude.{◌≡◌, ◌++◌, ◌≤◌, pos, ◌<ℤ◌, IfOk, length};
ghost use Rattle.pc_desk_parts.specs.Made.{added_part, count_at, folded_parts, number_part, observed_part, observed_parts, seen_parts, standing_part, standing_parts};

use crate::asked::{Asked, Reached, Seen};
use crate::part::{Adds, Part};
use crate::stands::{Stand, is_at, is_stand, stand_to};
use pc_list::Seq;
use pc_model::{Agg, Folded};
use pc_num::{Frac, Memory};
use std::alloc::Global;

/// The parts of observed rows.
pub(crate) fn observed_parts(
    alloc: Global,
    ask: &Asked,
    reached: &Reached,
) -> Result<Vec<Part>, Memory>
    requires { pos 0 <ℤ reached.now.value.den }
    ensures { IfOk result (λ parts. parts.items ≡ observed_parts ask.now reached.now) }
{
    seen_parts(alloc, ask.query.agg, reached.value, ask.seen)
}

fn seen_parts(alloc: Global, agg: Agg, value: Frac, seen: Seen) -> Result<Vec<Part>, Memory>
    requires { pos 0 <ℤ value.den }
    ensures { IfOk result (λ parts. parts.items ≡ seen_parts agg value seen.entry) }
{
    match seen {
        Seen::Folded(folded) => folded_parts(alloc, agg, value, folded),
        Seen::Numbers(numbers) => standing_parts(alloc, value, numbers),
    }
}

fn folded_parts(alloc: Global, agg: Agg, value: Frac, folded: Folded) -> Result<Vec<Part>, Memory>
    requires { pos 0 <ℤ value.den }
    ensures { IfOk result (λ parts. parts.items ≡ folded_parts agg value folded) }
{
    match agg {
        Agg::Count => added_part(alloc, folded.count, i128::from(folded.count)),
        Agg::Sum => added_part(alloc, folded.count, folded.sum),
        Agg::Min => number_part(alloc, value, folded.least),
        Agg::Max => number_part(alloc, value, folded.greatest),
        Agg::Avg => added_part(alloc, folded.count, folded.sum),
    }
}

fn added_part(alloc: Global, count: u64, amount: i128) -> Result<Vec<Part>, Memory>
    ensures { IfOk result (λ parts. parts.items ≡ added_part count amount) }
{
    let mut parts = Vec::new(alloc);
    parts.push(observed_part(alloc, count, None, Adds::Amount(amount)))?;
    Ok(parts)
}

fn number_part(alloc: Global, value: Frac, number: Option<i64>) -> Result<Vec<Part>, Memory>
    requires { pos 0 <ℤ value.den }
    ensures { IfOk result (λ parts. parts.items ≡ number_part value number) }
{
    let mut parts = Vec::new(alloc);
    if let Some(number) = number {
        if is_at(stand_to(value, number)) {
            parts.push(observed_part(alloc, 1, Some(number), Adds::Nothing))?;
        }
    }
    Ok(parts)
}

fn observed_part(alloc: Global, rows: u64, value: Option<i64>, adds: Adds) -> Part
    ensures { result ≡ observed_part rows value adds }
{
    Part {
        rows,
        value,
        adds,
        under: None,
        held: Seq::new(alloc),
    }
}

fn standing_parts(alloc: Global, value: Frac, numbers: &[i64]) -> Result<Vec<Part>, Memory>
    requires { pos 0 <ℤ value.den }
    ensures { IfOk result (λ parts. parts.items ≡ standing_parts value numbers.now) }
{
    let parts = Vec::new(alloc);
    let parts = with_standing(
        alloc,
        parts,
        Stand::Below,
        count_at(value, Stand::Below, numbers),
    )?;
    let parts = with_standing(alloc, parts, Stand::At, count_at(value, Stand::At, numbers))?;
    with_standing(
        alloc,
        parts,
        Stand::Above,
        count_at(value, Stand::Above, numbers),
    )
}

fn with_standing(
    alloc: Global,
    parts: Vec<Part>,
    stand: Stand,
    count: u64,
) -> Result<Vec<Part>, Memory>
    ensures { IfOk result (λ new. new.items ≡ parts.items ++ standing_part stand count) }
{
    let mut parts = parts;
    if count == 0 {
        return Ok(parts);
    }
    parts.push(observed_part(alloc, count, None, Adds::Stands(stand)))?;
    Ok(parts)
}

/// How many numbers stand so.
fn count_at(value: Frac, stand: Stand, numbers: &[i64]) -> u64
    requires { pos 0 <ℤ value.den }
    ensures { result ≡ count_at value stand numbers.now }
{
    let mut count = 0;
    for number in numbers {
        if is_stand(stand, stand_to(value, *number)) {
            count += 1;
        }
    }
    count
}
