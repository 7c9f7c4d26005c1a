ghost use Rattle.std.specs.Prelude.{◌≡◌, ◌≤◌, ◌*◌, nat_abs, IfOk};
ghost use Rattle.pc_num.specs.Scaled.{greatest_size};
ghost use Rattle.pc_model.specs.declared.query.Agg.TheVariants as aggs;
ghost use Rattle.pc_agg.specs.Owed.{answer_of};
ghost use Rattle.pc_agg_search.specs.Asked.{AreAsked};
ghost use Rattle.pc_avg.specs.Averages.{both, has_ends, HasShortEnds};
ghost use Rattle.pc_agg.specs.Calls.{AreFound, OwesCall, OwesSettling};

use crate::copies::{copied_lack, copied_relation};
use crate::ends::search_end;
use pc_agg::Settled;
use pc_agg_search::{Extreme, Problem};
use pc_cells::Cells;
use pc_model::{Constraint, Folded, Query, Schema};
use pc_num::Memory;
use pc_proof::{Answer, End, Lack, Relation};
use std::alloc::Global;

/// The range of the average of a column over the rows that the query chooses, where those observed come to `seen`, from what
/// was settled for it, by searches of at most so many nodes each.
pub fn bound_avg(
    alloc: Global,
    schema: &Schema,
    seen: &Folded,
    constraints: &[Constraint],
    cells: &Cells,
    query: &Query,
    settled: &Settled,
    nodes: u32,
) -> Result<Answer, Memory>
    requires asked { AreAsked schema.now seen.now constraints.now cells.now query.now nodes }
    requires average { query.now.agg ≡ aggs.Avg }
    requires small_seen { nat_abs seen.now.sum ≤ 1_000_000 * greatest_size }
    requires lawful { AreFound schema.now constraints.now cells.now query.now settled.now.found }
    requires settled { OwesSettling schema.now seen.now constraints.now cells.now query.now nodes settled.now }
    ensures owes { OwesCall schema.now seen.now constraints.now cells.now query.now nodes result }
    ensures kept { IfOk result (λ answer. (answer.relation ≡ settled.now.relation) × (answer.lack ≡ settled.now.lack)) }
    ensures short { IfOk result HasShortEnds }
{
    let problem = Problem {
        schema,
        constraints,
        query,
        cells,
        nodes,
    };
    if !has_ends(settled) {
        return without_ends(settled);
    }
    let found = settled.found.as_slice();
    let low = search_end(alloc, &problem, seen, Extreme::Low, found)?;
    let high = search_end(alloc, &problem, seen, Extreme::High, found)?;
    let mut answer = without_ends(settled)?;
    answer.ends = both(low, high);
    Ok(answer)
}

/// Whether some list gives a value, as far as is known.
fn has_ends(settled: &Settled) -> bool
    ensures { result ≡ has_ends settled.now.relation settled.now.lack }
{
    if let Relation::Impossible(_) = &settled.relation {
        return false;
    }
    if let Lack::Always(_) = &settled.lack {
        return false;
    }
    true
}

/// What was settled, as an answer.
fn without_ends(settled: &Settled) -> Result<Answer, Memory>
    ensures { IfOk result (λ answer. answer ≡ answer_of settled.now.relation settled.now.lack) }
{
    Ok(Answer {
        relation: copied_relation(&settled.relation)?,
        lack: copied_lack(&settled.lack)?,
        ends: None,
    })
}

/// Both ends, where both are there.
fn both(low: Option<End>, high: Option<End>) -> Option<(End, End)>
    ensures { result ≡ both low high }
{
    Some((low?, high?))
}
