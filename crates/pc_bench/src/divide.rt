ghost use Rattle.pc_cells_tree.specs.Linked.{CanBeDivided};

use crate::family::Family;
use crate::trouble::Trouble;
use pc_cells::{Cells, Shared, decompose};
use pc_lang::read_constraints;
use pc_model::{Area, Constraint, Schema};
use pc_num::Memory;
use pc_schema::read_schema;
use std::alloc::Global;

/// What is divided, and how often.
#[derive(Clone, Copy)]
struct Plan {
    family: Family,
    constraints: u32,
    times: u32,
}

/// Divides the domain of generated constraints, and prints what came of it.
pub(crate) fn tell<R: Print + AllocGlobal>(
    rt: &R,
    family: &str,
    constraints: &str,
    times: &str,
) -> Result<(), Trouble> {
    let plan = Plan {
        family: Family::named(family).ok_or(Trouble::Usage)?,
        constraints: number(constraints)?,
        times: number(times)?,
    };
    if plan.times == 0 {
        let last = last_constraint(rt.alloc(), &plan)?;
        println!(rt;
            "cuts {} leaves {} columns {}",
            last.cuts, last.leaves, last.columns
        )?;
        return Ok(());
    }
    let found = divide(rt.alloc(), &plan)?;
    let leaves = found.tree.nodes.len() / 2 + 1;
    let cells = found.cells.len();
    println!(rt; "leaves {leaves} cells {cells}")?;
    Ok(())
}

fn number(word: &str) -> Result<u32, Trouble> {
    word.parse::<u32>().map_err(|_| Trouble::Usage)
}

/// Divides the domain as often as it is to be, and answers the cells of the last time.
#[tactic(auto, using(pc_model::proofs::Areas::whole_is_area, pc_model::proofs::FewNames::have_few_names))]
fn divide(alloc: Global, plan: &Plan) -> Result<Cells, Trouble> {
    let schema = read_schema(alloc, plan.family.schema_text(alloc)?.as_bytes())?;
    let text = plan.family.constraints_text(alloc, plan.constraints)?;
    let constraints = read_constraints(alloc, &schema, text.as_bytes())?;
    let chosen = Area::of_box(alloc, schema.whole(alloc)?)?;
    let mut found = decompose(alloc, &schema, constraints.as_slice(), &chosen)?;
    for _ in 1..plan.times {
        found = decompose(alloc, &schema, constraints.as_slice(), &chosen)?;
    }
    Ok(found)
}

/// How many cuts the last constraint takes, and of how many leaves that are settled for the others.
#[derive(Clone, Copy)]
struct LastConstraint {
    cuts: u64,
    leaves: usize,
    columns: usize,
}

#[tactic(auto, using(pc_model::proofs::Areas::whole_is_area, pc_model::proofs::FewNames::have_few_names))]
fn last_constraint(alloc: Global, plan: &Plan) -> Result<LastConstraint, Trouble> {
    let schema = read_schema(alloc, plan.family.schema_text(alloc)?.as_bytes())?;
    let text = plan.family.constraints_text(alloc, plan.constraints)?;
    let constraints = read_constraints(alloc, &schema, text.as_bytes())?;
    let whole = Area::of_box(alloc, schema.whole(alloc)?)?;
    let last = last_of(alloc, &schema, constraints.as_slice(), &whole)?;
    Ok(last)
}

fn last_of(
    alloc: Global,
    schema: &Schema,
    constraints: &[Constraint],
    chosen: &Area,
) -> Result<LastConstraint, Memory>
    requires asked { CanBeDivided schema.now constraints.now chosen.now }
{
    let others = &constraints[..constraints.len().saturating_sub(1)];
    let mut shared = Shared::new(alloc, schema)?;
    shared.refine(schema, others, chosen)?;
    let leaves = shared.nodes.len() / 2 + 1;
    let cuts = shared.refine(schema, constraints, chosen)?;
    Ok(LastConstraint {
        cuts,
        leaves,
        columns: schema.columns.len(),
    })
}
