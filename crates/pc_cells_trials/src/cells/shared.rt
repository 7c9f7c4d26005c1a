ghost use Rattle.std.specs.Prelude.{OnOk};
ghost use Rattle.pc_model.specs.WellFormed.{IsWellFormed};
ghost use Rattle.pc_cells_tree.specs.Linked.{CanBeDivided, IsTree};

use super::SHOP;
use pc_cells::{Cells, Shared, decompose};
use pc_lang::{read_constraints, read_query};
use pc_model::{Area, Constraint, Schema};
use pc_num::Memory;
use pc_schema::read_schema;
use std::alloc::Global;
use std::test::Fail;

// Constraints that are taken in one after the other, and a query.
static IN_TURN: [(&str, &str); 12] = [
    (
        "a: day in 1..10 => true, 0..1\nb: day in 5..20 => true, 0..1\n",
        "count",
    ),
    (
        "a: day in 5..20 => true, 0..1\nb: day in 1..10 => true, 0..1\n",
        "count where day <= 7",
    ),
    (
        "a: branch = Chicago => price <= 149.99, 0..5\nb: true => price <= 100, 0..3\n",
        "count",
    ),
    (
        "a: true => price <= 100, 0..3\nb: branch = Chicago => price <= 149.99, 0..5\n",
        "sum(price) where branch = Chicago",
    ),
    (
        "a: price >= 500 => price <= 100, 0..1\nb: day in 3..4 => true, 0..1\n",
        "count",
    ),
    (
        "a: branch in {Chicago, Trenton} => day in 3..4, 0..1\nb: branch = NewYork => day >= 30, 0..1\nc: branch = Trenton and day = 2 => true, 0..1\n",
        "count where price > 1",
    ),
    (
        "a: day in 10..20 => true, 0..1\nb: day in 5..31 and branch = Trenton => price = 2, 0..1\nc: price <= 3 => day >= 7, 0..1\n",
        "count",
    ),
    (
        "a: day = 1 => true, 0..1\nb: day = 2 => true, 0..1\nc: day = 3 => true, 0..1\nd: day <= 3 => true, 0..1\n",
        "count where day = 2",
    ),
    (
        "a: true => true, 0..1\nb: true => day = 1, 0..1\nc: day = 1 => branch = Chicago, 0..1\n",
        "count",
    ),
    (
        "a: day in 1..10 => price <= 1, 0..1\n",
        "count where price > 1",
    ),
    (
        "a: day in 1..10 or day in 5..20 => true, 0..1\nb: branch = Chicago and day <= 3 or day >= 15 => price <= 100, 0..1\n",
        "count where day <= 7 or branch = Trenton",
    ),
    (
        "outside => price <= 100, 0..1\na: day in 1..10 or branch = Chicago => true, 0..1\nb: branch in {NewYork, Trenton} and day >= 5 => true, 0..1\n",
        "count where day <= 7 or price > 1",
    ),
];

// Takes in one constraint after the other, but for the last one.
fn refine_in_turn(
    shared: &mut Shared,
    schema: &Schema,
    constraints: &[Constraint],
    chosen: &Area,
) -> Result<(), Memory>
    requires asked { CanBeDivided schema.now constraints.now chosen.now }
    requires tree { IsTree schema.now shared.old.nodes }
    ensures { OnOk result (IsTree schema.now shared.new.nodes) }
{
    for end in 0..constraints.len() {
        shared.refine(schema, &constraints[..end], chosen)?;
    }
    Ok(())
}

fn have_same_classes(found: &Cells, other: &Cells) -> bool {
    found.cells.len() == other.cells.len() && has_classes_of(found, other)
}

fn has_classes_of(found: &Cells, other: &Cells) -> bool {
    other
        .cells
        .as_slice()
        .iter()
        .all(|cell| has_class(found, cell.mask, cell.chosen))
}

fn has_class(found: &Cells, mask: u32, chosen: bool) -> bool {
    found
        .cells
        .as_slice()
        .iter()
        .any(|cell| cell.mask == mask && cell.chosen == chosen)
}

/// Whether the constraints give the same cells one after the other as at once.
fn have_same_cells(
    alloc: Global,
    schema: &Schema,
    constraints: &[Constraint],
    chosen: &Area,
) -> Result<bool, Memory>
    requires asked { CanBeDivided schema.now constraints.now chosen.now }
{
    let mut shared = Shared::new(alloc, schema)?;
    refine_in_turn(&mut shared, schema, constraints, chosen)?;
    shared.refine(schema, constraints, chosen)?;
    let found = shared.cells(schema, constraints, chosen)?;
    Ok(have_same_classes(&found, &decompose(alloc, schema, constraints, chosen)?))
}

/// The same of what is read; false where a text is refused.
pub(super) fn are_alike_in_turn(
    alloc: Global,
    schema: &Schema,
    text: &str,
    question: &str,
) -> Result<bool, Memory>
    requires well_formed { IsWellFormed schema.now }
{
    let Ok(constraints) = read_constraints(alloc, schema, text.as_bytes()) else {
        return Ok(false);
    };
    let Ok(query) = read_query(alloc, schema, question, 1) else {
        return Ok(false);
    };
    have_same_cells(alloc, schema, constraints.as_slice(), &query.chosen)
}

#[test]
fn constraints_in_turn_give_the_same_classes(rt: HostRuntime) -> Result<(), Fail> {
    let alloc = rt.alloc();
    let Ok(schema) = read_schema(alloc, SHOP) else {
        return Err(Fail::new("no schema"));
    };
    for (number, (text, question)) in IN_TURN.into_iter().enumerate() {
        let alike = are_alike_in_turn(alloc, &schema, text, question)?;
        assert!(rt; alike, "case {number}");
    }
    Ok(())
}
