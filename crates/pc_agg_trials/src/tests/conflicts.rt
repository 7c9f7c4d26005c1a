//! Which constraints contradict each other, with texts by hand and by another program.
ghost use Rattle.std.specs.Prelude.{◌≤◌, IfOk};
ghost use Rattle.pc_model.specs.Accepted.{AreConstraints};
ghost use Rattle.pc_model.specs.WellFormed.{IsWellFormed};

use super::ranges::SHOP;
use pc_conflict::{Conflict, find, put_conflict};
use pc_lang::read_constraints;
use pc_list::Seq;
use pc_model::{Constraint, Refusal, Schema};
use pc_num::Memory;
use pc_schema::read_schema;
use std::alloc::Global;
use std::process::Abort;
use std::test::Fail;

/// The texts of a schema and constraints, a budget of nodes, and what is answered.
type Case<'a> = (&'a str, &'a str, u32, &'a str);

const PAIRS: &str = "k,cat,ab,bc,ac\n";

const MORE_PAIRS: &str = "k,cat,ab,bc,ac,dd\n";

// Twice the number of rows would be 3.
const EACH_ONCE: &str =
    "A: k in {ab, ac} => true, 1..1\nB: k in {ab, bc} => true, 1..1\nC: k in {bc, ac} => true, 1..1\n";

/// Where one text alone is right.
static WHOLE: [Case<'static>; 8] = [
    (
        SHOP,
        "c: price in 500.00..1000.00 => price in 0.00..100.00, 1..2\n",
        10_000,
        "conflict c\nwithout c\n",
    ),
    (SHOP, "", 10_000, "conflict none\n"),
    // What the second and the third need is left, so the first is left out.
    (
        PAIRS,
        "A: k = ab => true, 1..1\nB: k = ab => true, 2..2\nC: k = ab => true, 3..3\n",
        10_000,
        "conflict B, C\nwithout B\nrun 3: ab\nwithout C\nrun 2: ab\n",
    ),
    // The rows that the last alone speaks of are left out with it.
    (
        PAIRS,
        "A: k = ab => true, 1..1\nB: k = ab => true, 2..2\nZ: k = bc => true, 3..3\n",
        10_000,
        "conflict A, B\nwithout A\nrun 2: ab\nwithout B\nrun 1: ab\n",
    ),
    // No row that the last alone speaks of is outside once that is left out.
    (
        PAIRS,
        "A: k = ab => true, 0..0\noutside => k = ab, 1..1\nZ: k = bc => true, 2..2\n",
        10_000,
        "conflict A, outside\nwithout A\nrun 1: ab\nwithout outside\n",
    ),
    (
        PAIRS,
        "outside => k = ab, 1..1\nA: k = ab => true, 0..0\n",
        10_000,
        "conflict outside, A\nwithout outside\nwithout A\nrun 1: ab\n",
    ),
    (
        "k,cat,ab,a b\n",
        "\"a b\": k = ab => true, 1..1\nB: true => true, 0..0\n",
        10_000,
        "conflict \"a b\", B\nwithout \"a b\"\nwithout B\nrun 1: ab\n",
    ),
    // With one node the rows of the first three are at most 1.5 and at least that, beside any of the last.
    (
        MORE_PAIRS,
        "A: k in {ab, ac} => true, 1..1\nB: k in {ab, bc} => true, 1..1\nC: k in {bc, ac} => true, 1..1\nD: k = dd => true, 0..5\n",
        1,
        "conflict undecided\ntested A, B, C, D\n",
    ),
];

/// Where the lists of rows may be others: the first line.
static FIRST: [Case<'static>; 6] = [
    (
        PAIRS,
        EACH_ONCE,
        10_000,
        "conflict A, B, C\nwithout A\nrun ",
    ),
    // With one node the most rows are at most 1 and the fewest at least 2.
    (PAIRS, EACH_ONCE, 1, "conflict A, B, C\nwithout A\nrun "),
    (
        PAIRS,
        "D: k = ab => true, 0..5\nA: k in {ab, ac} => true, 1..1\nB: k in {ab, bc} => true, 1..1\nC: k in {bc, ac} => true, 1..1\n",
        10_000,
        "conflict A, B, C\nwithout A\nrun ",
    ),
    (
        MORE_PAIRS,
        "A: k in {ab, ac} => true, 1..1\nB: k in {ab, bc} => true, 1..1\nC: k in {bc, ac} => true, 1..1\nD: k = dd => true, 0..5\n",
        100,
        "conflict A, B, C\nwithout A\nrun ",
    ),
    (
        SHOP,
        "c1: branch = Chicago => price in 0.00..149.99, 0..5\nc2: true => price in 0.00..100.00, 0..3\n",
        10_000,
        "conflict none\n",
    ),
    // Each needs both others.
    (
        SHOP,
        "x: true => true, 0..2\na: day in 1..10 => true, 2..9\nb: day in 5..20 => true, 0..1\nc: day in 1..4 => true, 0..0\n",
        10_000,
        "conflict a, b, c\nwithout a\n",
    ),
];

/// The text of what is answered.
fn answered(
    rt: &impl Abort,
    alloc: Global,
    schema: &str,
    lines: &str,
    nodes: u32,
) -> Result<Vec<u8>, Refusal> {
    assert!(rt; 1 <= nodes && nodes <= 100_000);
    let schema = read_schema(alloc, schema.as_bytes())?;
    let constraints = read_constraints(alloc, &schema, lines.as_bytes())?;
    let text = text_of(alloc, &schema, constraints.as_slice(), nodes)?;
    Ok(text)
}

#[tactic(auto, using(pc_report::proofs::Scales::scales))]
fn text_of(
    alloc: Global,
    schema: &Schema,
    constraints: &[Constraint],
    nodes: u32,
) -> Result<Vec<u8>, Memory>
    requires formed { IsWellFormed schema.now }
    requires limited { AreConstraints schema.now constraints.now }
    requires nodes { (1 ≤ nodes) × (nodes ≤ 100_000) }
{
    let answer = find(alloc, schema, constraints, nodes)?;
    let mut text = Vec::new(alloc);
    put_conflict(alloc, schema, &mut text, constraints, &answer)?;
    Ok(text)
}

#[test]
fn conflicts_by_hand(rt: HostRuntime) -> Result<(), Fail> {
    for (number, (schema, lines, nodes, wanted)) in WHOLE.iter().enumerate() {
        let text = answered(&rt, rt.alloc(), schema, lines, *nodes)?;
        assert!(rt; text.as_slice() == wanted.as_bytes(), "case {number}");
    }
    Ok(())
}

#[test]
fn conflicts_with_any_lists(rt: HostRuntime) -> Result<(), Fail> {
    for (number, (schema, lines, nodes, wanted)) in FIRST.iter().enumerate() {
        let text = answered(&rt, rt.alloc(), schema, lines, *nodes)?;
        assert!(rt;
            text.as_slice().starts_with(wanted.as_bytes()),
            "case {number}"
        );
    }
    Ok(())
}
