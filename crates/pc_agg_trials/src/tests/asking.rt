//! Reads a case and asks the calls, each step in a function of its own that sees few facts: one that holds all of a case
//! took minutes to check.
ghost use Rattle.std.specs.Prelude.{◌≤◌, ◌^◌, nat_abs, IfOk};
ghost use Rattle.pc_model.specs.Accepted.{AreConstraints, IsQuery};
ghost use Rattle.pc_model.specs.WellFormed.{IsWellFormed, HaveFewNames};
ghost use Rattle.pc_agg_search.specs.Asked.{AreAsked, AreCells};

use super::Texts;
use pc_agg::{Settled, bound_count, bound_max, bound_min, bound_sum, settle};
use pc_cells::{Cells, decompose};
use pc_lang::{read_constraints, read_query};
use pc_list::Seq;
use pc_model::{Agg, Constraint, Folded, Query, Refusal, Schema};
use pc_num::Memory;
use pc_proof::{Answer, End, Lack};
use pc_rows::read_rows;
use pc_schema::read_schema;
use std::alloc::Global;
use std::process::Abort;

/// What texts stand for.
#[derive(Drop)]
pub(super) struct Case {
    pub(super) schema: Schema,
    pub(super) constraints: Seq<Constraint>,
    pub(super) query: Query,
    pub(super) seen: Folded,
}

/// What texts stand for, and the answers.
#[derive(Drop)]
pub(super) struct Outcome {
    pub(super) case: Case,
    pub(super) settled: Settled,
    pub(super) answer: Answer,
}

/// Reads the texts, and asks within a budget of nodes.
pub(super) fn answered(
    rt: &impl Abort,
    alloc: Global,
    texts: Texts<'_>,
    nodes: u32,
) -> Result<Outcome, Refusal> {
    let case = read_case(alloc, texts)?;
    let (settled, answer) = ask(rt, alloc, &case, nodes)?;
    Ok(Outcome {
        case,
        settled,
        answer,
    })
}

/// Lets go of an outcome, part by part: a function that lets go of one by itself takes half a minute to check.
pub(super) fn discard(outcome: Outcome) {
    let Outcome {
        case: _case,
        settled: _settled,
        answer,
    } = outcome;
    discard_answer(answer);
}

fn discard_answer(answer: Answer) {
    let Answer {
        relation: _relation,
        lack,
        ends,
    } = answer;
    discard_lack(lack);
    discard_ends(ends);
}

fn discard_lack(_lack: Lack) {}

fn discard_ends(ends: Option<(End, End)>) {
    if let Some((low, high)) = ends {
        discard_end(low);
        discard_end(high);
    }
}

fn discard_end(_end: End) {}

#[tactic(auto, using(pc_model::proofs::FewNames::have_few_names))]
fn read_case(alloc: Global, texts: Texts<'_>) -> Result<Case, Refusal>
    ensures formed { IfOk result (λ case. IsWellFormed case.schema) }
    ensures limited { IfOk result (λ case. AreConstraints case.schema case.constraints) }
    ensures well { IfOk result (λ case. IsQuery case.schema case.query) }
    ensures few { IfOk result (λ case. case.seen.count ≤ 1_000_000) }
    ensures small { IfOk result (λ case. nat_abs case.seen.sum ≤ 2 ^ 83) }
{
    let (schema, rows, lines, question) = texts;
    let schema = read_schema(alloc, schema.as_bytes())?;
    let constraints = read_constraints(alloc, &schema, lines.as_bytes())?;
    let query = read_query(alloc, &schema, question, 1)?;
    let seen = fold_of(alloc, &schema, &query, rows)?;
    Ok(Case {
        schema,
        constraints,
        query,
        seen,
    })
}

fn fold_of(alloc: Global, schema: &Schema, query: &Query, rows: &str) -> Result<Folded, Refusal>
    requires { HaveFewNames schema.now.columns }
    ensures few { IfOk result (λ seen. seen.count ≤ 1_000_000) }
    ensures small { IfOk result (λ seen. nat_abs seen.sum ≤ 2 ^ 83) }
{
    let rows = read_rows(alloc, schema, rows.as_bytes())?;
    Ok(rows.fold(query))
}

fn ask(rt: &impl Abort, alloc: Global, case: &Case, nodes: u32) -> Result<(Settled, Answer), Memory>
    requires formed { IsWellFormed case.now.schema }
    requires limited { AreConstraints case.now.schema case.now.constraints }
    requires well { IsQuery case.now.schema case.now.query }
    requires few { case.now.seen.count ≤ 1_000_000 }
    requires small { nat_abs case.now.seen.sum ≤ 2 ^ 83 }
{
    assert!(rt; 1 <= nodes && nodes <= 100_000);
    assert!(rt; case.query.group.is_none());
    assert!(rt; case.query.agg != Agg::Avg);
    let constraints = case.constraints.as_slice();
    let cells = find_cells(alloc, &case.schema, constraints, &case.query)?;
    ask_over(
        alloc,
        &case.schema,
        &case.seen,
        constraints,
        &cells,
        &case.query,
        nodes,
    )
}

fn find_cells(
    alloc: Global,
    schema: &Schema,
    constraints: &[Constraint],
    query: &Query,
) -> Result<Cells, Memory>
    requires formed { IsWellFormed schema.now }
    requires limited { AreConstraints schema.now constraints.now }
    requires well { IsQuery schema.now query.now }
    ensures { IfOk result (AreCells schema.now constraints.now query.now) }
{
    let cells = decompose(alloc, schema, constraints, &query.chosen)?;
    Ok(cells)
}

fn ask_over(
    alloc: Global,
    schema: &Schema,
    seen: &Folded,
    constraints: &[Constraint],
    cells: &Cells,
    query: &Query,
    nodes: u32,
) -> Result<(Settled, Answer), Memory>
    requires asked { AreAsked schema.now seen.now constraints.now cells.now query.now nodes }
{
    let settled = settle(alloc, schema, seen, constraints, cells, query, nodes)?;
    let answer = bound(alloc, schema, seen, constraints, cells, query, nodes)?;
    Ok((settled, answer))
}

fn bound(
    alloc: Global,
    schema: &Schema,
    seen: &Folded,
    constraints: &[Constraint],
    cells: &Cells,
    query: &Query,
    nodes: u32,
) -> Result<Answer, Memory>
    requires asked { AreAsked schema.now seen.now constraints.now cells.now query.now nodes }
{
    match query.agg {
        Agg::Count => bound_count(alloc, schema, seen, constraints, cells, query, nodes),
        Agg::Sum => bound_sum(alloc, schema, seen, constraints, cells, query, nodes),
        Agg::Min => bound_min(alloc, schema, seen, constraints, cells, query, nodes),
        Agg::Max => bound_max(alloc, schema, seen, constraints, cells, query, nodes),
        // no case asks for one
        Agg::Avg => Err(Memory),
    }
}
