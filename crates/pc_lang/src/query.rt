ghost use Rattle.std.specs.Prelude.{◌≡◌, ◌≤◌, length, IfOk};
ghost use Rattle.pc_model.specs.Accepted.{IsQuery};
ghost use Rattle.pc_model.specs.Refusals.{Answers};
ghost use Rattle.pc_model.specs.WellFormed.{IsWellFormed};
ghost use Rattle.pc_lang.specs.Meaning.{chosen_of, grouping_of, has_names_as, measured, names_place, numeric_place, place_from, query_of};

use crate::area::area_of;
use pc_lang_grammar::{Measure, Question, Ways};
use pc_list::Text;
use pc_model::{Agg, Area, Kind, Query, ReadStop, Reason, Schema};
use std::alloc::Global;

/// The query that a question stands for.
#[tactic(auto, using(crate::proofs::AcceptedQuestions::question_is_query))]
pub(crate) fn query_of(
    alloc: Global,
    schema: &Schema,
    question: &Question,
) -> Result<Query, ReadStop>
    requires well_formed { IsWellFormed schema.now }
    ensures answers { Answers result (query_of schema.now question.now) }
    ensures well_formed { IfOk result (IsQuery schema.now) }
{
    checked_query(alloc, schema, question)
}

#[tactic(auto, using(crate::proofs::Places::few_columns), unfolding(crate::specs::Meaning::query_of))]
fn checked_query(alloc: Global, schema: &Schema, question: &Question) -> Result<Query, ReadStop>
    requires well_formed { IsWellFormed schema.now }
    ensures { Answers result (query_of schema.now question.now) }
{
    let (agg, column) = measured(schema, &question.measure)?;
    let chosen = chosen_of(alloc, schema, &question.chosen)?;
    let group = grouping_of(schema, &question.group)?;
    Ok(Query {
        agg,
        column,
        chosen,
        group,
    })
}

#[tactic(auto, unfolding(crate::specs::Meaning::measured))]
fn measured(schema: &Schema, measure: &Measure) -> Result<(Agg, Option<u8>), Reason>
    requires { length schema.now.columns ≤ 12 }
    ensures { result ≡ measured schema.now measure.now }
{
    let (agg, name) = match measure {
        Measure::Count | Measure::CountOfAll => return Ok((Agg::Count, None)),
        Measure::Sum(name) => (Agg::Sum, name),
        Measure::Min(name) => (Agg::Min, name),
        Measure::Max(name) => (Agg::Max, name),
        Measure::Avg(name) => (Agg::Avg, name),
    };
    Ok((agg, Some(numeric_place(schema, name.as_bytes())?)))
}

// The place of the column of numbers of this name.
pub(crate) fn numeric_place(schema: &Schema, name: &[u8]) -> Result<u8, Reason>
    requires { length schema.now.columns ≤ 12 }
    ensures { result ≡ numeric_place schema.now name.now }
{
    place_of(schema, name, false)
}

// The place of the column of names of this name.
fn names_place(schema: &Schema, name: &[u8]) -> Result<u8, Reason>
    requires { length schema.now.columns ≤ 12 }
    ensures { result ≡ names_place schema.now name.now }
{
    place_of(schema, name, true)
}

// The place of the column of this name, which must be one of names or one of numbers, as is asked.
#[tactic(auto, using(crate::proofs::Places::steps))]
fn place_of(schema: &Schema, name: &[u8], of_names: bool) -> Result<u8, Reason>
    requires { length schema.now.columns ≤ 12 }
    ensures { result ≡ place_from (has_names_as of_names) 0 schema.now.columns name.now }
{
    for (place, column) in schema.columns.as_slice().iter().enumerate() {
        if column.name.as_bytes() == name {
            if has_names_as(&column.kind, of_names) {
                return Ok(place as u8);
            }
            return Err(Reason::WrongKind);
        }
    }
    Err(Reason::UnknownColumn)
}

fn has_names_as(kind: &Kind, asked: bool) -> bool
    ensures { result ≡ has_names_as asked kind.now }
{
    match kind {
        Kind::Int { .. } | Kind::Dec { .. } => !asked,
        Kind::Cat { .. } => asked,
    }
}

#[tactic(auto, using(pc_model::proofs::FewNames::have_few_names))]
pub(crate) fn chosen_of(
    alloc: Global,
    schema: &Schema,
    ways: &Option<Ways>,
) -> Result<Area, ReadStop>
    requires well_formed { IsWellFormed schema.now }
    ensures { Answers result (chosen_of schema.now ways.now) }
{
    match ways {
        Some(ways) => area_of(alloc, schema, ways),
        None => schema.whole_area(alloc).map_err(|_| ReadStop::Memory),
    }
}

fn grouping_of(schema: &Schema, name: &Option<Text>) -> Result<Option<u8>, Reason>
    requires { length schema.now.columns ≤ 12 }
    ensures { result ≡ grouping_of schema.now name.now }
{
    match name {
        Some(name) => Ok(Some(names_place(schema, name.as_bytes())?)),
        None => Ok(None),
    }
}
