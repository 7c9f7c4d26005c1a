ghost use Rattle.std.specs.Prelude.{◌≡◌, IfOk, Option, map};
ghost use Rattle.pc_model.specs.WellFormed.{HaveFewNames, IsWellFormed};
ghost use Rattle.pc_lang.specs.Canonical.{are_whole, chosen_for, count_text, group_for, head_for, line_for, measure_for, measured_name, name_at, part_for, question_for, ways_for};

use crate::canonical_part::{no_text, number_text, part_for};
use crate::whole::is_whole;
use pc_lang_grammar::{Head, Line, Measure, Part, Question, Ways};
use pc_list::{Seq, Text};
use pc_model::{Agg, Area, Column, Constraint, Query, Region, Schema, When};
use pc_num::Memory;
use std::alloc::Global;

/// The canonical line of a constraint.
#[tactic(auto, unfolding(crate::specs::Canonical::line_for))]
pub(crate) fn line_for(
    alloc: Global,
    schema: &Schema,
    constraint: &Constraint,
) -> Result<Line, Memory>
    requires { IsWellFormed schema.now }
    ensures { IfOk result (λ line. line ≡ line_for schema.now constraint.now) }
{
    Ok(Line {
        head: head_for(alloc, schema, &constraint.name, &constraint.when)?,
        values: part_for(alloc, schema, &constraint.values)?,
        least: count_text(alloc, constraint.least)?,
        most: count_text(alloc, constraint.most)?,
    })
}

#[tactic(auto, unfolding(crate::specs::Canonical::head_for))]
fn head_for(alloc: Global, schema: &Schema, name: &Text, when: &When) -> Result<Head, Memory>
    requires { IsWellFormed schema.now }
    ensures { IfOk result (λ head. head ≡ head_for schema.now name.now when.now) }
{
    match when {
        When::Boxes(area) => Ok(Head::Named {
            name: name.clone()?,
            when: ways_for(alloc, schema, area.boxes.as_slice())?,
        }),
        When::Outside => Ok(Head::Outside),
    }
}

// The part of each box.
#[tactic(auto, unfolding(crate::specs::Canonical::ways_for))]
fn ways_for(alloc: Global, schema: &Schema, boxes: &[Region]) -> Result<Ways, Memory>
    requires { IsWellFormed schema.now }
    ensures { IfOk result (λ ways. ways ≡ ways_for schema.now boxes.now) }
{
    match boxes {
        [first, others @ ..] => Ok(Ways {
            first: part_for(alloc, schema, first)?,
            others: parts_for(alloc, schema, others)?,
        }),
        [] => Ok(Ways {
            first: Part {
                atoms: Seq::new(alloc),
            },
            others: Seq::new(alloc),
        }),
    }
}

#[tactic(auto, using(crate::proofs::Appending::part_steps))]
fn parts_for(alloc: Global, schema: &Schema, boxes: &[Region]) -> Result<Seq<Part>, Memory>
    requires { IsWellFormed schema.now }
    ensures { IfOk result (λ parts. parts ≡ map (part_for schema.now) boxes.now) }
{
    let mut parts = Seq::new(alloc);
    for region in boxes {
        parts.push(part_for(alloc, schema, region)?)?;
    }
    Ok(parts)
}

pub(crate) fn count_text(alloc: Global, count: u64) -> Result<Seq<u8>, Memory>
    ensures { IfOk result (λ text. text ≡ count_text count) }
{
    number_text(alloc, i128::from(count), 0)
}

/// The canonical question of a query.
#[tactic(auto, unfolding(crate::specs::Canonical::question_for))]
pub(crate) fn question_for(
    alloc: Global,
    schema: &Schema,
    query: &Query,
) -> Result<Question, Memory>
    requires { IsWellFormed schema.now }
    ensures { IfOk result (λ question. question ≡ question_for schema.now query.now) }
{
    Ok(Question {
        measure: measure_for(alloc, schema, query.agg, query.column)?,
        chosen: chosen_for(alloc, schema, &query.chosen)?,
        group: group_for(alloc, schema, query.group)?,
    })
}

#[tactic(auto, unfolding(crate::specs::Canonical::measure_for))]
fn measure_for(
    alloc: Global,
    schema: &Schema,
    agg: Agg,
    column: Option<u8>,
) -> Result<Measure, Memory>
    ensures { IfOk result (λ measure. measure ≡ measure_for schema.now agg column) }
{
    match agg {
        Agg::Count => Ok(Measure::Count),
        Agg::Sum => Ok(Measure::Sum(measured_name(alloc, schema, column)?)),
        Agg::Min => Ok(Measure::Min(measured_name(alloc, schema, column)?)),
        Agg::Max => Ok(Measure::Max(measured_name(alloc, schema, column)?)),
        Agg::Avg => Ok(Measure::Avg(measured_name(alloc, schema, column)?)),
    }
}

fn measured_name(alloc: Global, schema: &Schema, column: Option<u8>) -> Result<Text, Memory>
    ensures { IfOk result (λ name. name ≡ measured_name schema.now column) }
{
    match column {
        Some(place) => name_at(alloc, schema.columns.as_slice(), place),
        None => Ok(no_text(alloc)),
    }
}

// The parts of an area that is not written as the whole domain.
#[tactic(auto, using(pc_model::proofs::FewNames::have_few_names))]
pub(crate) fn chosen_for(
    alloc: Global,
    schema: &Schema,
    area: &Area,
) -> Result<Option<Ways>, Memory>
    requires { IsWellFormed schema.now }
    ensures { IfOk result (λ chosen. chosen ≡ chosen_for schema.now area.now) }
{
    let boxes = area.boxes.as_slice();
    if are_whole(schema, boxes) {
        return Ok(None);
    }
    Ok(Some(ways_for(alloc, schema, boxes)?))
}

fn are_whole(schema: &Schema, boxes: &[Region]) -> bool
    requires { HaveFewNames schema.now.columns }
    ensures { result ≡ are_whole schema.now boxes.now }
{
    match boxes {
        [region] => is_whole(schema, region),
        _ => false,
    }
}

fn group_for(alloc: Global, schema: &Schema, group: Option<u8>) -> Result<Option<Text>, Memory>
    ensures { IfOk result (λ name. name ≡ group_for schema.now group) }
{
    match group {
        Some(place) => Ok(Some(name_at(alloc, schema.columns.as_slice(), place)?)),
        None => Ok(None),
    }
}

// The name of the column at a place, or no text where there is none.
#[tactic(auto, using(crate::proofs::NamesAt::steps))]
pub(crate) fn name_at(alloc: Global, columns: &[Column], place: u8) -> Result<Text, Memory>
    ensures { IfOk result (λ name. name ≡ name_at columns.now place) }
{
    match columns.get(usize::from(place)) {
        Some(column) => Ok(column.name.clone()?),
        None => Ok(no_text(alloc)),
    }
}
