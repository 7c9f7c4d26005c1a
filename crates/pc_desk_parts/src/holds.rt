ghost use Rattle.std.specs.Prelude.{◌≡◌, ◌++◌, ◌<◌, ◌&&◌, pos, ◌<ℤ◌, List, IfOk, Some, length};
ghost use Rattle.pc_model.specs.declared.row.Row.{Row};
ghost use Rattle.pc_model.specs.Aggregate.{number_at};
ghost use Rattle.pc_model.specs.Membership.{is_under};
ghost use Rattle.pc_model.specs.declared.constraint.Constraint.{Constraint};
ghost use Rattle.pc_model.specs.Possible.{count_of};
ghost use Rattle.pc_model.specs.Runs.{rows_of};
ghost use Rattle.pc_model.specs.WellFormed.{IsSmall};
ghost use Rattle.pc_desk_parts.specs.Steps.{IsStep, step_block, step_blocks};
ghost use Rattle.pc_desk_parts.specs.Counts.{MayStep, counts_of};
ghost use Rattle.pc_desk_parts.specs.Held.{beyond_hold, block_hold, column_of, has_next, is_narrower, narrows, narrows_kind, held_of, is_full, limit_at, limit_hold, limits_of, next_at, next_in, next_number, next_of, of_each, place_if_under, places_under, schema_hold};

use crate::asked::{Asked, Reached, Side};
use crate::part::Hold;
use crate::pulls::{Pull, Way, pull_of, stand_of, way_for};
use crate::rows::number_at;
use crate::stands::{Stand, is_at};
use pc_list::Seq;
use pc_model::{Constraint, Kind, Region, Row, Schema, Side as ColumnSide};
use pc_num::Memory;
use std::alloc::Global;

/// The places of the constraints that speak of a row.
#[tactic(auto, using(crate::proofs::Each::steps))]
pub(crate) fn places_under(
    alloc: Global,
    constraints: &[Constraint],
    row: &Row,
) -> Result<Seq<usize>, Memory>
    ensures { IfOk result (λ places. places ≡ places_under constraints.now row.now) }
{
    let mut places = Seq::new(alloc);
    for (place, constraint) in constraints.iter().enumerate() {
        if constraint.speaks_of(constraints, row) {
            places.push(place)?;
        }
    }
    Ok(places)
}

/// What keeps rows like this one from giving more, where so many lost rows are under each constraint.
pub(crate) fn held_of(
    alloc: Global,
    ask: &Asked,
    reached: &Reached,
    counts: &[u64],
    row: &Row,
) -> Result<Seq<Hold>, Memory>
    requires positive { pos 0 <ℤ reached.now.value.den }
    requires counted { counts.now ≡ counts_of ask.now.constraints.now (rows_of reached.now.runs.now) }
    requires inside { MayStep ask.now.query.now.column row.now }
    ensures { IfOk result (λ held. held ≡ held_of ask.now reached.now row.now) }
{
    let pull = pull_of(ask, reached, row);
    let limits = limits_of(alloc, ask.constraints, counts, pull, row)?;
    match next_of(ask, reached, row)? {
        Some(next) => with_blocks(limits, &step_to(ask, row, &next)),
        None => Ok(limits),
    }
}

/// The limits, for so many lost rows under each constraint.
fn limits_of(
    alloc: Global,
    constraints: &[Constraint],
    counts: &[u64],
    pull: Pull,
    row: &Row,
) -> Result<Seq<Hold>, Memory>
    requires { length counts.now ≡ length constraints.now }
    ensures { (lost : List Row) → counts.now ≡ counts_of constraints.now lost
        → IfOk result (λ held. held ≡ limits_of constraints.now lost pull row.now) }
{
    let mut held = Seq::new(alloc);
    for (place, constraint) in constraints.iter().enumerate() {
        if is_limit(constraints, constraint, counts[place], pull, row) {
            held.push(limit_hold(pull, place))?;
        }
    }
    Ok(held)
}

fn is_limit(
    constraints: &[Constraint],
    constraint: &Constraint,
    count: u64,
    pull: Pull,
    row: &Row,
) -> bool
    ensures { result ≡ (is_under constraints.now constraint.now row.now && is_full pull constraint.now count) }
{
    constraint.speaks_of(constraints, row) && is_full(pull, constraint, count)
}

fn is_full(pull: Pull, constraint: &Constraint, count: u64) -> bool
    ensures { result ≡ is_full pull constraint.now count }
{
    match pull {
        Pull::More => count == constraint.most,
        Pull::Fewer => count == constraint.least,
        Pull::Neither => false,
    }
}

fn limit_hold(pull: Pull, place: usize) -> Hold
    ensures { result ≡ limit_hold pull place }
{
    match pull {
        Pull::More => Hold::Most(place),
        Pull::Fewer => Hold::Least(place),
        Pull::Neither => Hold::Schema,
    }
}

/// The row with the next number further out in the query's column, where that matters.
fn next_of(ask: &Asked, reached: &Reached, row: &Row) -> Result<Option<Row>, Memory>
    requires positive { pos 0 <ℤ reached.now.value.den }
    requires inside { MayStep ask.now.query.now.column row.now }
    ensures { IfOk result (λ next. next ≡ next_of ask.now reached.now row.now) }
{
    if has_next(way_for(ask), stand_of(ask, reached, row)) {
        return next_in(reached.side, row, ask.query.column);
    }
    Ok(None)
}

fn has_next(way: Way, stand: Stand) -> bool
    ensures { result ≡ has_next way stand }
{
    match way {
        Way::Adding => true,
        Way::Being => true,
        Way::Standing => is_at(stand),
    }
}

fn next_in(side: Side, row: &Row, column: Option<u8>) -> Result<Option<Row>, Memory>
    requires { MayStep column row.now }
    ensures { IfOk result (λ next. next ≡ next_in side row.now column) }
{
    match column {
        Some(column) => Ok(Some(next_at(side, row, usize::from(column))?)),
        None => Ok(None),
    }
}

fn next_at(side: Side, row: &Row, column: usize) -> Result<Row, Memory>
    requires inside { column < length row.now.cells }
    requires small { IsSmall (number_at row.now column) }
    ensures { IfOk result (λ next. next ≡ next_at side row.now column) }
{
    let number = next_number(side, number_at(row, column));
    let mut cells = row.cells.clone()?.into_vec();
    cells[column] = number;
    Ok(Row {
        cells: Seq::from_vec(cells),
    })
}

fn next_number(side: Side, number: i64) -> i64
    requires { IsSmall number }
    ensures { result ≡ next_number side number }
{
    match side {
        Side::Low => number - 1,
        Side::High => number + 1,
    }
}

/// A row, and one with the next number in a column, which the schema allows or not.
#[derive(Clone, Copy)]
struct Step<'a, 'b, 'c> {
    schema: &'a Schema,
    constraints: &'a [Constraint],
    row: &'b Row,
    next: &'c Row,
    column: usize,
    allowed: bool,
}

fn step_to<'a, 'b, 'c>(ask: &Asked<'a>, row: &'b Row, next: &'c Row) -> Step<'a, 'b, 'c>
    ensures { IsStep ask.now row.now next.now result }
{
    Step {
        schema: ask.schema,
        constraints: ask.constraints,
        row,
        next,
        column: column_of(ask),
        allowed: ask.schema.allows_row(next),
    }
}

fn column_of(ask: &Asked) -> usize
    ensures { result ≡ column_of ask.now }
{
    match ask.query.column {
        Some(column) => usize::from(column),
        None => 0,
    }
}

/// These, and what stands before the next row.
fn with_blocks(held: Seq<Hold>, step: &Step) -> Result<Seq<Hold>, Memory>
    ensures { IfOk result (λ new. new ≡ held ++ step_blocks step.now) }
{
    let held = with_each_block(held, step)?;
    with_schema(held, step.allowed)
}

#[tactic(auto, using(crate::proofs::Each::steps))]
fn with_each_block(held: Seq<Hold>, step: &Step) -> Result<Seq<Hold>, Memory>
    ensures { IfOk result (λ new. new ≡ held ++ of_each (step_block step.now) step.now.constraints.now) }
{
    let mut held = held;
    let constraints = step.constraints;
    for (place, constraint) in constraints.iter().enumerate() {
        held = with_block(held, step, constraint, place)?;
    }
    Ok(held)
}

fn with_block(
    held: Seq<Hold>,
    step: &Step,
    constraint: &Constraint,
    place: usize,
) -> Result<Seq<Hold>, Memory>
    ensures { IfOk result (λ new. new ≡ held ++ step_block step.now place constraint.now) }
{
    let here = constraint.speaks_of(step.constraints, step.row);
    if step.allowed {
        let there = constraint.speaks_of(step.constraints, step.next);
        let inside = constraint.values.has(step.next);
        return with_block_hold(held, here, there, inside, place);
    }
    let narrowed = narrows(step.schema, step.column, &constraint.values);
    with_beyond_hold(held, here && narrowed, place)
}

fn with_beyond_hold(held: Seq<Hold>, narrowed: bool, place: usize) -> Result<Seq<Hold>, Memory>
    ensures { IfOk result (λ new. new ≡ held ++ beyond_hold narrowed place) }
{
    let mut held = held;
    if narrowed {
        held.push(Hold::Values(place))?;
    }
    Ok(held)
}

// Whether values rule out some number that the column has.
#[tactic(auto, unfolding(crate::specs::Held::narrows))]
fn narrows(schema: &Schema, column: usize, values: &Region) -> bool
    ensures { result ≡ narrows schema.now column values.now }
{
    let columns = schema.columns.as_slice();
    let sides = values.sides.as_slice();
    match (columns.get(column), sides.get(column)) {
        (Some(column), Some(side)) => narrows_kind(&column.kind, *side),
        _ => false,
    }
}

fn narrows_kind(kind: &Kind, side: ColumnSide) -> bool
    ensures { result ≡ narrows_kind kind.now side }
{
    match kind {
        Kind::Int { low, high } => is_narrower(*low, *high, side),
        Kind::Dec { low, high, .. } => is_narrower(*low, *high, side),
        Kind::Cat { .. } => false,
    }
}

fn is_narrower(low: i64, high: i64, side: ColumnSide) -> bool
    ensures { result ≡ is_narrower low high side }
{
    match side {
        ColumnSide::Span {
            low: from,
            high: to,
        } => low < from || to < high,
        ColumnSide::Names { .. } => false,
    }
}

fn with_block_hold(
    held: Seq<Hold>,
    here: bool,
    there: bool,
    inside: bool,
    place: usize,
) -> Result<Seq<Hold>, Memory>
    ensures { IfOk result (λ new. new ≡ held ++ block_hold here there inside place) }
{
    let mut held = held;
    if here != there {
        held.push(Hold::When(place))?;
        return Ok(held);
    }
    if here && !inside {
        held.push(Hold::Values(place))?;
        return Ok(held);
    }
    Ok(held)
}

fn with_schema(held: Seq<Hold>, allowed: bool) -> Result<Seq<Hold>, Memory>
    ensures { IfOk result (λ new. new ≡ held ++ schema_hold allowed) }
{
    let mut held = held;
    if !allowed {
        held.push(Hold::Schema)?;
    }
    Ok(held)
}
