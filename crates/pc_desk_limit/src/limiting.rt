ghost use Rattle.std.specs.Prelude.{◌≡◌, ◌≤◌, IfOk, MatchOption, List, All, drop, length, take};
ghost use Rattle.pc_model.specs.Accepted.{AreConstraints, IsOutside, constraint_limit};
ghost use Rattle.pc_model.specs.WellFormed.{HaveFewNames, IsWellFormed};
ghost use Rattle.pc_model.specs.declared.constraint.Constraint.{Constraint};
ghost use Rattle.pc_desk_limit.specs.Limiting.{IsLimiting, IsOutsideAt, NoneIsOutside, is_outside, written_of};
ghost use Rattle.pc_desk_limit.specs.Lines.{lines_for};

use crate::closing::closing_boxes;
use crate::lines::{BOX_LIMIT, CONSTRAINT_LIMIT, free_names, with_lines};
use pc_list::Seq;
use pc_model::{Constraint, Region, Schema, When};
use pc_num::Memory;
use std::alloc::Global;

/// What comes of limits: the list that is written, or why none is.
#[derive(Debug, Drop)]
pub enum Limiting {
    /// The constraints, the limits after them, and the lines that close what limits alone would open.
    Written(Seq<Constraint>),
    /// The constraint at this place of the list speaks of the rows outside, from which a further area would take rows away.
    Outside(usize),
    /// So many lines would be written, and a file has at most 20.
    TooMany(usize),
}

/// Takes the first `opening` of all as constraints, and those after them as limits.
pub fn limit(
    alloc: Global,
    schema: &Schema,
    all: Seq<Constraint>,
    opening: usize,
) -> Result<Limiting, Memory>
    requires well_formed { IsWellFormed schema.now }
    requires accepted { AreConstraints schema.now all }
    ensures limits { IfOk result (IsLimiting schema.now (take opening all) (drop opening all)) }
{
    if let Some(place) = outside_place(all.as_slice()) {
        return Ok(Limiting::Outside(place));
    }
    let boxes = closing_boxes(
        alloc,
        first(all.as_slice(), opening),
        after(all.as_slice(), opening),
    )?;
    written(alloc, schema, all, boxes)
}

fn first(constraints: &[Constraint], count: usize) -> &[Constraint]
    ensures first { result.now ≡ take count constraints.now }
{
    if constraints.len() <= count {
        return constraints;
    }
    &constraints[..count]
}

fn after(constraints: &[Constraint], count: usize) -> &[Constraint]
    ensures { result.now ≡ drop count constraints.now }
{
    if constraints.len() <= count {
        return &constraints[constraints.len()..];
    }
    &constraints[count..]
}

// Where a constraint speaks of the rows outside, if one does.
fn outside_place(constraints: &[Constraint]) -> Option<usize>
    ensures { MatchOption result (NoneIsOutside constraints.now) (IsOutsideAt constraints.now) }
{
    for (place, constraint) in constraints.iter().enumerate() {
        if is_outside(&constraint.when) {
            return Some(place);
        }
    }
    None
}

fn is_outside(when: &When) -> bool
    ensures { result ≡ is_outside when.now }
{
    match when {
        When::Boxes(_) => false,
        When::Outside => true,
    }
}

fn written(
    alloc: Global,
    schema: &Schema,
    all: Seq<Constraint>,
    boxes: Seq<Region>,
) -> Result<Limiting, Memory>
    requires few_names { HaveFewNames schema.now.columns }
    requires few { length all ≤ constraint_limit }
    ensures { IfOk result (λ limiting. limiting ≡ written_of schema.now all boxes) }
{
    let lines = all.len() + lines_for(boxes.as_slice());
    if CONSTRAINT_LIMIT < lines {
        return Ok(Limiting::TooMany(lines));
    }
    let names = free_names(alloc, all.as_slice())?;
    let list = with_lines(alloc, schema, all, names.as_slice(), boxes.as_slice())?;
    Ok(Limiting::Written(list))
}

fn lines_for(boxes: &[Region]) -> usize
    ensures { result ≡ lines_for boxes.now }
{
    boxes.len().div_ceil(BOX_LIMIT)
}
