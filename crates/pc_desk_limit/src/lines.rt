ghost use Rattle.std.specs.Prelude.{◌≡◌, ◌++◌, ◌∷◌, [], IfOk, filter, take, drop};
ghost use Rattle.pc_model.specs.Boxes.{box_limit};
ghost use Rattle.pc_model.specs.WellFormed.{HaveFewNames};
ghost use Rattle.pc_desk_limit.specs.Lines.{closed_name, closing_line, closing_lines, free_names, is_free, is_taken};

use crate::copies::with_copies;
use pc_list::{Seq, Text};
use pc_model::{Area, Constraint, Region, Schema, When};
use pc_num::Memory;
use std::alloc::Global;

/// An area has at most so many boxes.
pub(crate) const BOX_LIMIT: usize = 4;

/// A file has at most so many constraints.
pub(crate) const CONSTRAINT_LIMIT: usize = 20;

/// The names that no constraint has, of those that lines can be given.
#[tactic(auto, using(crate::proofs::Names::name_steps))]
pub(crate) fn free_names(alloc: Global, constraints: &[Constraint]) -> Result<Seq<Text>, Memory>
    ensures { IfOk result (λ names. names ≡ free_names constraints.now) }
{
    let mut names = Seq::new(alloc);
    for place in 0..CONSTRAINT_LIMIT {
        names = with_name(alloc, names, constraints, place + 1)?;
    }
    Ok(names)
}

fn with_name(
    alloc: Global,
    names: Seq<Text>,
    constraints: &[Constraint],
    number: usize,
) -> Result<Seq<Text>, Memory>
    ensures { IfOk result (λ more. more ≡ names ++ filter (is_free constraints.now) (closed_name number ∷ [])) }
{
    let name = closed_name(alloc, number)?;
    if !is_free(constraints, name.as_str()) {
        return Ok(names);
    }
    let mut names = names;
    names.push(name)?;
    Ok(names)
}

fn closed_name(alloc: Global, number: usize) -> Result<Text, Memory>
    ensures { IfOk result (λ name. name ≡ closed_name number) }
{
    Ok(Text::from_string(format!(in alloc; "closed_{number}")?))
}

fn is_free(constraints: &[Constraint], name: &str) -> bool
    ensures { result ≡ is_free constraints.now name.now }
{
    !is_taken(constraints, name)
}

fn is_taken(constraints: &[Constraint], name: &str) -> bool
    ensures { result ≡ is_taken constraints.now name.now }
{
    constraints
        .iter()
        .any(|constraint| constraint.name.as_str() == name)
}

/// Adds lines of these names that close the boxes.
#[tactic(auto, using(crate::proofs::Steps::line_steps))]
pub(crate) fn with_lines(
    alloc: Global,
    schema: &Schema,
    constraints: Seq<Constraint>,
    names: &[Text],
    boxes: &[Region],
) -> Result<Seq<Constraint>, Memory>
    requires few_names { HaveFewNames schema.now.columns }
    ensures { IfOk result (λ lines. lines ≡ constraints ++ closing_lines schema.now names.now boxes.now) }
{
    let mut lines = constraints;
    let mut left = boxes;
    for name in names {
        if left.is_empty() {
            return Ok(lines);
        }
        lines.push(closing_line(alloc, schema, name, left)?)?;
        left = after_line(left);
    }
    Ok(lines)
}

/// The boxes of one line.
fn of_line(boxes: &[Region]) -> &[Region]
    ensures { result.now ≡ take box_limit boxes.now }
{
    if boxes.len() <= BOX_LIMIT {
        return boxes;
    }
    &boxes[..BOX_LIMIT]
}

/// The boxes that one line leaves.
fn after_line(boxes: &[Region]) -> &[Region]
    ensures { result.now ≡ drop box_limit boxes.now }
{
    if boxes.len() <= BOX_LIMIT {
        return &boxes[boxes.len()..];
    }
    &boxes[BOX_LIMIT..]
}

fn closing_line(
    alloc: Global,
    schema: &Schema,
    name: &Text,
    boxes: &[Region],
) -> Result<Constraint, Memory>
    requires few_names { HaveFewNames schema.now.columns }
    ensures line { IfOk result (λ line. line ≡ closing_line schema.now name.now (take box_limit boxes.now)) }
{
    let boxes = with_copies(Seq::new(alloc), of_line(boxes))?;
    let values = schema.whole(alloc)?;
    Ok(Constraint {
        name: Text::from_text(alloc, name.as_str())?,
        when: When::Boxes(Area { boxes }),
        values,
        least: 0,
        most: 0,
    })
}
