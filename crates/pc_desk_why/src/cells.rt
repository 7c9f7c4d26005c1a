//! What is shown of a part, and of what is said in the place of parts.
ghost use Rattle.std.specs.Prelude.{◌≡◌, ◌≤◌, IfOk, option_map};
ghost use Rattle.pc_desk_why.specs.Shown.{added_cell, clash_cells, group_cell, held_cell, part_cells, said_cells, under_cell, value_cell, word_or_empty};

use crate::explained::Explained;
use crate::texts::{holds_text, names_text, number_text, stand_word};
use pc_desk_parts::{Adds, Hold, Part};
use pc_desk_short::ClashLine;
use pc_desk_table::Cell;
use pc_list::{Seq, Text};
use pc_model::Constraint;
use pc_num::Memory;
use std::alloc::Global;

pub(crate) fn part_cells(
    alloc: Global,
    constraints: &[Constraint],
    told: &Explained,
    end: &str,
    part: &Part,
) -> Result<Seq<Cell>, Memory>
    requires { told.now.places ≤ 6 }
    ensures { IfOk result (λ cells. cells ≡ part_cells constraints.now told.now end.now part.now) }
{
    let query = Text::from_text(alloc, told.query.as_str())?;
    let end = Text::from_text(alloc, end)?;
    let all = vec![in alloc;
        Cell::Word(query),
        group_cell(alloc, &told.group)?,
        Cell::Word(end),
        Cell::Count(part.rows),
        value_cell(alloc, part.value, told.places)?,
        added_cell(alloc, part.adds, told.places)?,
        under_cell(alloc, constraints, &part.under)?,
        held_cell(alloc, constraints, part.held.as_slice())?,
    ]?;
    Ok(Seq::from_vec(all))
}

/// What is said of an answer or of an end that has no parts.
pub(crate) fn said_cells(
    alloc: Global,
    told: &Explained,
    end: &str,
    said: &str,
) -> Result<Seq<Cell>, Memory>
    ensures { IfOk result (λ cells. cells ≡ said_cells told.now end.now said.now) }
{
    let query = Text::from_text(alloc, told.query.as_str())?;
    let said = Text::from_text(alloc, said)?;
    let all = vec![in alloc;
        Cell::Word(query),
        group_cell(alloc, &told.group)?,
        word_or_empty(alloc, end)?,
        Cell::Empty,
        Cell::Empty,
        Cell::Empty,
        Cell::Empty,
        Cell::Word(said),
    ]?;
    Ok(Seq::from_vec(all))
}

/// A line on why the constraints are impossible.
pub(crate) fn clash_cells(
    alloc: Global,
    told: &Explained,
    line: &ClashLine,
) -> Result<Seq<Cell>, Memory>
    ensures { IfOk result (λ cells. cells ≡ clash_cells told.now line.now) }
{
    let query = Text::from_text(alloc, told.query.as_str())?;
    let end = Text::from_text(alloc, "impossible")?;
    let held = Text::from_text(alloc, line.held.as_str())?;
    let all = vec![in alloc;
        Cell::Word(query),
        group_cell(alloc, &told.group)?,
        Cell::Word(end),
        Cell::Empty,
        Cell::Empty,
        Cell::Empty,
        word_or_empty(alloc, line.under.as_str())?,
        Cell::Word(held),
    ]?;
    Ok(Seq::from_vec(all))
}

fn word_or_empty(alloc: Global, word: &str) -> Result<Cell, Memory>
    ensures { IfOk result (λ cell. cell ≡ word_or_empty word.now) }
{
    if word.is_empty() {
        return Ok(Cell::Empty);
    }
    Ok(Cell::Word(Text::from_text(alloc, word)?))
}

fn group_cell(alloc: Global, group: &Option<Text>) -> Result<Cell, Memory>
    ensures { IfOk result (λ cell. cell ≡ group_cell group.now) }
{
    match group {
        Some(name) => Ok(Cell::Word(Text::from_text(alloc, name.as_str())?)),
        None => Ok(Cell::Empty),
    }
}

fn value_cell(alloc: Global, value: Option<i64>, places: u8) -> Result<Cell, Memory>
    requires { places ≤ 6 }
    ensures { IfOk result (λ cell. cell ≡ value_cell value places) }
{
    match value {
        Some(number) => Ok(Cell::Word(number_text(alloc, i128::from(number), places)?)),
        None => Ok(Cell::Empty),
    }
}

fn added_cell(alloc: Global, adds: Adds, places: u8) -> Result<Cell, Memory>
    requires { places ≤ 6 }
    ensures { IfOk result (λ cell. cell ≡ added_cell adds places) }
{
    match adds {
        Adds::Nothing => Ok(Cell::Empty),
        Adds::Amount(amount) => Ok(Cell::Word(number_text(alloc, amount, places)?)),
        Adds::Stands(stand) => Ok(Cell::Word(Text::from_text(alloc, stand_word(stand))?)),
    }
}

fn under_cell(
    alloc: Global,
    constraints: &[Constraint],
    under: &Option<Seq<usize>>,
) -> Result<Cell, Memory>
    ensures { IfOk result (λ cell. cell ≡ under_cell constraints.now under.now) }
{
    match under {
        Some(places) => Ok(Cell::Word(names_text(alloc, constraints, places.as_slice())?)),
        None => Ok(Cell::Word(Text::from_text(alloc, "observed")?)),
    }
}

fn held_cell(alloc: Global, constraints: &[Constraint], held: &[Hold]) -> Result<Cell, Memory>
    ensures { IfOk result (λ cell. cell ≡ held_cell constraints.now held.now) }
{
    if held.is_empty() {
        return Ok(Cell::Empty);
    }
    Ok(Cell::Word(holds_text(alloc, constraints, held)?))
}
