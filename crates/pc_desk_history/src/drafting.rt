ghost use Rattle.std.specs.Prelude.{◌≡◌, ◌≤◌, IfOk, length};
ghost use Rattle.pc_model.specs.Accepted.{constraint_limit};
ghost use Rattle.pc_model.specs.WellFormed.{IsWellFormed};
ghost use Rattle.pc_desk_history.specs.Draft.{AreWide, IsPast, IsWish, cell_name, constraint_of, drafted_cell, drafted_from, drafted_of};
ghost use Rattle.pc_desk_history.specs.Periods.{HavePeriods, rows_in};

use crate::numbers::{Numbers, Past, numbers_of, past_of};
use crate::values::values_of;
use crate::wish::Wish;
use pc_list::{Seq, Text};
use pc_model::{Area, Constraint, Region, Schema, When};
use pc_num::Memory;
use pc_rows::Rows;
use std::alloc::Global;

/// A constraint for each cell of the rows that an area holds: how many rows of it the periods had, and which values.
#[tactic(auto, using(crate::proofs::Steps::draft_steps))]
pub fn draft(
    alloc: Global,
    schema: &Schema,
    rows: &Rows,
    chosen: &Area,
    cells: &[Area],
    wish: &Wish,
) -> Result<Seq<Constraint>, Memory>
    requires well_formed { IsWellFormed schema.now }
    requires wide { AreWide schema.now rows.now }
    requires few { length cells.now ≤ constraint_limit }
    requires wish { IsWish schema.now wish.now }
    ensures value { IfOk result (λ drafted. drafted ≡ drafted_of schema.now rows.now chosen.now cells.now wish.now) }
{
    let past = past_of(alloc, schema, rows, chosen, wish)?;
    let mut drafted = Seq::new(alloc);
    for place in 0..cells.len() {
        let cell = &cells[place];
        let numbers = numbers_of(alloc, schema, rows, chosen, cell, wish, &past)?;
        let values = values_of(alloc, schema, rows, cell, wish)?;
        drafted.push(constraint_of(alloc, place + 1, cell, values, numbers)?)?;
    }
    Ok(drafted)
}

fn constraint_of(
    alloc: Global,
    number: usize,
    cell: &Area,
    values: Region,
    numbers: Numbers,
) -> Result<Constraint, Memory>
    ensures { IfOk result (λ drafted. drafted ≡ constraint_of number cell.now values numbers) }
{
    Ok(Constraint {
        name: cell_name(alloc, number)?,
        when: When::Boxes(cell.clone()?),
        values,
        least: numbers.least,
        most: numbers.most,
    })
}

fn cell_name(alloc: Global, number: usize) -> Result<Text, Memory>
    ensures { IfOk result (λ name. name ≡ cell_name number) }
{
    Ok(Text::from_string(format!(in alloc; "cell{number}")?))
}
