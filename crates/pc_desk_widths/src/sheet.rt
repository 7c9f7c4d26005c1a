//! The table of a question's ranges as constraints stand and under each change.
ghost use Rattle.std.specs.Prelude.{◌≡◌, ◌≤◌, ◌++◌, ◌∷◌, [], IfOk, flat_map, map};
ghost use Rattle.std.specs.List.{enumerate_from};
ghost use Rattle.pc_desk_widths.specs.Shown.{are_grouped, block_rows, cells_at, end_cells, range_titles, rows_at, weigh_rows, weigh_sheet, weigh_titles};

use crate::cells::{change_cell, entry_cells, front_cells, group_cell, wider_cell};
use crate::widths::{change_in, entry_at, first_entries, wider_at};
use pc_desk_table::{Cell, Sheet, Title};
use pc_desk_weigh::Weighed;
use pc_list::{Seq, Text};
use pc_model::Constraint;
use pc_num::Memory;
use std::alloc::Global;

/// What is shown of the ranges of a question: for each block a row as constraints stand, and then one for each change in the order
/// of the block. Widths are compared with so many decimals.
pub fn weigh_sheet(
    alloc: Global,
    constraints: &[Constraint],
    places: u8,
    all: &[Weighed],
    orders: &[Seq<usize>],
) -> Result<Sheet, Memory>
    requires places { places ≤ 6 }
    ensures shown { IfOk result (λ sheet. sheet ≡ weigh_sheet constraints.now places all.now orders.now) }
{
    let titles = weigh_titles(alloc, are_grouped(all))?;
    let rows = weigh_rows(alloc, constraints, places, all, orders)?;
    Ok(Sheet {
        titles: Seq::from_vec(titles),
        rows: Seq::from_vec(rows),
    })
}

fn are_grouped(all: &[Weighed]) -> bool
    ensures { result ≡ are_grouped all.now }
{
    first_entries(all).iter().any(|entry| entry.group.is_some())
}

fn weigh_titles(alloc: Global, grouped: bool) -> Result<Vec<Title>, Memory>
    ensures { IfOk result (λ titles. titles.items ≡ weigh_titles grouped) }
{
    let mut titles = Vec::new(alloc);
    titles.push(title(alloc, "change", false)?)?;
    if grouped {
        titles.push(title(alloc, "group", false)?)?;
    }
    let mut more = range_titles(alloc)?;
    titles.append(&mut more)?;
    Ok(titles)
}

fn range_titles(alloc: Global) -> Result<Vec<Title>, Memory>
    ensures { IfOk result (λ titles. titles.items ≡ range_titles) }
{
    let titles = vec![in alloc;
        title(alloc, "low", true)?,
        title(alloc, "low_mark", false)?,
        title(alloc, "high", true)?,
        title(alloc, "high_mark", false)?,
        title(alloc, "width", true)?,
        title(alloc, "wider", true)?,
    ]?;
    Ok(titles)
}

fn title(alloc: Global, name: &str, right: bool) -> Result<Title, Memory>
    ensures { IfOk result (λ title. title ≡ record { name = name.now; right = right }) }
{
    let name = Text::from_text(alloc, name)?;
    Ok(Title { name, right })
}

#[tactic(auto, using(crate::proofs::BlockRows::rows_more))]
fn weigh_rows(
    alloc: Global,
    constraints: &[Constraint],
    places: u8,
    all: &[Weighed],
    orders: &[Seq<usize>],
) -> Result<Vec<Seq<Cell>>, Memory>
    requires places { places ≤ 6 }
    ensures { IfOk result (λ rows. rows.items ≡ weigh_rows constraints.now places all.now orders.now) }
{
    let mut rows = Vec::new(alloc);
    for (block, order) in orders.iter().enumerate() {
        let mut more = block_rows(alloc, constraints, places, all, block, order.as_slice())?;
        rows.append(&mut more)?;
    }
    Ok(rows)
}

// As constraints stand, and then under each change.
fn block_rows(
    alloc: Global,
    constraints: &[Constraint],
    places: u8,
    all: &[Weighed],
    block: usize,
    order: &[usize],
) -> Result<Vec<Seq<Cell>>, Memory>
    requires places { places ≤ 6 }
    ensures { IfOk result (λ rows. rows.items ≡ block_rows constraints.now places all.now (block, order.now)) }
{
    let mut rows = rows_at(alloc, constraints, places, all, block, 0)?;
    let mut more = change_rows(alloc, constraints, places, all, block, order)?;
    rows.append(&mut more)?;
    Ok(rows)
}

#[tactic(auto, using(std::proofs::lemmas::List::flat_map_more))]
fn change_rows(
    alloc: Global,
    constraints: &[Constraint],
    places: u8,
    all: &[Weighed],
    block: usize,
    order: &[usize],
) -> Result<Vec<Seq<Cell>>, Memory>
    requires places { places ≤ 6 }
    ensures { IfOk result (λ rows. rows.items ≡ flat_map (rows_at constraints.now places all.now block) order.now) }
{
    let mut rows = Vec::new(alloc);
    for place in order {
        let mut more = rows_at(alloc, constraints, places, all, block, *place)?;
        rows.append(&mut more)?;
    }
    Ok(rows)
}

// The row of a block at a place, where that is there.
fn rows_at(
    alloc: Global,
    constraints: &[Constraint],
    places: u8,
    all: &[Weighed],
    block: usize,
    place: usize,
) -> Result<Vec<Seq<Cell>>, Memory>
    requires places { places ≤ 6 }
    ensures { IfOk result (λ rows. rows.items ≡ rows_at constraints.now places all.now block place) }
{
    let mut rows = Vec::new(alloc);
    if place < all.len() {
        rows.push(cells_at(alloc, constraints, places, all, block, place)?)?;
    }
    Ok(rows)
}

fn cells_at(
    alloc: Global,
    constraints: &[Constraint],
    places: u8,
    all: &[Weighed],
    block: usize,
    place: usize,
) -> Result<Seq<Cell>, Memory>
    requires places { places ≤ 6 }
    ensures { IfOk result (λ cells. cells ≡ cells_at constraints.now places all.now block place) }
{
    let change = change_cell(alloc, constraints, change_in(all, place))?;
    let group = group_cell(alloc, entry_at(all, place, block))?;
    let mut cells = front_cells(alloc, are_grouped(all), change, group)?;
    let mut more = end_cells(alloc, places, all, block, place)?;
    cells.append(&mut more)?;
    Ok(Seq::from_vec(cells))
}

fn end_cells(
    alloc: Global,
    places: u8,
    all: &[Weighed],
    block: usize,
    place: usize,
) -> Result<Vec<Cell>, Memory>
    requires places { places ≤ 6 }
    ensures { IfOk result (λ cells. cells.items ≡ end_cells places all.now block place) }
{
    let mut cells = entry_cells(alloc, entry_at(all, place, block))?;
    cells.push(wider_cell(alloc, places, wider_at(all, place, block))?)?;
    Ok(cells)
}
