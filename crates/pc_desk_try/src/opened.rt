ghost use Rattle.std.specs.Prelude.{◌≡◌, ◌≤◌, ◌++◌, ℕ, true, All, IfOk, length};
ghost use Rattle.std.specs.List.{flat_map};
ghost use Rattle.pc_model.specs.Accepted.{constraint_limit};
ghost use Rattle.pc_model.specs.Regions.{is_region_of};
ghost use Rattle.pc_model.specs.WellFormed.{IsWellFormed};
ghost use Rattle.pc_desk_try.specs.Opened.{is_wanted, member_cells, member_rows, opening_rows, opening_titles, openings_sheet, query_shown, rows_if};

use crate::opening::Opening;
use crate::title::title;
use crate::tried::name_of;
use pc_desk_table::{Cell, Sheet, Title, shown};
use pc_lang::put_query;
use pc_list::{Seq, Text};
use pc_model::{Agg, Area, Constraint, Query, Region, Schema, has_bit};
use pc_num::Memory;
use std::alloc::Global;

/// What is shown of openings: for each class a row for every constraint that speaks of it, with a query for rows of the class.
/// Classes of which one constraint speaks come first.
pub fn openings_sheet(
    alloc: Global,
    schema: &Schema,
    constraints: &[Constraint],
    openings: &[Opening],
) -> Result<Sheet, Memory>
    requires well_formed { IsWellFormed schema.now }
    requires few { length constraints.now ≤ constraint_limit }
    requires regions { All (λ opening. is_region_of schema.now opening.region ≡ true) openings.now }
    ensures shown { IfOk result (λ sheet. sheet ≡ openings_sheet schema.now constraints.now openings.now) }
{
    let titles = opening_titles(alloc)?;
    let rows = with_openings(alloc, Vec::new(alloc), true, schema, constraints, openings)?;
    let rows = with_openings(alloc, rows, false, schema, constraints, openings)?;
    Ok(Sheet {
        titles,
        rows: Seq::from_vec(rows),
    })
}

fn opening_titles(alloc: Global) -> Result<Seq<Title>, Memory>
    ensures { IfOk result (λ found. found ≡ opening_titles) }
{
    let all = vec![in alloc;
        title(alloc, "constraint", false)?,
        title(alloc, "least", true)?,
        title(alloc, "most", true)?,
        title(alloc, "boxes", true)?,
        title(alloc, "query", false)?,
    ]?;
    Ok(Seq::from_vec(all))
}

/// The rows of those classes of which one constraint speaks, or of the others, after these.
fn with_openings(
    alloc: Global,
    rows: Vec<Seq<Cell>>,
    alone: bool,
    schema: &Schema,
    constraints: &[Constraint],
    openings: &[Opening],
) -> Result<Vec<Seq<Cell>>, Memory>
    requires well_formed { IsWellFormed schema.now }
    requires few { length constraints.now ≤ constraint_limit }
    requires regions { All (λ opening. is_region_of schema.now opening.region ≡ true) openings.now }
    ensures { IfOk result (λ new. new.items ≡ rows.items ++ flat_map (rows_if alone schema.now constraints.now) openings.now) }
{
    let mut rows = rows;
    for opening in openings {
        let more = rows_if(alloc, alone, schema, constraints, opening)?;
        rows.append(&mut more.into_vec())?;
    }
    Ok(rows)
}

fn rows_if(
    alloc: Global,
    alone: bool,
    schema: &Schema,
    constraints: &[Constraint],
    opening: &Opening,
) -> Result<Seq<Seq<Cell>>, Memory>
    requires well_formed { IsWellFormed schema.now }
    requires few { length constraints.now ≤ constraint_limit }
    requires region { is_region_of schema.now opening.now.region ≡ true }
    ensures { IfOk result (λ rows. rows ≡ rows_if alone schema.now constraints.now opening.now) }
{
    let rows = opening_rows(alloc, schema, constraints, opening)?;
    if is_wanted(alone, rows.len()) {
        return Ok(rows);
    }
    Ok(Seq::new(alloc))
}

fn is_wanted(alone: bool, count: usize) -> bool
    ensures { result ≡ is_wanted alone count }
{
    if alone {
        return count == 1;
    }
    count != 1
}

fn opening_rows(
    alloc: Global,
    schema: &Schema,
    constraints: &[Constraint],
    opening: &Opening,
) -> Result<Seq<Seq<Cell>>, Memory>
    requires well_formed { IsWellFormed schema.now }
    requires few { length constraints.now ≤ constraint_limit }
    requires region { is_region_of schema.now opening.now.region ≡ true }
    ensures { IfOk result (λ rows. rows ≡ opening_rows schema.now constraints.now opening.now) }
{
    let query = query_shown(alloc, schema, &opening.region)?;
    member_rows(alloc, opening, constraints, query.as_str())
}

fn member_rows(
    alloc: Global,
    opening: &Opening,
    constraints: &[Constraint],
    query: &str,
) -> Result<Seq<Seq<Cell>>, Memory>
    requires few { length constraints.now ≤ constraint_limit }
    ensures { IfOk result (λ rows. rows ≡ member_rows opening.now query.now constraints.now) }
{
    let mut rows = Vec::new(alloc);
    for (place, constraint) in constraints.iter().enumerate() {
        if has_bit(u128::from(opening.mask), place) {
            rows.push(member_cells(alloc, opening.boxes as u64, constraint, query)?)?;
        }
    }
    Ok(Seq::from_vec(rows))
}

fn member_cells(
    alloc: Global,
    boxes: u64,
    constraint: &Constraint,
    query: &str,
) -> Result<Seq<Cell>, Memory>
    ensures { IfOk result (λ cells. cells ≡ member_cells boxes query.now constraint.now) }
{
    let name = name_of(alloc, constraint)?;
    let query = Text::from_text(alloc, query)?;
    let all = vec![in alloc;
        Cell::Word(name),
        Cell::Count(constraint.least),
        Cell::Count(constraint.most),
        Cell::Count(boxes),
        Cell::Word(query),
    ]?;
    Ok(Seq::from_vec(all))
}

/// A query that counts the rows of a box.
fn query_shown(alloc: Global, schema: &Schema, region: &Region) -> Result<Text, Memory>
    requires well_formed { IsWellFormed schema.now }
    requires region { is_region_of schema.now region.now ≡ true }
    ensures { IfOk result (λ text. text ≡ query_shown schema.now region.now) }
{
    let query = Query {
        agg: Agg::Count,
        column: None,
        chosen: Area::of_box(alloc, region.clone()?)?,
        group: None,
    };
    let mut text = Vec::new(alloc);
    put_query(alloc, schema, &mut text, &query)?;
    shown(alloc, text.as_slice())
}
