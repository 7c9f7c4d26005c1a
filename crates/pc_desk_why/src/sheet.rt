ghost use Rattle.std.specs.Prelude.{◌≡◌, ◌≤◌, [], ◌∷◌, All, IfOk, flat_map, map};
ghost use Rattle.pc_desk_why.specs.Shown.{clash_cells, end_rows, part_cells, said_cells, told_rows, why_sheet, why_titles};

use crate::cells::{clash_cells, part_cells, said_cells};
use crate::explained::{Explained, Found, MadeEnd};
use pc_desk_parts::Part;
use pc_desk_short::ClashLine;
use pc_desk_table::{Cell, Sheet, Title};
use pc_list::{Seq, Text};
use pc_model::Constraint;
use pc_num::Memory;
use std::alloc::Global;

/// What is shown of explanations: for each end a row for every part that makes it up, or one that says why it has none; where the
/// constraints are impossible a row for each line on why.
pub fn why_sheet(
    alloc: Global,
    constraints: &[Constraint],
    clash_lines: &[ClashLine],
    all: &[Explained],
) -> Result<Sheet, Memory>
    requires places { All (λ told. told.places ≤ 6) all.now }
    ensures shown { IfOk result (λ sheet. sheet ≡ why_sheet constraints.now clash_lines.now all.now) }
{
    let titles = why_titles(alloc)?;
    let rows = all_rows(alloc, constraints, clash_lines, all)?;
    Ok(Sheet {
        titles,
        rows: Seq::from_vec(rows),
    })
}

fn why_titles(alloc: Global) -> Result<Seq<Title>, Memory>
    ensures { IfOk result (λ found. found ≡ why_titles) }
{
    let all = vec![in alloc;
        title(alloc, "query", false)?,
        title(alloc, "group", false)?,
        title(alloc, "end", false)?,
        title(alloc, "rows", true)?,
        title(alloc, "value", true)?,
        title(alloc, "adds", true)?,
        title(alloc, "under", false)?,
        title(alloc, "held", false)?,
    ]?;
    Ok(Seq::from_vec(all))
}

fn title(alloc: Global, name: &str, right: bool) -> Result<Title, Memory>
    ensures { IfOk result (λ title. title ≡ record { name = name.now; right = right }) }
{
    let name = Text::from_text(alloc, name)?;
    Ok(Title { name, right })
}

#[tactic(auto, using(std::proofs::lemmas::List::flat_map_more))]
fn all_rows(
    alloc: Global,
    constraints: &[Constraint],
    clash_lines: &[ClashLine],
    all: &[Explained],
) -> Result<Vec<Seq<Cell>>, Memory>
    requires places { All (λ told. told.places ≤ 6) all.now }
    ensures { IfOk result (λ rows. rows.items ≡ flat_map (told_rows constraints.now clash_lines.now) all.now) }
{
    let mut rows = Vec::new(alloc);
    for told in all {
        let mut more = told_rows(alloc, constraints, clash_lines, told)?;
        rows.append(&mut more)?;
    }
    Ok(rows)
}

fn told_rows(
    alloc: Global,
    constraints: &[Constraint],
    clash_lines: &[ClashLine],
    told: &Explained,
) -> Result<Vec<Seq<Cell>>, Memory>
    requires places { told.now.places ≤ 6 }
    ensures { IfOk result (λ rows. rows.items ≡ told_rows constraints.now clash_lines.now told.now) }
{
    match &told.found {
        Found::Ends(low, high) => {
            let mut rows = end_rows(alloc, constraints, told, "low", low)?;
            let mut more = end_rows(alloc, constraints, told, "high", high)?;
            rows.append(&mut more)?;
            Ok(rows)
        }
        Found::NoValue => one_row(alloc, told, "", "no value"),
        Found::Impossible => clash_rows(alloc, told, clash_lines),
    }
}

#[tactic(auto, using(std::proofs::lemmas::List::map_more))]
fn clash_rows(
    alloc: Global,
    told: &Explained,
    clash_lines: &[ClashLine],
) -> Result<Vec<Seq<Cell>>, Memory>
    ensures { IfOk result (λ rows. rows.items ≡ map (clash_cells told.now) clash_lines.now) }
{
    let mut rows = Vec::new(alloc);
    for line in clash_lines {
        let cells = clash_cells(alloc, told, line)?;
        rows.push(cells)?;
    }
    Ok(rows)
}

fn end_rows(
    alloc: Global,
    constraints: &[Constraint],
    told: &Explained,
    end: &str,
    made: &MadeEnd,
) -> Result<Vec<Seq<Cell>>, Memory>
    requires places { told.now.places ≤ 6 }
    ensures { IfOk result (λ rows. rows.items ≡ end_rows constraints.now told.now end.now made.now) }
{
    match made {
        MadeEnd::Parts(parts) => part_rows(alloc, constraints, told, end, parts.as_slice()),
        MadeEnd::NotReached => one_row(alloc, told, end, "not reached"),
    }
}

#[tactic(auto, using(std::proofs::lemmas::List::map_more))]
fn part_rows(
    alloc: Global,
    constraints: &[Constraint],
    told: &Explained,
    end: &str,
    parts: &[Part],
) -> Result<Vec<Seq<Cell>>, Memory>
    requires places { told.now.places ≤ 6 }
    ensures { IfOk result (λ rows. rows.items ≡ map (part_cells constraints.now told.now end.now) parts.now) }
{
    let mut rows = Vec::new(alloc);
    for part in parts {
        let cells = part_cells(alloc, constraints, told, end, part)?;
        rows.push(cells)?;
    }
    Ok(rows)
}

fn one_row(alloc: Global, told: &Explained, end: &str, said: &str) -> Result<Vec<Seq<Cell>>, Memory>
    ensures { IfOk result (λ rows. rows.items ≡ said_cells told.now end.now said.now ∷ []) }
{
    let mut rows = Vec::new(alloc);
    rows.push(said_cells(alloc, told, end, said)?)?;
    Ok(rows)
}
