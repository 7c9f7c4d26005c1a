ghost use Rattle.std.specs.Prelude.{◌≡◌, map, IfOk};
ghost use Rattle.pc_desk_try.specs.Shown.{count_or_empty, none_cells, sheet_of, titles, tried_cells};

use crate::title::title;
use crate::tried::{Trial, Tried};
use pc_desk_table::{Cell, Sheet, Title};
use pc_list::{Seq, Text};
use pc_num::Memory;
use std::alloc::Global;

/// What is shown of a trial: a row for each constraint, and one for the rows that none speaks of.
pub fn sheet_of(alloc: Global, trial: &Trial) -> Result<Sheet, Memory>
    ensures shown { IfOk result (λ sheet. sheet ≡ sheet_of trial.now) }
{
    let titles = titles(alloc)?;
    let mut rows = tried_rows(alloc, trial.each.as_slice())?;
    rows.push(none_cells(alloc, trial.under_none)?)?;
    Ok(Sheet { titles, rows })
}

#[tactic(auto, using(std::proofs::lemmas::List::map_more))]
fn tried_rows(alloc: Global, each: &[Tried]) -> Result<Seq<Seq<Cell>>, Memory>
    ensures { IfOk result (λ rows. rows ≡ map tried_cells each.now) }
{
    let mut rows = Seq::new(alloc);
    for tried in each {
        let cells = tried_cells(alloc, tried)?;
        rows.push(cells)?;
    }
    Ok(rows)
}

fn titles(alloc: Global) -> Result<Seq<Title>, Memory>
    ensures { IfOk result (λ found. found ≡ titles) }
{
    let all = vec![in alloc;
        title(alloc, "constraint", false)?,
        title(alloc, "rows", true)?,
        title(alloc, "broken", true)?,
        title(alloc, "first_broken", true)?,
        title(alloc, "least", true)?,
        title(alloc, "most", true)?,
        title(alloc, "within", true)?,
    ]?;
    Ok(Seq::from_vec(all))
}

fn tried_cells(alloc: Global, tried: &Tried) -> Result<Seq<Cell>, Memory>
    ensures { IfOk result (λ cells. cells ≡ tried_cells tried.now) }
{
    let name = Text::from_text(alloc, tried.name.as_str())?;
    let counts = tried.counts;
    let all = vec![in alloc;
        Cell::Word(name),
        Cell::Count(counts.rows),
        Cell::Count(counts.broken),
        count_or_empty(counts.first),
        Cell::Count(tried.least),
        Cell::Count(tried.most),
        Cell::Truth(tried.within),
    ]?;
    Ok(Seq::from_vec(all))
}

fn none_cells(alloc: Global, count: u64) -> Result<Seq<Cell>, Memory>
    ensures { IfOk result (λ cells. cells ≡ none_cells count) }
{
    let name = Text::from_text(alloc, "(none)")?;
    let all = vec![in alloc;
        Cell::Word(name),
        Cell::Count(count),
        Cell::Empty,
        Cell::Empty,
        Cell::Empty,
        Cell::Empty,
        Cell::Empty,
    ]?;
    Ok(Seq::from_vec(all))
}

fn count_or_empty(count: Option<u64>) -> Cell
    ensures { result ≡ count_or_empty count }
{
    match count {
        Some(count) => Cell::Count(count),
        None => Cell::Empty,
    }
}
