ghost use Rattle.std.specs.Prelude.{◌≡◌, ◌<◌, ◌≤◌, ◌^◌, pos, nat_abs, length, cond, true, None, Some, All, IfOk, IfSome};
ghost use Rattle.pc_model.specs.Accepted.{IsQuery};
ghost use Rattle.pc_model.specs.Right.{always_has_value};
ghost use Rattle.pc_cells.specs.Found.{cell_at, leaves_at, IsFilled, HoldsNumber, HasNumbers};
ghost use Rattle.pc_proof.specs.Setting.{cells};
ghost use Rattle.pc_agg_search.specs.Ends.{signed};
ghost use Rattle.pc_agg_search.specs.Problem.{IsPosed};
ghost use Rattle.pc_agg_search.specs.FirstRows.{number_in, IsFirstLeaf};
ghost use Rattle.pc_agg_search.specs.Targets.{IsTarget, AreTargets};
ghost use Rattle.pc_agg_search.specs.Posed.{AreAtEnd, ArePicks, AsksNumbers, gains_of, keys_of};

use crate::extreme::Extreme;
use crate::problem::Problem;
use pc_cells::Cells;
use pc_list::Seq;
use pc_model::Row;
use pc_num::Memory;
use std::alloc::Global;

/// What a row of each cell gains towards an end, and a row of each cell that gains it.
#[derive(Debug, Drop)]
pub struct Targets {
    pub gains: Seq<i128>,
    pub picks: Seq<Row>,
}

/// The targets of a count or a sum.
pub fn find_targets(
    alloc: Global,
    problem: &Problem<'_>,
    extreme: Extreme,
) -> Result<Targets, Memory>
    requires posed { IsPosed problem.now }
    requires query { IsQuery problem.now.schema.now problem.now.query.now }
    requires ungrouped { problem.now.query.now.group ≡ None }
    requires has_value { always_has_value problem.now.query.now.agg ≡ true }
    ensures gains { IfOk result (λ found. found.gains ≡ gains_of problem.now extreme) }
    ensures picks { IfOk result (λ found. ArePicks problem.now extreme found.picks) }
    ensures small { IfOk result (λ found. All (λ gain. nat_abs gain ≤ 2 ^ 63) found.gains) }
{
    targets_of(alloc, problem.cells, problem.query.column, extreme)
}

/// The keys of the cells at an end of the query's column, 0 where they are not chosen, and rows with the cells' numbers
/// there. A key is the number, turned at a low end.
pub fn find_keys(alloc: Global, problem: &Problem<'_>, extreme: Extreme) -> Result<Targets, Memory>
    requires posed { IsPosed problem.now }
    requires numbers { AsksNumbers problem.now }
    ensures keys { IfOk result (λ found. found.gains ≡ keys_of problem.now extreme) }
    ensures picks { IfOk result (λ found. AreAtEnd problem.now extreme found.picks) }
    ensures small { IfOk result (λ found. All (λ gain. nat_abs gain ≤ 2 ^ 63) found.gains) }
{
    targets_of(alloc, problem.cells, problem.query.column, extreme)
}

/// The same by what the cells alone say, for the column that is summed, or none where rows are counted.
#[tactic(auto, using(crate::proofs::CellTargets::steps))]
fn targets_of(
    alloc: Global,
    cells: &Cells,
    column: Option<u8>,
    extreme: Extreme,
) -> Result<Targets, Memory>
    requires filled { All IsFilled cells.now.cells }
    requires numbers { IfSome column (λ named. All (HasNumbers named) cells.now.cells) }
    ensures { IfOk result (λ found. AreTargets column extreme cells.now.cells found.gains found.picks) }
{
    let mut gains = Vec::new(alloc);
    let mut picks = Vec::new(alloc);
    for cell in 0..cells.cells.len() {
        let target = target_of(alloc, cells, cell, column, extreme)?;
        gains.push(target.gain)?;
        picks.push(target.pick)?;
    }
    Ok(Targets {
        gains: Seq::from_vec(gains),
        picks: Seq::from_vec(picks),
    })
}

/// What a row of one cell gains, and such a row.
#[derive(Drop)]
struct Target {
    gain: i128,
    pick: Row,
}

fn target_of(
    alloc: Global,
    cells: &Cells,
    cell: usize,
    column: Option<u8>,
    extreme: Extreme,
) -> Result<Target, Memory>
    requires there { cell < length cells.now.cells }
    requires filled { IsFilled (cell_at cells.now.cells cell) }
    requires numbers { IfSome column (λ named. HasNumbers named (cell_at cells.now.cells cell)) }
    ensures { IfOk result (λ target. IsTarget column extreme (cell_at cells.now.cells cell) target.gain target.pick) }
{
    let chosen = cells.cells.as_slice()[cell].chosen;
    let held = held_at(cells, cell, column, extreme);
    let gain = gain_of(chosen, held.number, extreme);
    let pick = cells.row_at(alloc, cell, held.leaf, column, held.number)?;
    Ok(Target { gain, pick })
}

fn gain_of(chosen: bool, number: i64, extreme: Extreme) -> i128
    ensures gain { result ≡ cond chosen (signed extreme number) (pos 0) }
    ensures small { nat_abs result ≤ 2 ^ 63 }
{
    if !chosen {
        return 0;
    }
    match extreme {
        Extreme::Low => -i128::from(number),
        Extreme::High => i128::from(number),
    }
}

/// What a row adds at an end of a cell, and the place of the first leaf with such a row.
#[derive(Clone, Copy)]
struct Held {
    number: i64,
    leaf: u32,
}

fn held_at(cells: &Cells, cell: usize, column: Option<u8>, extreme: Extreme) -> Held
    requires there { cell < length cells.now.cells }
    requires filled { IsFilled (cell_at cells.now.cells cell) }
    requires numbers { IfSome column (λ named. HasNumbers named (cell_at cells.now.cells cell)) }
    ensures number { result.number ≡ number_in column extreme (leaves_at cells.now.cells cell) }
    ensures leaf { result.leaf < length (leaves_at cells.now.cells cell) }
    ensures held { IfSome column (λ named. HoldsNumber (leaves_at cells.now.cells cell) result.leaf named result.number) }
    ensures first { IsFirstLeaf column extreme (leaves_at cells.now.cells cell) result.leaf }
{
    match column {
        None => Held { number: 1, leaf: 0 },
        Some(named) => held_end(cells, cell, named, extreme),
    }
}

fn held_end(cells: &Cells, cell: usize, column: u8, extreme: Extreme) -> Held
    requires there { cell < length cells.now.cells }
    requires filled { IsFilled (cell_at cells.now.cells cell) }
    requires numbers { HasNumbers column (cell_at cells.now.cells cell) }
    ensures number { result.number ≡ number_in (Some column) extreme (leaves_at cells.now.cells cell) }
    ensures held { HoldsNumber (leaves_at cells.now.cells cell) result.leaf column result.number }
    ensures first { IsFirstLeaf (Some column) extreme (leaves_at cells.now.cells cell) result.leaf }
{
    let ends = cells.extreme(cell, column);
    match extreme {
        Extreme::Low => Held {
            number: ends.low,
            leaf: ends.low_leaf,
        },
        Extreme::High => Held {
            number: ends.high,
            leaf: ends.high_leaf,
        },
    }
}
