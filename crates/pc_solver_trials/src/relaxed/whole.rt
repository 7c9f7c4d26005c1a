//! Both phases over whole rows, put together here from the steps of one phase.
use crate::plain::total;
use crate::ready::{do_fit, freed, is_sized};
use pc_list::Seq;
use pc_program_bound::Program;
use pc_simplex_tableau::{Columns, Step, Tableau, WholeRow, WholeRun, take_steps};
use std::alloc::{AllocError, Global};
use std::test::Fail;

/// What the steps of a box end in: a vertex, a helper that is left, a constraint whose floors are too many, or nothing that
/// can be said.
#[derive(Drop)]
pub(super) enum End {
    Vertex(Seq<Step>, Tableau),
    Void(Seq<Step>, Tableau),
    Overfull(usize),
    Wide(Seq<Step>),
    Stalled(Seq<Step>),
}

pub(super) fn steps_of(end: &End) -> &[Step] {
    match end {
        End::Vertex(steps, _tableau) => steps.as_slice(),
        End::Void(steps, _tableau) => steps.as_slice(),
        End::Overfull(_constraint) => &[],
        End::Wide(steps) => steps.as_slice(),
        End::Stalled(steps) => steps.as_slice(),
    }
}

// ---- where the first phase starts

fn columns_of(
    alloc: Global,
    p: &Program,
    floor: &[u64],
    cap: &[u64],
) -> Result<Columns, AllocError> {
    let mut ranges = Seq::new(alloc);
    for (low, high) in floor.iter().zip(cap.iter()) {
        ranges.push(high.saturating_sub(*low))?;
    }
    let ranges = with_slacks(ranges, p)?;
    let count = ranges.len().saturating_add(p.least.len());
    Ok(Columns {
        ranges,
        count,
        helper: None,
    })
}

fn with_slacks(ranges: Seq<u64>, p: &Program) -> Result<Seq<u64>, AllocError> {
    let mut ranges = ranges;
    for (least, most) in p.least.as_slice().iter().zip(p.most.as_slice().iter()) {
        ranges.push(most.saturating_sub(*least))?;
    }
    Ok(ranges)
}

/// The row of a constraint, which has that bit and so much left, beyond what its slack can take: its slack is basic, or,
/// where it is short, its slack is turned and its helper basic.
fn first_row(
    alloc: Global,
    p: &Program,
    place: usize,
    bit: u32,
    left: i128,
    range: u64,
) -> Result<WholeRow, AllocError> {
    let beyond = left.saturating_sub(i128::from(range));
    let constraints = p.least.len();
    let slack = p.masks.len().saturating_add(place);
    let mut numbers = Vec::new(alloc);
    for mask in p.masks.as_slice() {
        numbers.push(if mask & bit != 0 { 1 } else { 0 })?;
    }
    push_unit(
        &mut numbers,
        constraints,
        place,
        if beyond > 0 { -1 } else { 1 },
    )?;
    push_unit(&mut numbers, constraints, place, 1)?;
    numbers.push(if beyond > 0 { beyond } else { left })?;
    Ok(WholeRow {
        numbers,
        basic: if beyond > 0 {
            slack.saturating_add(constraints)
        } else {
            slack
        },
    })
}

fn push_unit(
    numbers: &mut Vec<i128>,
    count: usize,
    place: usize,
    entry: i128,
) -> Result<(), AllocError> {
    for column in 0..count {
        numbers.push(if column == place { entry } else { 0 })?;
    }
    Ok(())
}

/// What the floors leave of each constraint's most.
fn all_left(alloc: Global, p: &Program, floor: &[u64]) -> Result<Vec<i128>, AllocError> {
    let mut all = Vec::new(alloc);
    let mut bit = 1u32;
    for most in p.most.as_slice() {
        all.push(i128::from(*most) - i128::from(total(p, floor, bit)))?;
        bit = bit.wrapping_mul(2);
    }
    Ok(all)
}

fn first_rows(
    alloc: Global,
    p: &Program,
    all_left: &[i128],
    slacks: &[u64],
) -> Result<Vec<WholeRow>, AllocError> {
    let mut rows = Vec::new(alloc);
    let mut bit = 1u32;
    for (place, (left, range)) in all_left.iter().zip(slacks.iter()).enumerate() {
        rows.push(first_row(alloc, p, place, bit, *left, *range)?)?;
        bit = bit.wrapping_mul(2);
    }
    Ok(rows)
}

/// Which columns start turned: the slacks of rows in which a helper is basic.
fn first_turned(
    alloc: Global,
    rows: &[WholeRow],
    cells: usize,
    helpers: usize,
) -> Result<Vec<bool>, AllocError> {
    let mut turned = vec![in alloc; false; cells]?;
    for row in rows {
        turned.push(row.basic >= helpers)?;
    }
    turned.extend_from_slice(vec![in alloc; false; rows.len()]?.as_slice())?;
    Ok(turned)
}

/// The first objective row: the helpers that are basic lose one.
fn first_aim(alloc: Global, rows: &[WholeRow], helpers: usize) -> Result<Vec<i128>, AllocError> {
    let mut aim = vec![in alloc; 0i128; helpers]?;
    for row in rows {
        aim.push(if row.basic >= helpers { -1 } else { 0 })?;
    }
    Ok(aim)
}

fn start(alloc: Global, p: &Program, rows: Vec<WholeRow>) -> Result<Tableau, AllocError> {
    let cells = p.masks.len();
    let helpers = cells.saturating_add(rows.len());
    let turned = first_turned(alloc, rows.as_slice(), cells, helpers)?;
    let aim = first_aim(alloc, rows.as_slice(), helpers)?;
    Ok(Tableau {
        rows,
        turned,
        aim,
        weight: 1,
    })
}

fn run_from(
    columns: &Columns,
    tableau: Tableau,
    most: usize,
    taken: Seq<Step>,
) -> Result<WholeRun, Fail> {
    let Some(tableau) = freed(tableau) else {
        return Ok(WholeRun::Wide(taken));
    };
    if columns.count > 1_000_000 || !is_sized(columns, &tableau) || !do_fit(&tableau) {
        return Err(Fail::new("no tableau"));
    }
    Ok(take_steps(columns, tableau, most, taken)?)
}

// ---- the phases

/// The end of the steps of a box, of which 20,000 may be taken.
pub(super) fn whole(alloc: Global, p: &Program, floor: &[u64], cap: &[u64]) -> Result<End, Fail> {
    let all_left = all_left(alloc, p, floor)?;
    if let Some(constraint) = all_left.iter().position(|left| *left < 0) {
        return Ok(End::Overfull(constraint));
    }
    let columns = columns_of(alloc, p, floor, cap)?;
    let slacks = with_slacks(Seq::new(alloc), p)?;
    let rows = first_rows(alloc, p, all_left.as_slice(), slacks.as_slice())?;
    first_phase(alloc, p, columns, start(alloc, p, rows)?)
}

fn first_phase(
    alloc: Global,
    p: &Program,
    columns: Columns,
    tableau: Tableau,
) -> Result<End, Fail> {
    match run_from(&columns, tableau, 20_000, Seq::new(alloc))? {
        WholeRun::Ended(left, steps, tableau) => {
            second_phase(alloc, p, columns, left, steps, tableau)
        }
        WholeRun::Wide(steps) => Ok(End::Wide(steps)),
        WholeRun::Stalled(steps) => Ok(End::Stalled(steps)),
    }
}

fn second_phase(
    alloc: Global,
    p: &Program,
    columns: Columns,
    left: usize,
    steps: Seq<Step>,
    tableau: Tableau,
) -> Result<End, Fail> {
    if has_helper(&columns, &tableau) {
        return Ok(End::Void(steps, tableau));
    }
    let tableau = with_gains(alloc, p, tableau)?;
    let mut columns = columns;
    columns.helper = Some(0);
    match run_from(&columns, tableau, left, steps)? {
        WholeRun::Ended(_left, steps, tableau) => Ok(End::Vertex(steps, tableau)),
        WholeRun::Wide(steps) => Ok(End::Wide(steps)),
        WholeRun::Stalled(steps) => Ok(End::Stalled(steps)),
    }
}

/// Whether some helper is left above nothing.
fn has_helper(columns: &Columns, tableau: &Tableau) -> bool {
    for row in tableau.rows.iter() {
        let value = row.numbers.get(columns.count).copied().unwrap_or(0);
        if row.basic >= columns.ranges.len() && value > 0 {
            return true;
        }
    }
    false
}

/// Takes the gains as objective row.
fn with_gains(alloc: Global, p: &Program, tableau: Tableau) -> Result<Tableau, AllocError> {
    let gains = p.gain.as_slice();
    let mut aim = Vec::new(alloc);
    for (column, is_turned) in tableau.turned.iter().enumerate() {
        let gain = gains.get(column).copied().unwrap_or(0);
        aim.push(if *is_turned {
            gain.saturating_neg()
        } else {
            gain
        })?;
    }
    let mut tableau = tableau;
    tableau.aim = aim;
    tableau.weight = 1;
    Ok(tableau)
}
