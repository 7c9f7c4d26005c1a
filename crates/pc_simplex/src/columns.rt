ghost use Rattle.std.specs.Prelude.{◌≡◌, ◌<◌, ◌-◌, ◌++◌, ◌^◌, IfOk, IsOk};
ghost use Rattle.pc_program_bound.specs.Sums.{nat_at};
ghost use Rattle.pc_program_bound.specs.Allocation.{IsProgram, IsBox, cells_of, constraints_of};
ghost use Rattle.pc_simplex_tableau.specs.Numbers.{table};
ghost use Rattle.pc_simplex_tableau.specs.Relaxation.{columns_of, slack_range, phase_one};

use pc_list::Seq;
use pc_num::Memory;
use pc_program_bound::Program;
use pc_simplex_tableau::Columns;
use std::alloc::Global;

/// The columns of the first phase. Steps name columns by numbers of 32 bits, so 2^32 columns or more are too many.
pub(crate) fn first_columns(
    alloc: Global,
    p: &Program,
    floor: &[u64],
    cap: &[u64],
) -> Result<Columns, Memory>
    requires program { IsProgram p.now }
    requires inside { IsBox p.now floor.now cap.now }
    ensures value { IfOk result (λ f. f ≡ phase_one p.now floor.now cap.now) }
    ensures few { IfOk result (λ _. columns_of p.now < 2 ^ 32) }
{
    let count = column_count(p)?;
    let cells = cell_ranges(alloc, p, floor, cap)?;
    let ranges = with_slack_ranges(cells, p)?;
    Ok(Columns {
        ranges,
        count,
        helper: None,
    })
}

fn column_count(p: &Program) -> Result<usize, Memory>
    requires program { IsProgram p.now }
    ensures value { IfOk result (λ count. count ≡ columns_of p.now) }
    ensures few { IfOk result (λ _. columns_of p.now < 2 ^ 32) }
    ensures given { columns_of p.now < 2 ^ 32 → IsOk result }
{
    if p.masks.len() > u32::MAX as usize - 2 * p.least.len() {
        return Err(Memory);
    }
    Ok(columns_of(p))
}

/// How many columns there are.
pub(crate) fn columns_of(p: &Program) -> usize
    requires program { IsProgram p.now }
    requires few { columns_of p.now < 2 ^ 32 }
    ensures { result ≡ columns_of p.now }
{
    p.masks.len() + 2 * p.least.len()
}

#[tactic(auto, using(pc_simplex_tableau::proofs::Tables::table_steps))]
fn cell_ranges(alloc: Global, p: &Program, floor: &[u64], cap: &[u64]) -> Result<Seq<u64>, Memory>
    requires inside { IsBox p.now floor.now cap.now }
    ensures { IfOk result (λ ranges. ranges ≡ table (cells_of p.now) (λ i. nat_at cap.now i - nat_at floor.now i)) }
{
    let mut ranges = Seq::new(alloc);
    for cell in 0..p.masks.len() {
        ranges.push(cap[cell] - floor[cell])?;
    }
    Ok(ranges)
}

#[tactic(auto, using(pc_simplex_tableau::proofs::Tables::table_steps))]
fn with_slack_ranges(cells: Seq<u64>, p: &Program) -> Result<Seq<u64>, Memory>
    requires program { IsProgram p.now }
    ensures { IfOk result (λ ranges. ranges ≡ cells ++ table (constraints_of p.now) (slack_range p.now)) }
{
    let mut ranges = cells;
    for constraint in 0..p.least.len() {
        ranges.push(slack_range(p, constraint))?;
    }
    Ok(ranges)
}

/// By how much the most of a constraint is above its least.
pub(crate) fn slack_range(p: &Program, constraint: usize) -> u64
    requires program { IsProgram p.now }
    requires own { constraint < constraints_of p.now }
    ensures { result ≡ slack_range p.now constraint }
{
    let least = p.least.as_slice();
    let most = p.most.as_slice();
    most[constraint] - least[constraint]
}
