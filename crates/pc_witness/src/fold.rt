ghost use Rattle.std.specs.Prelude.{◌≡◌, ◌+◌, ◌*◌, ◌^◌, ◌<◌, ◌≤◌, pos, ◌+ℤ◌, ◌*ℤ◌, List, ◌++◌, replicate, nat_abs, sum_by, SomeIff, None};
ghost use Rattle.pc_model.specs.declared.row.Row.{Row};
ghost use Rattle.pc_model.specs.declared.row.Run.{Run};
ghost use Rattle.pc_model.specs.Aggregate.{number_at as number};
ghost use Rattle.pc_model.specs.Folds.{IsFold};
ghost use Rattle.pc_model.specs.Runs.{rows_of};
ghost use Rattle.pc_witness.specs.RunFolds.{IsWithRun};

use pc_model::{Folded, Query, Row, Run, greatest_of, least_of};

/// How many rows the runs stand for, unless they are more than the 2^36 that `fold_runs` takes.
#[tactic(auto, using(crate::proofs::Totals::steps))]
pub fn total_times(runs: &[Run]) -> Option<u64>
    ensures { SomeIff result (sum_by (λ (run : Run). run.times) runs.now ≤ 2 ^ 36) (sum_by (λ (run : Run). run.times) runs.now) }
{
    let most: u64 = 1 << 36;
    let mut total: u64 = 0;
    for run in runs {
        if run.times > most - total {
            return None;
        }
        total += run.times;
    }
    Some(total)
}

/// What the rows of the runs that are in the query's area come to. Where the query has no column, the sum is 0.
/// Whether there are too many rows for this, `total_times` tells.
pub fn fold_runs(query: &Query, runs: &[Run]) -> Folded
    requires few { sum_by (λ (run : Run). run.times) runs.now ≤ 2 ^ 36 }
    ensures { IsFold query.now None (rows_of runs.now) result }
{
    let mut folded = Folded {
        count: 0,
        sum: 0,
        least: None,
        greatest: None,
    };
    for run in runs {
        folded = with_run(folded, query, run);
    }
    folded
}

// The fold with the rows of a run as well, where the query's area holds them.
fn with_run(folded: Folded, query: &Query, run: &Run) -> Folded
    requires few { folded.count + run.now.times ≤ 2 ^ 36 }
    requires small { nat_abs folded.sum ≤ folded.count * 2 ^ 63 }
    ensures more { (rows : List Row) → IsFold query.now None rows folded → IsFold query.now None (rows ++ replicate run.now.times run.now.row) result }
    ensures few { result.count ≤ folded.count + run.now.times }
    ensures small { nat_abs result.sum ≤ result.count * 2 ^ 63 }
{
    if run.times == 0 {
        return folded;
    }
    if !query.chosen.has(&run.row) {
        return folded;
    }
    with_chosen(folded, query.column, run)
}

// The fold with the rows of a run as well.
fn with_chosen(folded: Folded, column: Option<u8>, run: &Run) -> Folded
    requires few { folded.count + run.now.times ≤ 2 ^ 36 }
    requires small { nat_abs folded.sum ≤ folded.count * 2 ^ 63 }
    ensures more { IsWithRun column folded run.now result }
    ensures small { nat_abs result.sum ≤ result.count * 2 ^ 63 }
{
    let count = folded.count + run.times;
    let Some(column) = column else {
        return Folded { count, ..folded };
    };
    let number = number_at(&run.row, column);
    Folded {
        count,
        sum: sum_with(folded, number, run.times),
        least: Some(least_of(folded.least, number)),
        greatest: Some(greatest_of(folded.greatest, number)),
    }
}

// The sum with a number as well, so many times.
fn sum_with(folded: Folded, number: i64, times: u64) -> i128
    requires few { folded.count + times ≤ 2 ^ 36 }
    requires small { nat_abs folded.sum ≤ folded.count * 2 ^ 63 }
    ensures sum { result ≡ folded.sum +ℤ (number *ℤ pos times) }
    ensures small { nat_abs result ≤ (folded.count + times) * 2 ^ 63 }
{
    folded.sum + i128::from(number) * i128::from(times)
}

// The row's number in a column, and 0 past its numbers.
fn number_at(row: &Row, column: u8) -> i64
    ensures { result ≡ number row.now column }
{
    let cells = row.cells.as_slice();
    cells.get(usize::from(column)).copied().unwrap_or(0)
}
