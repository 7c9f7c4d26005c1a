ghost use Rattle.std.specs.Prelude.{◌≡◌, IfOk};
ghost use Rattle.pc_solver_trials.specs.Wanting.{wanting_columns, wanting_row, wanting_start};

mod numbers;

use pc_list::Seq;
use pc_simplex_tableau::{Columns, Tableau, WholeRow, WholeRun, take_steps};
use std::alloc::{AllocError, Global};
use std::test::Fail;

fn columns(alloc: Global) -> Result<Columns, AllocError>
    ensures { IfOk result (λ f. f ≡ wanting_columns) }
{
    let ranges = vec![in alloc; 0u64, 0]?;
    Ok(Columns {
        ranges: Seq::from_vec(ranges),
        count: 3,
        helper: None,
    })
}

fn row(alloc: Global) -> Result<WholeRow, AllocError>
    ensures { IfOk result (λ row. row ≡ wanting_row) }
{
    Ok(WholeRow {
        numbers: vec![in alloc; 1i128, -1, 1, 1]?,
        basic: 2,
    })
}

fn start(alloc: Global) -> Result<Tableau, AllocError>
    ensures { IfOk result (λ t. t ≡ wanting_start) }
{
    let only = row(alloc)?;
    Ok(Tableau {
        rows: vec![in alloc; only]?,
        turned: vec![in alloc; false, true, false]?,
        aim: vec![in alloc; 1i128, -1, 0]?,
        weight: 1,
    })
}

// The number of steps left, how many were taken, and the objective row's weight.
fn end_of(run: WholeRun) -> Option<(usize, usize, i128)> {
    match run {
        WholeRun::Ended(left, steps, tableau) => Some((left, steps.len(), tableau.weight)),
        WholeRun::Wide(_steps) => None,
        WholeRun::Stalled(_steps) => None,
    }
}

#[test]
#[tactic(auto, using(crate::proofs::Starting::wanting_sized, crate::proofs::Starting::wanting_fits))]
fn one_step(rt: HostRuntime) -> Result<(), Fail> {
    let alloc = rt.alloc();
    let columns = columns(alloc)?;
    let start = start(alloc)?;
    let run = take_steps(&columns, start, 20_000, Seq::new(alloc))?;
    assert_eq!(rt; end_of(run), Some((19_999, 1, 1)));
    Ok(())
}
