ghost use Rattle.std.specs.Prelude.{◌≡◌, [], ◌∷◌, IfOk};
ghost use Rattle.pc_solver_trials.specs.ShortSamples.{sample_setting, sample_start};

use pc_list::Seq;
use pc_num::Memory;
use pc_simplex_short::{
    Places, ShortRow, ShortRun, ShortSetting, ShortTableau, spell_out, take_steps,
};
use pc_simplex_tableau::Columns;
use std::alloc::{AllocError, Global};
use std::test::Fail;

fn columns(alloc: Global) -> Result<Columns, AllocError>
    ensures { IfOk result (λ f. f ≡ sample_setting.columns) }
{
    let ranges = vec![in alloc; 5u64, 3]?;
    Ok(Columns {
        ranges: Seq::from_vec(ranges),
        count: 3,
        helper: None,
    })
}

fn setting(alloc: Global) -> Result<ShortSetting, Memory>
    ensures { IfOk result (λ f. f ≡ sample_setting) }
{
    let columns = columns(alloc)?;
    let only = [0usize];
    let mut places = Places::new(alloc);
    places.push(only.as_slice())?;
    places.push(only.as_slice())?;
    places.push(only.as_slice())?;
    let gains = vec![in alloc; 1i128, 0, 0]?;
    Ok(ShortSetting {
        columns,
        places,
        gains: Seq::from_vec(gains),
        top: 1,
        constraints: 1,
    })
}

fn row(alloc: Global) -> Result<ShortRow, AllocError>
    ensures { IfOk result (λ row. record { rows = row ∷ []; turned = sample_start.turned; aim = sample_start.aim; weight = sample_start.weight } ≡ sample_start) }
{
    Ok(ShortRow {
        numbers: vec![in alloc; 1i64, 3]?,
        basic: 1,
    })
}

fn start(alloc: Global) -> Result<ShortTableau, AllocError>
    ensures { IfOk result (λ t. t ≡ sample_start) }
{
    let only = row(alloc)?;
    Ok(ShortTableau {
        rows: vec![in alloc; only]?,
        turned: vec![in alloc; false, false, false]?,
        aim: vec![in alloc; 0i128]?,
        weight: 1,
    })
}

/// How many steps are left, and the tableau.
fn end_of(run: Option<ShortRun>) -> Option<(usize, ShortTableau)> {
    match run {
        Some(ShortRun::Ended(left, _steps, tableau)) => Some((left, tableau)),
        _ => None,
    }
}

#[test]
#[tactic(auto, using(crate::proofs::ShortSamples::sample_is_setting, crate::proofs::ShortSamples::sample_is_short))]
fn one_step(rt: HostRuntime) -> Result<(), Fail> {
    let alloc = rt.alloc();
    let setting = setting(alloc)?;
    let start = start(alloc)?;
    let run = take_steps(&setting, start, 20, Seq::new(alloc))?;
    let ended = end_of(run);
    assert_eq!(rt; ended.as_ref().map(|(left, _tableau)| *left), Some(19));
    Ok(())
}

// The constraint's three rows stand in the one row, and the objective row is freed of the cell.
#[test]
#[tactic(auto, using(crate::proofs::ShortSamples::sample_is_setting, crate::proofs::ShortSamples::sample_is_short))]
fn spelled_out(rt: HostRuntime) -> Result<(), Fail> {
    let alloc = rt.alloc();
    let setting = setting(alloc)?;
    let whole = spell_out(alloc, &setting, start(alloc)?)?;
    assert!(rt; whole.aim.as_slice() == [1, 0, 0].as_slice());
    for row in whole.rows.iter() {
        assert!(rt; row.basic == 1 && row.numbers.as_slice() == [1, 1, 1, 3].as_slice());
    }
    Ok(())
}

#[test]
#[tactic(auto, using(crate::proofs::ShortSamples::sample_is_setting, crate::proofs::ShortSamples::sample_is_short))]
fn an_objective_row_that_is_freed(rt: HostRuntime) -> Result<(), Fail> {
    let alloc = rt.alloc();
    let setting = setting(alloc)?;
    let mut tableau = start(alloc)?;
    assert!(rt; tableau.free_aim(&setting, 0, 0));
    assert!(rt; tableau.aim.as_slice() == [-1].as_slice() && tableau.weight == 1);
    Ok(())
}
