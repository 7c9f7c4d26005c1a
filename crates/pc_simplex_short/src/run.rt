ghost use Rattle.std.specs.Prelude.{◌≡◌, ◌<◌, length, IsTrue, IfOk, IfSome, IsSome};
ghost use Rattle.pc_simplex_tableau.specs.Tableau.{deciding, after_step, does_step_fit, run};
ghost use Rattle.pc_simplex_short.specs.Short.{spelled};
ghost use Rattle.pc_simplex_short.specs.Kept.{IsSetting, IsShort};
ghost use Rattle.pc_simplex_short.specs.Runs.{run_of, IsShortEnd};
ghost use Rattle.pc_simplex_short.specs.Stays.{IsShortAt, StaysShort};

use crate::change::change;
use crate::choice::{deciding, entering};
use crate::setting::ShortSetting;
use crate::tableau::ShortTableau;
use pc_list::Seq;
use pc_num::Memory;
use pc_simplex_tableau::Step;

/// How the steps of a phase end: no column enters, or no further step may be taken.
#[derive(Drop)]
pub enum ShortRun {
    Ended(usize, Seq<Step>, ShortTableau),
    Stalled(Seq<Step>),
}

/// The steps from a tableau, of which that many may be taken, after those that were taken; or none where a number is no longer
/// small.
pub fn take_steps(
    setting: &ShortSetting,
    start: ShortTableau,
    most: usize,
    taken: Seq<Step>,
) -> Result<Option<ShortRun>, Memory>
    requires setting { IsSetting setting.now }
    requires short { IsShort setting.now start }
    ensures value { IfOk result (λ o. IfSome o (λ r. run_of setting.now r ≡ run setting.now.columns most taken (spelled setting.now start))) }
    ensures short { IfOk result (λ o. IfSome o (IsShortEnd setting.now)) }
    ensures given { StaysShort setting.now most start → IfOk result (λ o. IsSome o) }
{
    let mut tableau = start;
    let mut left = most;
    let mut steps = taken;
    while let Some(enters) = entering(&tableau, setting) {
        if left == 0 {
            return Ok(Some(ShortRun::Stalled(steps)));
        }
        match step(&mut tableau, setting, enters) {
            Some(leaves) => steps.push(Step {
                enters: enters as u32,
                leaves: leaves as u32,
            })?,
            None => return Ok(None),
        }
        left -= 1;
    }
    Ok(Some(ShortRun::Ended(left, steps, tableau)))
}

/// Takes the step in which that column enters, and gives the column whose limit decides; or none where a number is no longer
/// small, and the tableau is then of no more use.
fn step(tableau: &mut ShortTableau, setting: &ShortSetting, enters: usize) -> Option<usize>
    requires setting { IsSetting setting.now }
    requires short { IsShort setting.now tableau.old }
    requires enters { enters < length setting.now.columns.ranges }
    ensures value { IfSome result (λ leaves. leaves ≡ (deciding setting.now.columns enters (spelled setting.now tableau.old)).column) }
    ensures fits { IfSome result (λ _. IsTrue (does_step_fit setting.now.columns enters (deciding setting.now.columns enters (spelled setting.now tableau.old)) (spelled setting.now tableau.old))) }
    ensures taken { IfSome result (λ leaves. spelled setting.now tableau.new ≡ after_step setting.now.columns enters leaves (deciding setting.now.columns enters (spelled setting.now tableau.old)).way (spelled setting.now tableau.old)) }
    ensures leaves { IfSome result (λ leaves. leaves < setting.now.columns.count) }
    ensures short { IfSome result (λ _. IsShort setting.now tableau.new) }
    ensures given { IsShortAt setting.now enters (spelled setting.now tableau.old) → IsSome result }
{
    let limit = deciding(tableau, setting, enters);
    let leaves = limit.column;
    if change(tableau, setting, enters, leaves, limit.way) {
        return Some(leaves);
    }
    None
}
