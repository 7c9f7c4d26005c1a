ghost use Rattle.std.specs.Prelude.{◌≡◌, ◌<◌, ◌^◌, length, IsTrue, IfOk, IfSome, SomeIff};
ghost use Rattle.pc_simplex_tableau.specs.Tableau.{deciding, after_step, does_step_fit, run};
ghost use Rattle.pc_simplex_tableau.specs.Conditions.{IsSized, AreFitNumbers};
ghost use Rattle.pc_simplex_tableau.specs.Runs.{run_of, IsSoundRun};

use crate::change::change;
use crate::choice::{deciding, entering};
use crate::columns::Columns;
use crate::step::Step;
use crate::tableau::Tableau;
use pc_list::Seq;
use pc_num::Memory;

/// How the steps of a phase end: no column enters, or the next step is wide, or no further step may be taken.
#[derive(Drop)]
pub enum WholeRun {
    Ended(usize, Seq<Step>, Tableau),
    Wide(Seq<Step>),
    Stalled(Seq<Step>),
}

/// The steps from a tableau, of which that many may be taken, after those that were taken.
pub fn take_steps(
    columns: &Columns,
    start: Tableau,
    most: usize,
    taken: Seq<Step>,
) -> Result<WholeRun, Memory>
    requires sized { IsSized columns.now start }
    requires fits { AreFitNumbers start }
    requires few { columns.now.count < 2 ^ 32 }
    ensures value { IfOk result (λ r. run_of r ≡ run columns.now most taken start) }
    ensures sound { IfOk result (λ r. IsSoundRun columns.now (run_of r)) }
{
    let mut tableau = start;
    let mut left = most;
    let mut steps = taken;
    while let Some(enters) = entering(&tableau, columns) {
        if left == 0 {
            return Ok(WholeRun::Stalled(steps));
        }
        match step(&mut tableau, columns, enters) {
            Some(leaves) => steps.push(Step {
                enters: enters as u32,
                leaves: leaves as u32,
            })?,
            None => return Ok(WholeRun::Wide(steps)),
        }
        left -= 1;
    }
    Ok(WholeRun::Ended(left, steps, tableau))
}

/// Takes the step in which that column enters, and gives the column whose limit decides; or none where a number does not fit,
/// and the tableau is then of no more use.
fn step(tableau: &mut Tableau, columns: &Columns, enters: usize) -> Option<usize>
    requires sized { IsSized columns.now tableau.old }
    requires fits { AreFitNumbers tableau.old }
    requires enters { enters < length columns.now.ranges }
    ensures value { SomeIff result (IsTrue (does_step_fit columns.now enters (deciding columns.now enters tableau.old) tableau.old)) ((deciding columns.now enters tableau.old).column) }
    ensures taken { IfSome result (λ leaves. tableau.new ≡ after_step columns.now enters leaves (deciding columns.now enters tableau.old).way tableau.old) }
    ensures leaves { IfSome result (λ leaves. leaves < columns.now.count) }
    ensures sized { IfSome result (λ _. IsSized columns.now tableau.new) }
    ensures fits { IfSome result (λ _. AreFitNumbers tableau.new) }
{
    match deciding(tableau, columns, enters) {
        Some(limit) => {
            let leaves = limit.column;
            if change(tableau, columns, enters, leaves, limit.way) {
                return Some(leaves);
            }
            None
        }
        None => None,
    }
}
