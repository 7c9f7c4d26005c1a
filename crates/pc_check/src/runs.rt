ghost use Rattle.std.specs.Prelude.{◌↔◌, [], ◌∷◌, IsTrue, IsSome, IsSomeAnd};
ghost use Rattle.pc_model.specs.Aggregate.{IsSame};
ghost use Rattle.pc_model.specs.Right.{value_for};
ghost use Rattle.pc_model.specs.Runs.{rows_of};
ghost use Rattle.pc_proof.specs.Demands.{gives_none, gives_some, mark_demands, possible_runs};
ghost use Rattle.pc_proof.specs.Form.{IsFormedValue};
ghost use Rattle.pc_proof.specs.Setting.{Setting};
ghost use Rattle.pc_proof.specs.Table.{ratio_of};
ghost use Rattle.pc_proof.specs.declared.answer.Mark.TheVariants.{Exact};
ghost use Rattle.pc_check_rules.specs.Scene.{IsJudged};
ghost use Rattle.pc_check.specs.Verdicts.{ArePossibleIn, IsMatterOf, KeepsIn, placed, runs_demands};

use crate::matter::Matter;
use crate::totals::{has_value, is_value, total_with};
use pc_check_rules::{Halt, POSSIBLE_RUNS, VALUES_OF_RUNS};
use pc_model::Run;
use pc_num::Frac;
use pc_proof::Mark;
use pc_witness::meets;

/// Tries runs that are to stand for a possible list.
pub(crate) fn judge_possible(matter: &Matter<'_>, line: u64, runs: &[Run]) -> Result<(), Halt>
    ensures { KeepsIn matter.now (λ s. placed line 5 (possible_runs runs.now) ∷ []) result }
{
    if !meets(matter.schema, matter.scene.constraints, runs) {
        return Err(Halt::Broken {
            line,
            rule: POSSIBLE_RUNS,
        });
    }
    Ok(())
}

/// Tries the mark of an end with this value.
pub(crate) fn judge_mark(
    matter: &Matter<'_>,
    line: u64,
    value: &Frac,
    mark: &Mark,
) -> Result<(), Halt>
    requires judged { IsJudged matter.now.scene }
    requires value { IsFormedValue matter.now.scene.agg value.now }
    ensures { KeepsIn matter.now (λ s. mark_demands line value.now mark.now) result }
{
    match mark {
        Mark::Exact(runs) => judge_exact(matter, line, value, runs.as_slice()),
        Mark::Outer => Ok(()),
    }
}

fn judge_exact(matter: &Matter<'_>, line: u64, value: &Frac, runs: &[Run]) -> Result<(), Halt>
    requires judged { IsJudged matter.now.scene }
    requires value { IsFormedValue matter.now.scene.agg value.now }
    ensures { KeepsIn matter.now (λ s. mark_demands line value.now (Exact runs.now)) result }
{
    if !meets(matter.schema, matter.scene.constraints, runs) {
        return Err(Halt::Broken {
            line,
            rule: POSSIBLE_RUNS,
        });
    }
    if !gives(matter, value, runs) {
        return Err(Halt::Broken {
            line,
            rule: VALUES_OF_RUNS,
        });
    }
    Ok(())
}

/// Tries runs that are to stand for a possible list without a value.
pub(crate) fn judge_without(matter: &Matter<'_>, line: u64, runs: &[Run]) -> Result<(), Halt>
    requires judged { IsJudged matter.now.scene }
    ensures { KeepsIn matter.now (λ s. runs_demands line runs.now gives_none) result }
{
    if !meets(matter.schema, matter.scene.constraints, runs) {
        return Err(Halt::Broken {
            line,
            rule: POSSIBLE_RUNS,
        });
    }
    if gives_some(matter, runs) {
        return Err(Halt::Broken {
            line,
            rule: VALUES_OF_RUNS,
        });
    }
    Ok(())
}

/// Tries runs that are to stand for a possible list with a value.
pub(crate) fn judge_with(matter: &Matter<'_>, line: u64, runs: &[Run]) -> Result<(), Halt>
    requires judged { IsJudged matter.now.scene }
    ensures { KeepsIn matter.now (λ s. runs_demands line runs.now gives_some) result }
{
    if !meets(matter.schema, matter.scene.constraints, runs) {
        return Err(Halt::Broken {
            line,
            rule: POSSIBLE_RUNS,
        });
    }
    if !gives_some(matter, runs) {
        return Err(Halt::Broken {
            line,
            rule: VALUES_OF_RUNS,
        });
    }
    Ok(())
}

/// Whether the observed rows and the possible ones of the runs give a value.
fn gives(matter: &Matter<'_>, value: &Frac, runs: &[Run]) -> bool
    requires judged { IsJudged matter.now.scene }
    requires value { IsFormedValue matter.now.scene.agg value.now }
    requires possible { ArePossibleIn matter.now runs.now }
    ensures { (s : Setting) → IsMatterOf matter.now s → IsTrue result ↔ IsSomeAnd (value_for s.question (rows_of runs.now)) (λ v. IsSame v (ratio_of value.now)) }
{
    is_value(matter.scene.agg, &total_with(matter, runs), value)
}

/// Whether the observed rows and the possible ones of the runs give any value.
fn gives_some(matter: &Matter<'_>, runs: &[Run]) -> bool
    requires judged { IsJudged matter.now.scene }
    requires possible { ArePossibleIn matter.now runs.now }
    ensures { (s : Setting) → IsMatterOf matter.now s → IsTrue result ↔ IsSome (value_for s.question (rows_of runs.now)) }
{
    has_value(matter.scene.agg, &total_with(matter, runs))
}
