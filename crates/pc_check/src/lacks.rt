ghost use Rattle.std.specs.Prelude.{◌+◌, ◌<◌, ◌^◌, length};
ghost use Rattle.pc_proof.specs.Demands.{always_lines, lack_demands, lack_lines, never_lines};
ghost use Rattle.pc_proof.specs.Form.{IsFormedAlways, IsFormedLack, IsFormedNever};
ghost use Rattle.pc_proof.specs.declared.answer.Lack.TheVariants.{Always, Never, Sometimes};
ghost use Rattle.pc_check_rules.specs.Scene.{IsJudged};
ghost use Rattle.pc_check.specs.Verdicts.{KeepsIn};

use crate::matter::Matter;
use crate::runs::{judge_with, judge_without};
use pc_check_rules::{Halt, LACKS, judge_always, judge_never};
use pc_model::Run;
use pc_proof::{AlwaysBy, Lack, NeverBy};
use std::alloc::Global;

/// Tries what is said of the lack of a value. `line` is the number of its line.
pub(crate) fn judge_lack(
    alloc: Global,
    matter: &Matter<'_>,
    line: u64,
    lack: &Lack,
) -> Result<(), Halt>
    requires judged { IsJudged matter.now.scene }
    requires formed { IsFormedLack matter.now.schema.now matter.now.scene.agg lack.now }
    requires few_lines { line + lack_lines lack.now < 2 ^ 64 }
    ensures { KeepsIn matter.now (λ s. lack_demands s line lack.now) result }
{
    match lack {
        Lack::Never(by) => judge_never_lack(alloc, matter, line, by),
        Lack::Sometimes { without, with } => {
            judge_sometimes(matter, line, without.as_slice(), with.as_slice())
        }
        Lack::Always(by) => judge_always_lack(alloc, matter, line, by),
        Lack::Silent | Lack::Undecided => Ok(()),
    }
}

/// Tries a proof that the aggregate always has a value.
#[tactic(auto, using(pc_check_rules::proofs::Verdicts::stops, pc_check_rules::proofs::Verdicts::goes_on))]
fn judge_never_lack(alloc: Global, matter: &Matter<'_>, line: u64, by: &NeverBy) -> Result<(), Halt>
    requires judged { IsJudged matter.now.scene }
    requires formed { IsFormedNever by.now }
    requires few_lines { line + 1 + never_lines by.now < 2 ^ 64 }
    ensures { KeepsIn matter.now (λ s. lack_demands s line (Never by.now)) result }
{
    let shown = judge_never(alloc, &matter.scene, line + 1, by)?;
    if shown {
        return Ok(());
    }
    Err(Halt::Broken { line, rule: LACKS })
}

/// Tries a proof that the aggregate never has a value.
#[tactic(auto, using(pc_check_rules::proofs::Verdicts::stops, pc_check_rules::proofs::Verdicts::goes_on))]
fn judge_always_lack(
    alloc: Global,
    matter: &Matter<'_>,
    line: u64,
    by: &AlwaysBy,
) -> Result<(), Halt>
    requires judged { IsJudged matter.now.scene }
    requires formed { IsFormedAlways matter.now.scene.agg by.now }
    requires few_lines { line + 1 + always_lines by.now < 2 ^ 64 }
    ensures { KeepsIn matter.now (λ s. lack_demands s line (Always by.now)) result }
{
    let shown = judge_always(alloc, &matter.scene, line + 1, by)?;
    if shown {
        return Ok(());
    }
    Err(Halt::Broken { line, rule: LACKS })
}

/// Tries runs without a value, whose line is `line`, and those with one, which have a line of their own.
#[tactic(auto, using(pc_check_rules::proofs::Verdicts::stops, pc_check_rules::proofs::Verdicts::goes_on))]
fn judge_sometimes(
    matter: &Matter<'_>,
    line: u64,
    without: &[Run],
    with: &[Run],
) -> Result<(), Halt>
    requires judged { IsJudged matter.now.scene }
    requires few_lines { line + 1 + length without.now < 2 ^ 64 }
    ensures { KeepsIn matter.now (λ s. lack_demands s line (Sometimes without.now with.now)) result }
{
    judge_without(matter, line, without)?;
    judge_with(matter, line + 1 + without.len() as u64, with)
}
