ghost use Rattle.std.specs.Prelude.{◌↔◌, ◌+◌, ◌<◌, ◌^◌, IsTrue, Some};
ghost use Rattle.pc_proof.specs.Demands.{ends_demands, ends_lines, high_demands, low_demands, mark_lines, proof_lines};
ghost use Rattle.pc_proof.specs.Form.{AreFormedEnds, IsFormedEnd};
ghost use Rattle.pc_proof.specs.Unbroken.{MayShow};
ghost use Rattle.pc_check_rules.specs.Scene.{IsJudged};
ghost use Rattle.pc_check.specs.Verdicts.{KeepsIn};

use crate::lines::{mark_lines, proof_lines};
use crate::matter::Matter;
use crate::runs::judge_mark;
use pc_check_rules::{HIGH_ENDS, Halt, LOW_ENDS, judge_high, judge_low};
use pc_proof::{End, Mark, Proof};
use std::alloc::Global;

/// Tries the ends, if there are any. `line` is the number of the line of the low one.
pub(crate) fn judge_ends(
    alloc: Global,
    matter: &Matter<'_>,
    line: u64,
    ends: &Option<(End, End)>,
) -> Result<(), Halt>
    requires judged { IsJudged matter.now.scene }
    requires formed { AreFormedEnds matter.now.schema.now matter.now.scene.agg ends.now }
    requires few_lines { line + ends_lines ends.now < 2 ^ 64 }
    ensures { KeepsIn matter.now (λ s. ends_demands s line ends.now) result }
{
    match ends {
        Some((low, high)) => judge_both(alloc, matter, line, low, high),
        None => Ok(()),
    }
}

#[tactic(auto, using(pc_check_rules::proofs::Verdicts::stops, pc_check_rules::proofs::Verdicts::goes_on))]
fn judge_both(
    alloc: Global,
    matter: &Matter<'_>,
    line: u64,
    low: &End,
    high: &End,
) -> Result<(), Halt>
    requires judged { IsJudged matter.now.scene }
    requires low { IsFormedEnd matter.now.schema.now matter.now.scene.agg low.now }
    requires high { IsFormedEnd matter.now.schema.now matter.now.scene.agg high.now }
    requires few_lines { line + ends_lines (Some (low.now, high.now)) < 2 ^ 64 }
    ensures { KeepsIn matter.now (λ s. ends_demands s line (Some (low.now, high.now))) result }
{
    judge_low_end(alloc, matter, line, low)?;
    let after = line + mark_lines(&low.mark) + proof_lines(&low.proof);
    judge_high_end(alloc, matter, after, high)
}

#[tactic(auto, using(pc_check_rules::proofs::Verdicts::stops, pc_check_rules::proofs::Verdicts::goes_on))]
fn judge_low_end(alloc: Global, matter: &Matter<'_>, line: u64, end: &End) -> Result<(), Halt>
    requires judged { IsJudged matter.now.scene }
    requires formed { IsFormedEnd matter.now.schema.now matter.now.scene.agg end.now }
    requires few_lines { line + (mark_lines end.now.mark + proof_lines end.now.proof) < 2 ^ 64 }
    ensures { KeepsIn matter.now (λ s. low_demands s line end.now) result }
{
    judge_mark(matter, line, &end.value, &end.mark)?;
    let at = line + mark_lines(&end.mark);
    let shown = judge_low(alloc, &matter.scene, at, &end.value, &end.proof)?;
    if shown && may_show(&end.mark, &end.proof) {
        return Ok(());
    }
    Err(Halt::Broken {
        line,
        rule: LOW_ENDS,
    })
}

#[tactic(auto, using(pc_check_rules::proofs::Verdicts::stops, pc_check_rules::proofs::Verdicts::goes_on))]
fn judge_high_end(alloc: Global, matter: &Matter<'_>, line: u64, end: &End) -> Result<(), Halt>
    requires judged { IsJudged matter.now.scene }
    requires formed { IsFormedEnd matter.now.schema.now matter.now.scene.agg end.now }
    requires few_lines { line + (mark_lines end.now.mark + proof_lines end.now.proof) < 2 ^ 64 }
    ensures { KeepsIn matter.now (λ s. high_demands s line end.now) result }
{
    judge_mark(matter, line, &end.value, &end.mark)?;
    let at = line + mark_lines(&end.mark);
    let shown = judge_high(alloc, &matter.scene, at, &end.value, &end.proof)?;
    if shown && may_show(&end.mark, &end.proof) {
        return Ok(());
    }
    Err(Halt::Broken {
        line,
        rule: HIGH_ENDS,
    })
}

/// Whether the proof may show an end with this mark: what is left over at a ratio, and the numbers of rows, show outer
/// ends alone.
fn may_show(mark: &Mark, proof: &Proof) -> bool
    ensures { IsTrue result ↔ MayShow mark.now proof.now }
{
    match (mark, proof) {
        (Mark::Exact(_), Proof::At(_, _) | Proof::Values) => false,
        _ => true,
    }
}
