ghost use Rattle.std.specs.Prelude.{◌+◌, ◌<◌, ◌^◌};
ghost use Rattle.pc_proof.specs.Form.{IsFormedAnswer};
ghost use Rattle.pc_check_rules.specs.Scene.{IsJudged};
ghost use Rattle.pc_check.specs.Verdicts.{KeepsIn, answer_count, answer_demands};

use crate::ends::judge_ends;
use crate::lacks::judge_lack;
use crate::lines::{lack_lines, relation_lines};
use crate::matter::Matter;
use crate::relations::judge_relation;
use pc_check_rules::Halt;
use pc_proof::Answer;
use std::alloc::Global;

/// Tries an answer. `line` is the number of the line of its relation.
#[tactic(auto, using(pc_check_rules::proofs::Verdicts::stops, pc_check_rules::proofs::Verdicts::goes_on))]
pub(crate) fn judge_answer(
    alloc: Global,
    matter: &Matter<'_>,
    line: u64,
    answer: &Answer,
) -> Result<(), Halt>
    requires judged { IsJudged matter.now.scene }
    requires formed { IsFormedAnswer matter.now.schema.now matter.now.scene.agg answer.now }
    requires few_lines { line + answer_count answer.now < 2 ^ 64 }
    ensures { KeepsIn matter.now (λ s. answer_demands s line answer.now) result }
{
    judge_relation(alloc, matter, line, &answer.relation, &answer.ends)?;
    let lack_line = line + relation_lines(&answer.relation);
    judge_lack(alloc, matter, lack_line, &answer.lack)?;
    let end_line = lack_line + lack_lines(&answer.lack);
    judge_ends(alloc, matter, end_line, &answer.ends)
}
