ghost use Rattle.std.specs.Prelude.{◌≡◌, ◌+◌, ◌<◌, ◌^◌, ◌↔◌, None, IfSome, IsTrue};
ghost use Rattle.pc_proof.specs.Demands.{relation_demands, relation_lines, why_lines};
ghost use Rattle.pc_proof.specs.Form.{IsFormedRelation, IsFormedWhy};
ghost use Rattle.pc_proof.specs.Unbroken.{MayStand, plain_mark};
ghost use Rattle.pc_model.specs.Right.{is_outer};
ghost use Rattle.pc_proof.specs.declared.answer.Relation.TheVariants.{Impossible, Undecided};
ghost use Rattle.pc_check_rules.specs.Scene.{IsJudged};
ghost use Rattle.pc_check.specs.Verdicts.{KeepsIn};

use crate::matter::Matter;
use crate::runs::judge_possible;
use pc_check_rules::{Halt, RELATIONS, judge_why};
use pc_proof::{End, Mark, Relation, Why};
use std::alloc::Global;

/// Tries a relation, whose own line is `line`, beside the ends of its answer.
pub(crate) fn judge_relation(
    alloc: Global,
    matter: &Matter<'_>,
    line: u64,
    relation: &Relation,
    ends: &Option<(End, End)>,
) -> Result<(), Halt>
    requires judged { IsJudged matter.now.scene }
    requires formed { IsFormedRelation matter.now.schema.now matter.now.scene.agg relation.now }
    requires few_lines { line + relation_lines relation.now < 2 ^ 64 }
    ensures { KeepsIn matter.now (λ s. relation_demands s line relation.now ends.now) result }
{
    match relation {
        Relation::Possible(runs) => judge_possible(matter, line, runs.as_slice()),
        Relation::Impossible(why) => judge_impossible(alloc, matter, line, why),
        Relation::Undecided => judge_undecided(matter, line, ends),
    }
}

/// Tries a relation that says that no lost rows can meet the constraints.
#[tactic(auto, using(pc_check_rules::proofs::Verdicts::stops, pc_check_rules::proofs::Verdicts::goes_on))]
fn judge_impossible(alloc: Global, matter: &Matter<'_>, line: u64, why: &Why) -> Result<(), Halt>
    requires judged { IsJudged matter.now.scene }
    requires formed { IsFormedWhy matter.now.scene.agg why.now }
    requires few_lines { line + 1 + why_lines why.now < 2 ^ 64 }
    ensures { KeepsIn matter.now (λ s. relation_demands s line (Impossible why.now) None) result }
{
    let shown = judge_why(alloc, &matter.scene, line + 1, why)?;
    if shown {
        return Ok(());
    }
    Err(Halt::Broken {
        line,
        rule: RELATIONS,
    })
}

/// Tries a relation that is left open.
fn judge_undecided(matter: &Matter<'_>, line: u64, ends: &Option<(End, End)>) -> Result<(), Halt>
    ensures { KeepsIn matter.now (λ s. relation_demands s line Undecided ends.now) result }
{
    if !may_stand(ends) {
        return Err(Halt::Broken {
            line,
            rule: RELATIONS,
        });
    }
    Ok(())
}

/// Whether no end is exact.
fn may_stand(ends: &Option<(End, End)>) -> bool
    ensures { IsTrue result ↔ IfSome ends.now (λ e. MayStand Undecided e.0 × MayStand Undecided e.1) }
{
    match ends {
        Some((low, high)) => is_outer(&low.mark) && is_outer(&high.mark),
        None => true,
    }
}

fn is_outer(mark: &Mark) -> bool
    ensures { result ≡ is_outer (plain_mark mark.now) }
{
    matches!(mark, Mark::Outer)
}
