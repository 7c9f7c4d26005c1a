ghost use Rattle.std.specs.Prelude.{◌≡◌, ◌+◌, ◌<◌, ◌^◌, length};
ghost use Rattle.pc_model.specs.declared.query.Agg.TheVariants.{Avg};
ghost use Rattle.pc_proof.specs.declared.answer.Proof.TheVariants.{At};
ghost use Rattle.pc_proof.specs.Setting.{Setting};
ghost use Rattle.pc_proof.specs.Demands.{proof_lines};
ghost use Rattle.pc_proof.specs.Form.{IsFormedTree, IsFormedProof, IsFormedRatio, IsFormedValue};
ghost use Rattle.pc_check_rules.specs.Fractions.{IsMeasured};
ghost use Rattle.pc_check_rules.specs.Scene.{IsJudged, IsSceneOf};
ghost use Rattle.pc_check_rules.specs.Findings.{IsEndIn, IsHighFinding, IsLowFinding, IsRatioIn, IsTreeIn, IsUnnamed};

use crate::extreme::Extreme;
use crate::halt::Halt;
use crate::scene::Scene;
use crate::shown::{ratio_shows, rows_show, tree_shows, values_show};
use crate::trees::{judge_even, judge_towards};
use pc_model::{Agg, Tree};
use pc_num::Frac;
use pc_proof::Proof;
use std::alloc::Global;

/// Whether the proof of a high end shows it. `line` is the number of the proof's own line, before those of its tree.
pub fn judge_high(
    alloc: Global,
    scene: &Scene<'_>,
    line: u64,
    value: &Frac,
    proof: &Proof,
) -> Result<bool, Halt>
    requires judged { IsJudged scene.now }
    requires value { IsFormedValue scene.now.agg value.now }
    requires proof { IsFormedProof proof.now }
    requires few_lines { line + proof_lines proof.now < 2 ^ 64 }
    ensures { (s : Setting) → IsSceneOf scene.now s → IsHighFinding s line value.now proof.now result }
{
    judge_end(alloc, scene, Extreme::High, line, value, proof)
}

/// Whether the proof of a low end shows it.
pub fn judge_low(
    alloc: Global,
    scene: &Scene<'_>,
    line: u64,
    value: &Frac,
    proof: &Proof,
) -> Result<bool, Halt>
    requires judged { IsJudged scene.now }
    requires value { IsFormedValue scene.now.agg value.now }
    requires proof { IsFormedProof proof.now }
    requires few_lines { line + proof_lines proof.now < 2 ^ 64 }
    ensures { (s : Setting) → IsSceneOf scene.now s → IsLowFinding s line value.now proof.now result }
{
    judge_end(alloc, scene, Extreme::Low, line, value, proof)
}

#[tactic(auto, using(crate::proofs::Formed::formed_measured, crate::proofs::TreeFindings::end_by_tree))]
fn judge_end(
    alloc: Global,
    scene: &Scene<'_>,
    extreme: Extreme,
    line: u64,
    value: &Frac,
    proof: &Proof,
) -> Result<bool, Halt>
    requires judged { IsJudged scene.now }
    requires value { IsFormedValue scene.now.agg value.now }
    requires proof { IsFormedProof proof.now }
    requires few_lines { line + proof_lines proof.now < 2 ^ 64 }
    ensures { IsEndIn extreme scene.now line value.now proof.now result }
{
    match proof {
        Proof::Rows => Ok(rows_show(scene, extreme, value)),
        Proof::Tree(tree) => judge_end_tree(alloc, scene, extreme, line + 1, value, tree),
        Proof::At(ratio, tree) => judge_at(alloc, scene, extreme, line, value, ratio, tree),
        Proof::Values => Ok(values_show(scene, extreme, value)),
    }
}

/// Whether a search tree shows a value to be an end.
#[tactic(auto, using(crate::proofs::TreeFindings::end_of_tree))]
fn judge_end_tree(
    alloc: Global,
    scene: &Scene<'_>,
    extreme: Extreme,
    line: u64,
    value: &Frac,
    tree: &Tree,
) -> Result<bool, Halt>
    requires judged { IsJudged scene.now }
    requires measured { IsMeasured value.now }
    requires formed { IsFormedTree tree.now }
    requires few_lines { line + length tree.now.nodes < 2 ^ 64 }
    ensures { IsTreeIn extreme scene.now line value.now tree.now result }
{
    let most = judge_towards(alloc, scene, extreme, line, value, tree)?;
    Ok(tree_shows(scene, extreme, value, most))
}

/// Whether a tree at a ratio shows an end, which must be one of an average.
#[tactic(auto, using(crate::proofs::Formed::ratio_measured, crate::proofs::TreeFindings::end_by_ratio, crate::proofs::TreeFindings::end_unnamed))]
fn judge_at(
    alloc: Global,
    scene: &Scene<'_>,
    extreme: Extreme,
    line: u64,
    value: &Frac,
    ratio: &Frac,
    tree: &Tree,
) -> Result<bool, Halt>
    requires judged { IsJudged scene.now }
    requires measured { IsMeasured value.now }
    requires ratio { IsFormedRatio ratio.now }
    requires formed { IsFormedTree tree.now }
    requires few_lines { line + 1 + length tree.now.nodes < 2 ^ 64 }
    ensures { IsEndIn extreme scene.now line value.now (At ratio.now tree.now) result }
{
    match scene.agg {
        Agg::Avg => judge_ratio(alloc, scene, extreme, line + 1, value, ratio, tree),
        _ => judge_unnamed(alloc, scene, line + 1, tree),
    }
}

fn judge_ratio(
    alloc: Global,
    scene: &Scene<'_>,
    extreme: Extreme,
    line: u64,
    value: &Frac,
    ratio: &Frac,
    tree: &Tree,
) -> Result<bool, Halt>
    requires judged { IsJudged scene.now }
    requires average { scene.now.agg ≡ Avg }
    requires measured { IsMeasured value.now }
    requires ratio { IsMeasured ratio.now }
    requires formed { IsFormedTree tree.now }
    requires few_lines { line + length tree.now.nodes < 2 ^ 64 }
    ensures { IsRatioIn extreme scene.now line value.now ratio.now tree.now result }
{
    let most = judge_towards(alloc, scene, extreme, line, ratio, tree)?;
    Ok(ratio_shows(scene, extreme, value, ratio, most))
}

/// A tree that the rules do not name is tried with no gain, and shows nothing.
fn judge_unnamed(alloc: Global, scene: &Scene<'_>, line: u64, tree: &Tree) -> Result<bool, Halt>
    requires judged { IsJudged scene.now }
    requires formed { IsFormedTree tree.now }
    requires few_lines { line + length tree.now.nodes < 2 ^ 64 }
    ensures { (s : Setting) → IsSceneOf scene.now s → IsUnnamed s line tree.now result }
{
    let _most = judge_even(alloc, scene, 0, line, tree)?;
    Ok(false)
}
