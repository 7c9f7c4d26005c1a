ghost use Rattle.std.specs.Prelude.{◌≡◌, ◌↔◌, ◌+◌, ◌<◌, ◌≤◌, ◌^◌, nat_abs, length, pos, ◌≤ℤ◌, IfSome, IsTrue};
ghost use Rattle.pc_model.specs.Aggregate.{IsAtMost};
ghost use Rattle.pc_proof.specs.Setting.{Setting};
ghost use Rattle.pc_proof.specs.Table.{ratio_of, IsExtreme};
ghost use Rattle.pc_proof.specs.Demands.{proof_lines, why_lines, never_lines, always_lines};
ghost use Rattle.pc_proof.specs.Form.{IsFormedAlways, IsFormedBounded, IsFormedNever, IsFormedTree, IsFormedValue, IsFormedWhy};
ghost use Rattle.pc_check_rules.specs.Scene.{IsJudged, IsSceneOf};
ghost use Rattle.pc_check_rules.specs.Shown.{IsSmall, counted};
ghost use Rattle.pc_check_rules.specs.Statements.{crossing_lines, AreCrossed, GivesValue, IsAlwaysFinding, IsCrossWhy, IsCrossing, IsEndsAlways, IsEndsWhy, IsFewestTree, IsNeverFinding, IsTreeAlways, IsTreeNever, IsVoidWhy, IsWhyFinding};

use crate::bounds::{counted, is_small, is_under};
use crate::ends::{judge_high, judge_low};
use crate::fractions::is_at_most;
use crate::halt::Halt;
use crate::scene::Scene;
use crate::trees::{judge_chosen, judge_even};
use pc_model::{Agg, Tree};
use pc_num::Frac;
use pc_proof::{AlwaysBy, Bounded, NeverBy, Proof, Why, always_has_value};
use std::alloc::Global;

/// Whether a reason shows that no lost rows meet the constraints. `line` is the number of its own line.
pub fn judge_why(alloc: Global, scene: &Scene<'_>, line: u64, why: &Why) -> Result<bool, Halt>
    requires judged { IsJudged scene.now }
    requires formed { IsFormedWhy scene.now.agg why.now }
    requires few_lines { line + why_lines why.now < 2 ^ 64 }
    ensures { (s : Setting) → IsSceneOf scene.now s → IsWhyFinding s line why.now result }
{
    match why {
        Why::Void(tree) => judge_void(alloc, scene, line, tree),
        Why::Cross(greatest, fewest) => judge_cross(alloc, scene, line, greatest, fewest),
        Why::Ends(low, high) => judge_ends_why(alloc, scene, line, low, high),
    }
}

/// Whether all leaves of a tree are void.
fn judge_void(alloc: Global, scene: &Scene<'_>, line: u64, tree: &Tree) -> Result<bool, Halt>
    requires judged { IsJudged scene.now }
    requires formed { IsFormedTree tree.now }
    requires few_lines { line + 1 + length tree.now.nodes < 2 ^ 64 }
    ensures { (s : Setting) → IsSceneOf scene.now s → IsVoidWhy s line tree.now result }
{
    let most = judge_even(alloc, scene, 0, line + 1, tree)?;
    Ok(most.is_none())
}

/// Whether two trees show that the greatest number of lost rows is below the least one.
#[tactic(auto, using(crate::proofs::Verdicts::stops, crate::proofs::Verdicts::goes_on))]
fn judge_cross(
    alloc: Global,
    scene: &Scene<'_>,
    line: u64,
    greatest: &Tree,
    fewest: &Tree,
) -> Result<bool, Halt>
    requires judged { IsJudged scene.now }
    requires greatest { IsFormedTree greatest.now }
    requires fewest { IsFormedTree fewest.now }
    requires few_lines { line + 1 + length greatest.now.nodes + length fewest.now.nodes < 2 ^ 64 }
    ensures { (s : Setting) → IsSceneOf scene.now s → IsCrossWhy s line greatest.now fewest.now result }
{
    let most = judge_even(alloc, scene, 1, line + 1, greatest)?;
    let after = line + 1 + greatest.nodes.len() as u64;
    judge_fewest(alloc, scene, after, most, fewest)
}

/// Whether a tree bounds the number of lost rows from below by more than the bound from above.
fn judge_fewest(
    alloc: Global,
    scene: &Scene<'_>,
    line: u64,
    most: Option<i128>,
    fewest: &Tree,
) -> Result<bool, Halt>
    requires judged { IsJudged scene.now }
    requires fewest { IsFormedTree fewest.now }
    requires few_lines { line + length fewest.now.nodes < 2 ^ 64 }
    ensures { (s : Setting) → IsSceneOf scene.now s → IsFewestTree s line most fewest.now result }
{
    let least = judge_even(alloc, scene, -1, line, fewest)?;
    Ok(are_crossed(most, least))
}

/// Whether both bounds are small, and the first is below the negative of the second.
fn are_crossed(first: Option<i128>, second: Option<i128>) -> bool
    ensures { IsTrue result ↔ (IsSmall first × (IsSmall second × AreCrossed (counted first) (counted second))) }
{
    if !is_small(first) {
        return false;
    }
    if !is_small(second) {
        return false;
    }
    is_below(counted(first), counted(second))
}

fn is_below(first: Option<i128>, second: Option<i128>) -> bool
    requires first { IfSome first (λ k. nat_abs k ≤ 10 ^ 37) }
    requires second { IfSome second (λ k. nat_abs k ≤ 10 ^ 37) }
    ensures { IsTrue result ↔ AreCrossed first second }
{
    let Some(most) = first else {
        return true;
    };
    let Some(least) = second else {
        return true;
    };
    most + least < 0
}

/// Whether two ends cross, and each list gives a value.
fn judge_ends_why(
    alloc: Global,
    scene: &Scene<'_>,
    line: u64,
    low: &Bounded,
    high: &Bounded,
) -> Result<bool, Halt>
    requires judged { IsJudged scene.now }
    requires low { IsFormedBounded scene.now.agg low.now }
    requires high { IsFormedBounded scene.now.agg high.now }
    requires few_lines { line + crossing_lines low.now high.now < 2 ^ 64 }
    ensures { (s : Setting) → IsSceneOf scene.now s → IsEndsWhy s line low.now high.now result }
{
    let crosses = judge_crossing(alloc, scene, line, low, high)?;
    Ok(crosses && gives_value(scene.agg, scene.seen.count))
}

fn gives_value(agg: Agg, count: u64) -> bool
    ensures { IsTrue result ↔ GivesValue agg count }
{
    always_has_value(agg) || count > 0
}

/// Whether a low end is shown to be above a high one. `line` is the number of the line before that of the low end.
#[tactic(auto, using(crate::proofs::Verdicts::stops, crate::proofs::Verdicts::goes_on))]
fn judge_crossing(
    alloc: Global,
    scene: &Scene<'_>,
    line: u64,
    low: &Bounded,
    high: &Bounded,
) -> Result<bool, Halt>
    requires judged { IsJudged scene.now }
    requires low { IsFormedBounded scene.now.agg low.now }
    requires high { IsFormedBounded scene.now.agg high.now }
    requires few_lines { line + crossing_lines low.now high.now < 2 ^ 64 }
    ensures { (s : Setting) → IsSceneOf scene.now s → IsCrossing s line low.now high.now result }
{
    let low_holds = judge_low(alloc, scene, line + 2, &low.value, &low.proof)?;
    let after = line + 3 + lines_of(&low.proof);
    let high_holds = judge_high(alloc, scene, after, &high.value, &high.proof)?;
    let above = is_above(scene.agg, &low.value, &high.value);
    Ok(low_holds && high_holds && above)
}

/// The number of lines of a proof.
fn lines_of(proof: &Proof) -> u64
    requires { proof_lines proof.now < 2 ^ 64 }
    ensures { result ≡ proof_lines proof.now }
{
    match proof {
        Proof::Rows | Proof::Values => 1,
        Proof::Tree(tree) => 1 + tree.nodes.len() as u64,
        Proof::At(_, tree) => 1 + tree.nodes.len() as u64,
    }
}

/// Whether a value is above another.
fn is_above(agg: Agg, low: &Frac, high: &Frac) -> bool
    requires low { IsFormedValue agg low.now }
    requires high { IsFormedValue agg high.now }
    ensures { IsTrue result ↔ (IsAtMost (ratio_of low.now) (ratio_of high.now) → ⊥) }
{
    !is_at_most(low.num, low.den, high)
}

/// Whether it is shown that a value is never lacking: the aggregate always has one.
pub fn judge_never(alloc: Global, scene: &Scene<'_>, line: u64, by: &NeverBy) -> Result<bool, Halt>
    requires judged { IsJudged scene.now }
    requires formed { IsFormedNever by.now }
    requires few_lines { line + never_lines by.now < 2 ^ 64 }
    ensures { (s : Setting) → IsSceneOf scene.now s → IsNeverFinding s line by.now result }
{
    match by {
        NeverBy::Rows => Ok(scene.seen.count > 0),
        NeverBy::Tree(tree) => judge_tree_never(alloc, scene, line, tree),
    }
}

fn judge_tree_never(alloc: Global, scene: &Scene<'_>, line: u64, tree: &Tree) -> Result<bool, Halt>
    requires judged { IsJudged scene.now }
    requires formed { IsFormedTree tree.now }
    requires few_lines { line + 1 + length tree.now.nodes < 2 ^ 64 }
    ensures { (s : Setting) → IsSceneOf scene.now s → IsTreeNever s line tree.now result }
{
    let most = judge_chosen(alloc, scene, -1, line + 1, tree)?;
    Ok(is_small_under(-1, most))
}

/// Whether a bound is small, and at most a number.
fn is_small_under(number: i128, most: Option<i128>) -> bool
    ensures { IsTrue result ↔ (IsSmall most × IfSome (counted most) (λ k. k ≤ℤ number)) }
{
    if !is_small(most) {
        return false;
    }
    is_under(number, counted(most))
}

/// Whether it is shown that a value is always lacking: the aggregate never has one.
pub fn judge_always(
    alloc: Global,
    scene: &Scene<'_>,
    line: u64,
    by: &AlwaysBy,
) -> Result<bool, Halt>
    requires judged { IsJudged scene.now }
    requires formed { IsFormedAlways scene.now.agg by.now }
    requires few_lines { line + always_lines by.now < 2 ^ 64 }
    ensures { (s : Setting) → IsSceneOf scene.now s → IsAlwaysFinding s line by.now result }
{
    match by {
        AlwaysBy::Tree(tree) => judge_tree_always(alloc, scene, line, tree),
        AlwaysBy::Ends(low, high) => judge_ends_always(alloc, scene, line, low, high),
    }
}

fn judge_tree_always(alloc: Global, scene: &Scene<'_>, line: u64, tree: &Tree) -> Result<bool, Halt>
    requires judged { IsJudged scene.now }
    requires formed { IsFormedTree tree.now }
    requires few_lines { line + 1 + length tree.now.nodes < 2 ^ 64 }
    ensures { (s : Setting) → IsSceneOf scene.now s → IsTreeAlways s line tree.now result }
{
    let most = judge_chosen(alloc, scene, 1, line + 1, tree)?;
    let under = is_small_under(0, most);
    Ok(under && scene.seen.count == 0)
}

/// Whether two ends of a least or a greatest number cross, and no row was observed.
fn judge_ends_always(
    alloc: Global,
    scene: &Scene<'_>,
    line: u64,
    low: &Bounded,
    high: &Bounded,
) -> Result<bool, Halt>
    requires judged { IsJudged scene.now }
    requires low { IsFormedBounded scene.now.agg low.now }
    requires high { IsFormedBounded scene.now.agg high.now }
    requires few_lines { line + crossing_lines low.now high.now < 2 ^ 64 }
    ensures { (s : Setting) → IsSceneOf scene.now s → IsEndsAlways s line low.now high.now result }
{
    let crosses = judge_crossing(alloc, scene, line, low, high)?;
    Ok(crosses && is_never_given(scene.agg, scene.seen.count))
}

/// Whether no row was observed, and the aggregate is a least or a greatest number.
fn is_never_given(agg: Agg, count: u64) -> bool
    ensures { IsTrue result ↔ ((pos count ≡ pos 0) × IsExtreme agg) }
{
    match agg {
        Agg::Min | Agg::Max => count == 0,
        Agg::Count | Agg::Sum | Agg::Avg => false,
    }
}
