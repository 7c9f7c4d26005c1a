ghost use Rattle.std.specs.Prelude.{◌≡◌, ◌+◌, ◌≤◌, ◌<◌, ◌^◌, ◌↔◌, ◌+ℤ◌, IsTrue, IsSome, IsSomeAnd, option_map};
ghost use Rattle.pc_num.specs.Signs.{Fits};
ghost use Rattle.pc_model.specs.Aggregate.{IsSame, whole};
ghost use Rattle.pc_model.specs.Runs.{rows_of};
ghost use Rattle.pc_proof.specs.Form.{IsFormedRatio, IsFormedValue, IsFormedWhole};
ghost use Rattle.pc_proof.specs.Observed.{ComesTo};
ghost use Rattle.pc_proof.specs.Setting.{Setting};
ghost use Rattle.pc_proof.specs.Table.{greater_of, lesser_of, ratio_of};
ghost use Rattle.pc_check_rules.specs.Scene.{IsJudged};
ghost use Rattle.pc_check.specs.Totals.{average_of, question_with, total_value};
ghost use Rattle.pc_check.specs.Verdicts.{ArePossibleIn, IsMatterOf};

use crate::matter::Matter;
use pc_model::{Agg, Folded, Run, greatest_of, least_of};
use pc_num::{Frac, compare_fractions, fit_add};
use pc_witness::fold_runs;

/// What the observed rows and the possible ones of the runs come to.
pub(crate) fn total_with(matter: &Matter<'_>, runs: &[Run]) -> Folded
    requires judged { IsJudged matter.now.scene }
    requires possible { ArePossibleIn matter.now runs.now }
    ensures few { result.count ≤ 2 ^ 37 }
    ensures fits { Fits result.sum }
    ensures comes { (s : Setting) → IsMatterOf matter.now s → ComesTo (question_with s.question (rows_of runs.now)) result }
{
    let lost = fold_runs(matter.asked, runs);
    joined(&matter.scene.seen, &lost)
}

/// What observed and lost rows come to together. The sum is 0 where it does not fit; that of rows of a schema fits.
fn joined(seen: &Folded, lost: &Folded) -> Folded
    requires few { seen.now.count + lost.now.count < 2 ^ 64 }
    ensures count { result.count ≡ seen.now.count + lost.now.count }
    ensures sum { Fits (seen.now.sum +ℤ lost.now.sum) → result.sum ≡ seen.now.sum +ℤ lost.now.sum }
    ensures fits { Fits result.sum }
    ensures least { result.least ≡ lesser_of seen.now.least lost.now.least }
    ensures greatest { result.greatest ≡ greater_of seen.now.greatest lost.now.greatest }
{
    Folded {
        count: seen.count + lost.count,
        sum: joined_sum(seen.sum, lost.sum),
        least: lesser_of(seen.least, lost.least),
        greatest: greater_of(seen.greatest, lost.greatest),
    }
}

fn joined_sum(seen: i128, lost: i128) -> i128
    ensures sum { Fits (seen +ℤ lost) → result ≡ seen +ℤ lost }
    ensures fits { Fits result }
{
    match fit_add(seen, lost) {
        Some(sum) => sum,
        None => 0,
    }
}

fn lesser_of(first: Option<i64>, second: Option<i64>) -> Option<i64>
    ensures { result ≡ lesser_of first second }
{
    match second {
        Some(number) => Some(least_of(first, number)),
        None => first,
    }
}

fn greater_of(first: Option<i64>, second: Option<i64>) -> Option<i64>
    ensures { result ≡ greater_of first second }
{
    match second {
        Some(number) => Some(greatest_of(first, number)),
        None => first,
    }
}

/// Whether an aggregate has a value over rows that come to this.
pub(crate) fn has_value(agg: Agg, total: &Folded) -> bool
    ensures { IsTrue result ↔ IsSome (total_value agg total.now) }
{
    match agg {
        Agg::Count | Agg::Sum => true,
        Agg::Min => total.least.is_some(),
        Agg::Max => total.greatest.is_some(),
        Agg::Avg => total.count > 0,
    }
}

/// Whether it has this value.
pub(crate) fn is_value(agg: Agg, total: &Folded, value: &Frac) -> bool
    requires few { total.now.count ≤ 2 ^ 37 }
    requires fits { Fits total.now.sum }
    requires formed { IsFormedValue agg value.now }
    ensures { IsTrue result ↔ IsSomeAnd (total_value agg total.now) (λ v. IsSame v (ratio_of value.now)) }
{
    match agg {
        Agg::Count => is_whole(i128::from(total.count), value),
        Agg::Sum => is_whole(total.sum, value),
        Agg::Min => is_number(total.least, value),
        Agg::Max => is_number(total.greatest, value),
        Agg::Avg => is_average(total.sum, total.count, value),
    }
}

fn is_whole(number: i128, value: &Frac) -> bool
    requires formed { IsFormedWhole value.now }
    ensures { IsTrue result ↔ IsSame (whole number) (ratio_of value.now) }
{
    number == value.num
}

fn is_number(number: Option<i64>, value: &Frac) -> bool
    requires formed { IsFormedWhole value.now }
    ensures { IsTrue result ↔ IsSomeAnd (option_map whole number) (λ v. IsSame v (ratio_of value.now)) }
{
    match number {
        Some(number) => is_whole(i128::from(number), value),
        None => false,
    }
}

fn is_average(sum: i128, count: u64, value: &Frac) -> bool
    requires few { count ≤ 2 ^ 37 }
    requires fits { Fits sum }
    requires formed { IsFormedRatio value.now }
    ensures { IsTrue result ↔ IsSomeAnd (average_of sum count) (λ v. IsSame v (ratio_of value.now)) }
{
    if count == 0 {
        return false;
    }
    compare_fractions(sum, i128::from(count), value.num, value.den).is_eq()
}
