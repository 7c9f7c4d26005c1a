ghost use Rattle.std.specs.Prelude.{◌≤◌, ◌^◌, ◌↔◌, nat_abs, IfSome, IsSomeAnd, IsTrue};
ghost use Rattle.pc_model.specs.Aggregate.{whole, IsAtMost};
ghost use Rattle.pc_proof.specs.Table.{ratio_of};
ghost use Rattle.pc_check_rules.specs.declared.extreme.Extreme.TheVariants.{High, Low};
ghost use Rattle.pc_check_rules.specs.Fractions.{IsMeasured};
ghost use Rattle.pc_check_rules.specs.Scene.{IsCounted};
ghost use Rattle.pc_check_rules.specs.Shown.{EndShows, HighAt, IsSmall, LowAt, RatioShows, RowsAt, ValuesShow, counted};

use crate::bounds::{
    counted, is_forced, is_none_left, is_none_over, is_small, is_total_from, is_total_within,
    is_under,
};
use crate::extreme::Extreme;
use crate::fractions::{is_at_least, is_at_most};
use crate::numbers::{greatest_number, least_number};
use crate::ratios::{is_lowered_from, is_raised_within, observed_above};
use crate::scene::Scene;
use pc_model::{Agg, Folded};
use pc_num::Frac;

/// Whether the bound of a tree shows a value to be an end.
pub(crate) fn tree_shows(
    scene: &Scene<'_>,
    extreme: Extreme,
    value: &Frac,
    most: Option<i128>,
) -> bool
    requires seen { IsCounted scene.now.seen }
    requires measured { IsMeasured value.now }
    ensures { IsTrue result ↔ (IsSmall most × EndShows extreme scene.now value.now (counted most)) }
{
    if !is_small(most) {
        return false;
    }
    end_at(scene, extreme, value, counted(most))
}

fn end_at(scene: &Scene<'_>, extreme: Extreme, value: &Frac, bound: Option<i128>) -> bool
    requires seen { IsCounted scene.now.seen }
    requires measured { IsMeasured value.now }
    requires small { IfSome bound (λ k. nat_abs k ≤ 10 ^ 37) }
    ensures { IsTrue result ↔ EndShows extreme scene.now value.now bound }
{
    match extreme {
        Extreme::Low => low_at(scene.agg, &scene.seen, value, bound),
        Extreme::High => high_at(scene.agg, &scene.seen, value, bound),
    }
}

fn high_at(agg: Agg, seen: &Folded, value: &Frac, bound: Option<i128>) -> bool
    requires seen { IsCounted seen.now }
    requires measured { IsMeasured value.now }
    requires small { IfSome bound (λ k. nat_abs k ≤ 10 ^ 37) }
    ensures { IsTrue result ↔ HighAt agg seen.now (ratio_of value.now) bound }
{
    match agg {
        Agg::Count => is_total_within(i128::from(seen.count), bound, value),
        Agg::Sum => is_total_within(seen.sum, bound, value),
        Agg::Min => is_forced(seen.count, bound),
        Agg::Max => is_under(0, bound) && is_within(seen.greatest, value),
        Agg::Avg => is_none_over(observed_above(seen, value), bound),
    }
}

fn low_at(agg: Agg, seen: &Folded, value: &Frac, bound: Option<i128>) -> bool
    requires seen { IsCounted seen.now }
    requires measured { IsMeasured value.now }
    requires small { IfSome bound (λ k. nat_abs k ≤ 10 ^ 37) }
    ensures { IsTrue result ↔ LowAt agg seen.now (ratio_of value.now) bound }
{
    match agg {
        Agg::Count => is_total_from(i128::from(seen.count), bound, value),
        Agg::Sum => is_total_from(seen.sum, bound, value),
        Agg::Min => is_under(0, bound) && is_from(seen.least, value),
        Agg::Max => is_forced(seen.count, bound),
        Agg::Avg => is_none_left(observed_above(seen, value), bound),
    }
}

/// Whether a number that may be absent is at most a value.
fn is_within(number: Option<i64>, value: &Frac) -> bool
    requires { IsMeasured value.now }
    ensures { IsTrue result ↔ IfSome number (λ n. IsAtMost (whole n) (ratio_of value.now)) }
{
    match number {
        Some(number) => is_at_most(i128::from(number), 1, value),
        None => true,
    }
}

/// Whether a number that may be absent is at least a value.
fn is_from(number: Option<i64>, value: &Frac) -> bool
    requires { IsMeasured value.now }
    ensures { IsTrue result ↔ IfSome number (λ n. IsAtMost (ratio_of value.now) (whole n)) }
{
    match number {
        Some(number) => is_at_least(i128::from(number), 1, value),
        None => true,
    }
}

/// Whether there is a number, and it is at most a value.
fn is_there_within(number: Option<i64>, value: &Frac) -> bool
    requires { IsMeasured value.now }
    ensures { IsTrue result ↔ IsSomeAnd number (λ n. IsAtMost (whole n) (ratio_of value.now)) }
{
    match number {
        Some(number) => is_at_most(i128::from(number), 1, value),
        None => false,
    }
}

/// Whether there is a number, and it is at least a value.
fn is_there_from(number: Option<i64>, value: &Frac) -> bool
    requires { IsMeasured value.now }
    ensures { IsTrue result ↔ IsSomeAnd number (λ n. IsAtMost (ratio_of value.now) (whole n)) }
{
    match number {
        Some(number) => is_at_least(i128::from(number), 1, value),
        None => false,
    }
}

/// Whether the observed rows show a value to be an end: the high one of the least number, or the low one of the
/// greatest.
pub(crate) fn rows_show(scene: &Scene<'_>, extreme: Extreme, value: &Frac) -> bool
    requires measured { IsMeasured value.now }
    ensures { IsTrue result ↔ RowsAt extreme scene.now.agg scene.now.seen (ratio_of value.now) }
{
    match (extreme, scene.agg) {
        (Extreme::High, Agg::Min) => is_there_within(scene.seen.least, value),
        (Extreme::Low, Agg::Max) => is_there_from(scene.seen.greatest, value),
        _ => false,
    }
}

/// Whether the numbers that rows can have show a value to be an end of the average.
pub(crate) fn values_show(scene: &Scene<'_>, extreme: Extreme, value: &Frac) -> bool
    requires measured { IsMeasured value.now }
    ensures { IsTrue result ↔ ValuesShow extreme scene.now value.now }
{
    match (extreme, scene.agg) {
        (Extreme::High, Agg::Avg) => is_there_within(greatest_number(scene), value),
        (Extreme::Low, Agg::Avg) => is_there_from(least_number(scene), value),
        _ => false,
    }
}

/// Whether the bound of a tree at a ratio shows a value to be an end of the average.
pub(crate) fn ratio_shows(
    scene: &Scene<'_>,
    extreme: Extreme,
    value: &Frac,
    ratio: &Frac,
    most: Option<i128>,
) -> bool
    requires seen { IsCounted scene.now.seen }
    requires measured { IsMeasured value.now }
    requires ratio { IsMeasured ratio.now }
    ensures { IsTrue result ↔ (IsSmall most × RatioShows extreme scene.now value.now ratio.now (counted most)) }
{
    if !is_small(most) {
        return false;
    }
    let bound = counted(most);
    match extreme {
        Extreme::Low => ratio_shows_low(scene, value, ratio, bound),
        Extreme::High => ratio_shows_high(scene, value, ratio, bound),
    }
}

fn ratio_shows_high(scene: &Scene<'_>, value: &Frac, ratio: &Frac, bound: Option<i128>) -> bool
    requires seen { IsCounted scene.now.seen }
    requires measured { IsMeasured value.now }
    requires ratio { IsMeasured ratio.now }
    requires small { IfSome bound (λ k. nat_abs k ≤ 10 ^ 37) }
    ensures { IsTrue result ↔ RatioShows High scene.now value.now ratio.now bound }
{
    let greatest = greatest_number(scene);
    if is_there_within(greatest, value) {
        return true;
    }
    if greatest.is_none() {
        return false;
    }
    is_raised_within(&scene.seen, value, ratio, bound)
}

fn ratio_shows_low(scene: &Scene<'_>, value: &Frac, ratio: &Frac, bound: Option<i128>) -> bool
    requires seen { IsCounted scene.now.seen }
    requires measured { IsMeasured value.now }
    requires ratio { IsMeasured ratio.now }
    requires small { IfSome bound (λ k. nat_abs k ≤ 10 ^ 37) }
    ensures { IsTrue result ↔ RatioShows Low scene.now value.now ratio.now bound }
{
    let least = least_number(scene);
    if is_there_from(least, value) {
        return true;
    }
    if least.is_none() {
        return false;
    }
    is_lowered_from(&scene.seen, value, ratio, bound)
}
