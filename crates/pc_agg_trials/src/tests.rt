mod asking;
mod conflicts;
mod judging;
mod overlaps;
mod ranges;
mod small;
mod small_extremes;
mod small_more;
mod truths;

use asking::{answered, discard};
use judging::{Range, all_have};
use overlaps::{OVERLAPS, TRIANGLES};
use pc_model::{Refusal, Run};
use pc_witness::total_times;
use ranges::{CHEAP, IMPOSSIBLE, LARGE, MOST_LARGE, RANGES, SALES, SHOP};
use small::SMALL;
use small_extremes::SMALL_EXTREMES;
use small_more::SMALL_MORE;
use std::alloc::Global;
use std::process::Abort;
use std::test::Fail;
use truths::Truth;

/// The texts of a schema, observed rows, constraints and a query. Tables of them are statics: a constant is spelled out in
/// each function that names it, which takes two seconds a case to check.
type Texts<'a> = (&'a str, &'a str, &'a str, &'a str);

/// Whether the answer within a budget of nodes is the true range.
fn is_range(
    rt: &impl Abort,
    alloc: Global,
    texts: Texts<'_>,
    nodes: u32,
    range: Range,
) -> Result<bool, Refusal> {
    let outcome = answered(rt, alloc, texts, nodes)?;
    let holds = outcome.is_settled() && outcome.is_exactly(range);
    discard(outcome);
    Ok(holds)
}

/// Whether the answer within a budget of nodes holds for the true range.
fn holds_for(
    rt: &impl Abort,
    alloc: Global,
    texts: Texts<'_>,
    nodes: u32,
    range: Range,
) -> Result<bool, Refusal> {
    let outcome = answered(rt, alloc, texts, nodes)?;
    let holds = outcome.is_settled() && outcome.holds_for(range);
    discard(outcome);
    Ok(holds)
}

/// Whether the true range is in the answer at budgets of 1 and 3 nodes, and is the answer at 10,000.
fn holds_at_budgets(
    rt: &impl Abort,
    alloc: Global,
    texts: Texts<'_>,
    range: Range,
) -> Result<bool, Refusal> {
    let one = holds_for(rt, alloc, texts, 1, range)?;
    let three = holds_for(rt, alloc, texts, 3, range)?;
    let many = is_range(rt, alloc, texts, 10_000, range)?;
    Ok(one && three && many)
}

/// Asserts that the answer is the true range in each case.
fn are_ranges(
    rt: &impl Abort,
    alloc: Global,
    cases: &[(Texts<'_>, u32, Range)],
) -> Result<(), Refusal> {
    for (number, (texts, nodes, range)) in cases.iter().enumerate() {
        let holds = is_range(rt, alloc, *texts, *nodes, *range)?;
        assert!(rt; holds, "case {number}");
    }
    Ok(())
}

#[test]
fn ranges_by_hand(rt: HostRuntime) -> Result<(), Fail> {
    are_ranges(&rt, rt.alloc(), &RANGES)?;
    Ok(())
}

#[test]
fn impossible_constraints(rt: HostRuntime) -> Result<(), Fail> {
    are_ranges(&rt, rt.alloc(), &IMPOSSIBLE)?;
    Ok(())
}

#[test]
fn overlaps_by_hand(rt: HostRuntime) -> Result<(), Fail> {
    are_ranges(&rt, rt.alloc(), &OVERLAPS)?;
    Ok(())
}

/// Whether the low end is 0, and the high end is outer at 3.
fn is_open_above(rt: &impl Abort, alloc: Global) -> Result<bool, Refusal> {
    let one = answered(rt, alloc, TRIANGLES, 1)?;
    let holds = one.is_possible() && one.has_low(0) && one.is_outer_at(3);
    discard(one);
    Ok(holds)
}

/// Whether the low end is 0, and the high end is 2.
fn is_closed_above(rt: &impl Abort, alloc: Global) -> Result<bool, Refusal> {
    let three = answered(rt, alloc, TRIANGLES, 3)?;
    let holds = three.is_possible() && three.has_low(0) && three.has_high(2);
    discard(three);
    Ok(holds)
}

#[test]
fn budgets_that_leave_an_end_open(rt: HostRuntime) -> Result<(), Fail> {
    let alloc = rt.alloc();
    let one = is_open_above(&rt, alloc)?;
    assert!(rt; one);
    let three = is_closed_above(&rt, alloc)?;
    assert!(rt; three);
    Ok(())
}

/// Asserts that the answers hold at every budget in each case.
fn all_hold(rt: &impl Abort, alloc: Global, cases: &[(Texts<'_>, Range)]) -> Result<(), Refusal> {
    for (number, (texts, range)) in cases.iter().enumerate() {
        let holds = holds_at_budgets(rt, alloc, *texts, *range)?;
        assert!(rt; holds, "case {number}");
    }
    Ok(())
}

#[test]
fn small_domains(rt: HostRuntime) -> Result<(), Fail> {
    all_hold(&rt, rt.alloc(), &SMALL)?;
    Ok(())
}

#[test]
fn further_small_domains(rt: HostRuntime) -> Result<(), Fail> {
    all_hold(&rt, rt.alloc(), &SMALL_MORE)?;
    Ok(())
}

/// Whether the answer within a budget of nodes is the truth.
fn is_truth(
    rt: &impl Abort,
    alloc: Global,
    texts: Texts<'_>,
    nodes: u32,
    truth: Truth,
) -> Result<bool, Refusal> {
    let outcome = answered(rt, alloc, texts, nodes)?;
    let holds = outcome.is_truth(truth);
    discard(outcome);
    Ok(holds)
}

/// Whether the answer within a budget of nodes holds for what is true.
fn holds_for_truth(
    rt: &impl Abort,
    alloc: Global,
    texts: Texts<'_>,
    nodes: u32,
    truth: Truth,
) -> Result<bool, Refusal> {
    let outcome = answered(rt, alloc, texts, nodes)?;
    let holds = outcome.holds_for_truth(truth);
    discard(outcome);
    Ok(holds)
}

/// Whether the answers at budgets of 1 and 3 nodes hold for what is true, and that at 10,000 says it.
fn is_true_at_budgets(
    rt: &impl Abort,
    alloc: Global,
    texts: Texts<'_>,
    truth: Truth,
) -> Result<bool, Refusal> {
    let one = holds_for_truth(rt, alloc, texts, 1, truth)?;
    let three = holds_for_truth(rt, alloc, texts, 3, truth)?;
    let many = is_truth(rt, alloc, texts, 10_000, truth)?;
    Ok(one && three && many)
}

/// Asserts that the answers are true at every budget in each case.
fn all_are_true(
    rt: &impl Abort,
    alloc: Global,
    cases: &[(Texts<'_>, Truth)],
) -> Result<(), Refusal> {
    for (number, (texts, truth)) in cases.iter().enumerate() {
        let holds = is_true_at_budgets(rt, alloc, *texts, *truth)?;
        assert!(rt; holds, "case {number}");
    }
    Ok(())
}

#[test]
fn least_and_greatest_numbers_of_small_domains(rt: HostRuntime) -> Result<(), Fail> {
    all_are_true(&rt, rt.alloc(), &SMALL_EXTREMES)?;
    Ok(())
}

fn assert_shop_runs(rt: &impl Abort, runs: &[Run]) {
    assert!(rt; total_times(runs) == Some(5));
    assert!(rt; all_have(runs, 0, 0));
    assert!(rt; all_have(runs, 2, 14_999));
}

fn assert_large_runs(rt: &impl Abort, runs: &[Run]) {
    assert!(rt; runs.len() == 1);
    assert!(rt; total_times(runs) == Some(10_000_000));
    assert!(rt; all_have(runs, 0, 1_000_000_000_000_000));
}

fn assert_shop(rt: &impl Abort, alloc: Global) -> Result<(), Refusal> {
    let shop = answered(rt, alloc, (SHOP, SALES, CHEAP, "sum(price)"), 1)?;
    let runs = shop.high_runs().expect(rt, "a high end that is reached");
    assert_shop_runs(rt, runs);
    discard(shop);
    Ok(())
}

fn assert_large(rt: &impl Abort, alloc: Global) -> Result<(), Refusal> {
    let large = answered(rt, alloc, (LARGE, "v\n", MOST_LARGE, "sum(v)"), 1)?;
    let runs = large.high_runs().expect(rt, "a high end that is reached");
    assert_large_runs(rt, runs);
    discard(large);
    Ok(())
}

#[test]
fn rows_that_reach_a_high_end(rt: HostRuntime) -> Result<(), Fail> {
    let alloc = rt.alloc();
    assert_shop(&rt, alloc)?;
    assert_large(&rt, alloc)?;
    Ok(())
}

fn loses_nothing(rt: &impl Abort, alloc: Global) -> Result<bool, Refusal> {
    let shop = answered(rt, alloc, (SHOP, SALES, "", "count"), 1)?;
    let holds = shop.loses_nothing();
    discard(shop);
    Ok(holds)
}

#[test]
fn nothing_is_lost_without_constraints(rt: HostRuntime) -> Result<(), Fail> {
    let holds = loses_nothing(&rt, rt.alloc())?;
    assert!(rt; holds);
    Ok(())
}
