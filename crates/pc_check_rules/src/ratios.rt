ghost use Rattle.std.specs.Prelude.{◌≡◌, ◌≤◌, ◌*◌, ◌^◌, ◌↔◌, ◌*ℤ◌, ◌<ℤ◌, ◌≤ℤ◌, nat_abs, pos, neg_ℤ, IfSome, IsTrue};
ghost use Rattle.pc_model.specs.Aggregate.{IsAtMost};
ghost use Rattle.pc_proof.specs.Table.{ratio_of};
ghost use Rattle.pc_check_rules.specs.Fractions.{IsMeasured};
ghost use Rattle.pc_check_rules.specs.Scene.{IsCounted};
ghost use Rattle.pc_check_rules.specs.Shown.{observed_above, fewest_rows, raised_at, lowered_at};

use crate::bounds::rest_over;
use crate::fractions::{is_at_least, is_at_most};
use pc_model::Folded;
use pc_num::Frac;

/// Whether a ratio with what is left over, spread over the fewest rows, is at most a value.
pub(crate) fn is_raised_within(
    seen: &Folded,
    value: &Frac,
    ratio: &Frac,
    bound: Option<i128>,
) -> bool
    requires seen { IsCounted seen.now }
    requires measured { IsMeasured value.now }
    requires ratio { IsMeasured ratio.now }
    requires small { IfSome bound (λ k. nat_abs k ≤ 10 ^ 37) }
    ensures { IsTrue result ↔ IsAtMost (raised_at seen.now (ratio_of ratio.now) bound) (ratio_of value.now) }
{
    let fewest = fewest_rows(seen);
    let rest = rest_over(observed_above(seen, ratio), bound);
    is_at_most(
        num_over(ratio, fewest) + rest,
        den_over(ratio, fewest),
        value,
    )
}

/// Whether a ratio less what is left over, spread over the fewest rows, is at least a value.
pub(crate) fn is_lowered_from(
    seen: &Folded,
    value: &Frac,
    ratio: &Frac,
    bound: Option<i128>,
) -> bool
    requires seen { IsCounted seen.now }
    requires measured { IsMeasured value.now }
    requires ratio { IsMeasured ratio.now }
    requires small { IfSome bound (λ k. nat_abs k ≤ 10 ^ 37) }
    ensures { IsTrue result ↔ IsAtMost (ratio_of value.now) (lowered_at seen.now (ratio_of ratio.now) bound) }
{
    let fewest = fewest_rows(seen);
    let below = negated(observed_above(seen, ratio));
    let rest = rest_over(below, bound);
    is_at_least(
        num_over(ratio, fewest) - rest,
        den_over(ratio, fewest),
        value,
    )
}

fn negated(number: i128) -> i128
    requires { nat_abs number ≤ 60 * 10 ^ 36 }
    ensures { result ≡ neg_ℤ number }
{
    -number
}

/// How far the observed sum is above a ratio, times its denominator.
pub(crate) fn observed_above(seen: &Folded, ratio: &Frac) -> i128
    requires seen { IsCounted seen.now }
    requires measured { IsMeasured ratio.now }
    ensures above { result ≡ observed_above seen.now (ratio_of ratio.now) }
    ensures small { nat_abs result ≤ 60 * 10 ^ 36 }
{
    ratio.den * seen.sum - ratio.num * i128::from(seen.count)
}

/// The least number of rows with a value.
fn fewest_rows(seen: &Folded) -> i128
    requires { IsCounted seen.now }
    ensures fewest { result ≡ fewest_rows seen.now }
    ensures some { pos 1 ≤ℤ result }
    ensures few { result ≤ℤ pos (10 ^ 6) }
{
    i128::from(seen.count).max(1)
}

/// The numerator of a ratio over so many rows.
fn num_over(ratio: &Frac, rows: i128) -> i128
    requires measured { IsMeasured ratio.now }
    requires some { pos 1 ≤ℤ rows }
    requires few { rows ≤ℤ pos (10 ^ 6) }
    ensures num { result ≡ ratio.now.num *ℤ rows }
    ensures small { nat_abs result ≤ 30 * 10 ^ 36 }
{
    ratio.num * rows
}

/// The denominator of a ratio over so many rows.
fn den_over(ratio: &Frac, rows: i128) -> i128
    requires measured { IsMeasured ratio.now }
    requires some { pos 1 ≤ℤ rows }
    requires few { rows ≤ℤ pos (10 ^ 6) }
    ensures den { result ≡ ratio.now.den *ℤ rows }
    ensures positive { pos 0 <ℤ result }
    ensures small { nat_abs result ≤ 30 * 10 ^ 36 }
{
    ratio.den * rows
}
