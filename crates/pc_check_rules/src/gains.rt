ghost use Rattle.std.specs.Prelude.{◌≡◌, ◌≤◌, ◌^◌, ◌&&◌, nat_abs, neg_ℤ, ◌*ℤ◌, ◌-ℤ◌};
ghost use Rattle.pc_proof.specs.Table.{ratio_of, is_under, is_over, is_within, is_from};
ghost use Rattle.pc_check_rules.specs.Fractions.{IsMeasured};
ghost use Rattle.pc_check_rules.specs.Programs.{chosen_gain, counted_gain, high_gain, low_gain, gain_towards, is_closed, open_cap};

use crate::cells::GatheredCell;
use crate::extreme::Extreme;
use pc_model::Agg;
use pc_num::Frac;

/// What a row of a cell gains towards an end, in the program of a tree that shows the value to be that end.
pub(crate) fn gain_towards(extreme: Extreme, agg: Agg, value: &Frac, cell: &GatheredCell) -> i128
    requires { IsMeasured value.now }
    ensures { result ≡ gain_towards extreme agg (ratio_of value.now) cell.now }
{
    match extreme {
        Extreme::Low => low_gain(agg, value, cell),
        Extreme::High => high_gain(agg, value, cell),
    }
}

fn high_gain(agg: Agg, value: &Frac, cell: &GatheredCell) -> i128
    requires { IsMeasured value.now }
    ensures { result ≡ high_gain agg (ratio_of value.now) cell.now }
{
    match agg {
        Agg::Count | Agg::Min => chosen_gain(1, cell),
        Agg::Sum => chosen_gain(i128::from(cell.high), cell),
        Agg::Max => counted_gain(is_over(cell.high, value), cell),
        Agg::Avg => chosen_gain(above(cell.high, value), cell),
    }
}

fn low_gain(agg: Agg, value: &Frac, cell: &GatheredCell) -> i128
    requires { IsMeasured value.now }
    ensures { result ≡ low_gain agg (ratio_of value.now) cell.now }
{
    match agg {
        Agg::Count => chosen_gain(-1, cell),
        Agg::Max => chosen_gain(1, cell),
        Agg::Sum => chosen_gain(negated(cell.low), cell),
        Agg::Min => counted_gain(is_under(cell.low, value), cell),
        Agg::Avg => chosen_gain(below(cell.low, value), cell),
    }
}

/// How far a number is above a ratio, times the denominator.
fn above(number: i64, ratio: &Frac) -> i128
    requires { IsMeasured ratio.now }
    ensures { result ≡ (ratio.now.den *ℤ number -ℤ ratio.now.num) }
{
    scaled(number, ratio) - ratio.num
}

/// How far a number is below a ratio, times the denominator.
fn below(number: i64, ratio: &Frac) -> i128
    requires { IsMeasured ratio.now }
    ensures { result ≡ (ratio.now.num -ℤ ratio.now.den *ℤ number) }
{
    ratio.num - scaled(number, ratio)
}

fn negated(number: i64) -> i128
    ensures { result ≡ neg_ℤ number }
{
    -i128::from(number)
}

/// A gain of the chosen cells, and 0 of the others.
pub(crate) fn chosen_gain(gain: i128, cell: &GatheredCell) -> i128
    ensures { result ≡ chosen_gain gain cell.now }
{
    if cell.chosen {
        return gain;
    }
    0
}

/// 1 for a row of a chosen cell that passes, and 0 for others.
fn counted_gain(passes: bool, cell: &GatheredCell) -> i128
    ensures { result ≡ counted_gain passes cell.now }
{
    if cell.chosen && passes {
        return 1;
    }
    0
}

/// The most rows of a cell, and none of a chosen one that is closed.
pub(crate) fn open_cap(extreme: Extreme, value: &Frac, cell: &GatheredCell, cap: u64) -> u64
    requires { IsMeasured value.now }
    ensures { result ≡ open_cap extreme (ratio_of value.now) cell.now cap }
{
    if cell.chosen && is_closed(extreme, value, cell) {
        return 0;
    }
    cap
}

fn is_closed(extreme: Extreme, value: &Frac, cell: &GatheredCell) -> bool
    requires { IsMeasured value.now }
    ensures { result ≡ is_closed extreme (ratio_of value.now) cell.now }
{
    match extreme {
        Extreme::Low => is_from(cell.low, value),
        Extreme::High => is_within(cell.high, value),
    }
}

fn is_under(number: i64, value: &Frac) -> bool
    requires { IsMeasured value.now }
    ensures { result ≡ is_under number (ratio_of value.now) }
{
    scaled(number, value) < value.num
}

fn is_over(number: i64, value: &Frac) -> bool
    requires { IsMeasured value.now }
    ensures { result ≡ is_over number (ratio_of value.now) }
{
    value.num < scaled(number, value)
}

fn is_within(number: i64, value: &Frac) -> bool
    requires { IsMeasured value.now }
    ensures { result ≡ is_within number (ratio_of value.now) }
{
    scaled(number, value) <= value.num
}

fn is_from(number: i64, value: &Frac) -> bool
    requires { IsMeasured value.now }
    ensures { result ≡ is_from number (ratio_of value.now) }
{
    value.num <= scaled(number, value)
}

/// A number times the denominator of a value.
fn scaled(number: i64, value: &Frac) -> i128
    requires { IsMeasured value.now }
    ensures product { result ≡ number *ℤ value.now.den }
    ensures turned { result ≡ value.now.den *ℤ number }
    ensures small { nat_abs result ≤ 10 ^ 36 }
{
    i128::from(number) * value.den
}
