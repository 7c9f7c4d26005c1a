ghost use Rattle.std.specs.Prelude.{◌≡◌, ◌*◌, ◌≤◌, ◌^◌, nat_abs, pos, ◌≤ℤ◌, ◌<ℤ◌};
ghost use Rattle.pc_num.specs.Fractions.{IsFrac};
ghost use Rattle.pc_proof.specs.Table.{ratio_of};
ghost use Rattle.pc_avg_ratio.specs.Fractional.{most_rows, most_sum};
ghost use Rattle.pc_avg_ratio.specs.Highest.{fewest_rows, raised, IsCapped};

use crate::fractional::Fractional;
use pc_num::Frac;

/// What is left over at a ratio, spread over the fewest rows and added to it, or the outermost number where that is less.
pub(crate) fn raised(f: &Fractional, ratio: Frac, left: i128, outermost: i128) -> Frac
    requires few { f.now.count ≤ 1_000_000 }
    requires positive { pos 0 <ℤ ratio.den }
    requires small_den { ratio.den ≤ℤ pos most_rows }
    requires small_num { nat_abs ratio.num ≤ most_sum }
    requires small_left { nat_abs left ≤ 2 * 10 ^ 37 }
    requires small_outermost { nat_abs outermost ≤ 2 ^ 63 }
    ensures lowest { IsFrac result }
    ensures small { result.den ≤ℤ pos 30_000_000_000_000_000 }
    ensures value { IsCapped result (raised f.now (ratio_of ratio) left) outermost }
{
    let fewest = fewest_rows(f);
    lesser(ratio.num * fewest + left, ratio.den * fewest, outermost)
}

/// The least number of rows that a ratio is of.
fn fewest_rows(f: &Fractional) -> i128
    ensures { result ≡ fewest_rows f.now }
{
    i128::from(f.count).max(1)
}

/// The fraction of two numbers, or the outermost number where that is less.
fn lesser(top: i128, bottom: i128, outermost: i128) -> Frac
    requires top { nat_abs top ≤ 3 * 10 ^ 37 }
    requires positive { pos 0 <ℤ bottom }
    requires small_bottom { bottom ≤ℤ pos 300_000_000_000_000 }
    requires small_outermost { nat_abs outermost ≤ 2 ^ 63 }
    ensures lowest { IsFrac result }
    ensures small { result.den ≤ℤ pos 30_000_000_000_000_000 }
    ensures value { IsCapped result (record { num = top; den = bottom }) outermost }
{
    if top <= outermost * bottom {
        match Frac::new(top, bottom) {
            Some(value) => return value,
            None => unreachable!(),
        }
    }
    Frac {
        num: outermost,
        den: 1,
    }
}
