ghost use Rattle.std.specs.Prelude.{◌↔◌, ◌<ℤ◌, pos, IsTrue};
ghost use Rattle.pc_num.specs.Signs.{Fits};
ghost use Rattle.pc_model.specs.Aggregate.{IsAtMost};
ghost use Rattle.pc_proof.specs.Table.{ratio_of};
ghost use Rattle.pc_check_rules.specs.Fractions.{IsMeasured};

use pc_num::{Frac, compare_fractions};

/// Whether a number over a denominator is at most a value.
pub(crate) fn is_at_most(num: i128, den: i128, value: &Frac) -> bool
    requires positive { pos 0 <ℤ den }
    requires num { Fits num }
    requires den { Fits den }
    requires measured { IsMeasured value.now }
    ensures { IsTrue result ↔ IsAtMost (record { num = num; den = den }) (ratio_of value.now) }
{
    compare_fractions(num, den, value.num, value.den).is_le()
}

/// Whether a number over a denominator is at least a value.
pub(crate) fn is_at_least(num: i128, den: i128, value: &Frac) -> bool
    requires positive { pos 0 <ℤ den }
    requires num { Fits num }
    requires den { Fits den }
    requires measured { IsMeasured value.now }
    ensures { IsTrue result ↔ IsAtMost (ratio_of value.now) (record { num = num; den = den }) }
{
    compare_fractions(num, den, value.num, value.den).is_ge()
}
