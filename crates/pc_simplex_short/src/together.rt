ghost use Rattle.std.specs.Prelude.{◌≡◌, ◌<ℤ◌, ◌∷◌, pos, map, All};
ghost use Rattle.std.specs.Int.{int_div_euclid};
ghost use Rattle.pc_program_bound.specs.Bound.{IsFit};
ghost use Rattle.pc_simplex_tableau.specs.Numbers.{common};
ghost use Rattle.pc_simplex_tableau.specs.Conditions.{divided};

use crate::reduce::{common_divisor, quotient};

/// Divides the entries by the greatest common divisor that they and the weight have, and gives the weight divided by it.
pub(crate) fn divide_together(weight: i128, entries: &mut [i128]) -> i128
    requires weight { IsFit weight }
    requires entries { All IsFit entries.old }
    ensures entries { entries.new ≡ map (divided (common (weight ∷ entries.old))) entries.old }
    ensures weight { result ≡ divided (common (weight ∷ entries.old)) weight }
    ensures weight_fits { IsFit result }
{
    let divisor = divisor_of(weight, entries);
    if divisor > 1 {
        divide(entries, divisor);
        return quotient(weight, divisor);
    }
    weight
}

/// The greatest common divisor of the weight and the entries.
fn divisor_of(weight: i128, entries: &[i128]) -> i128
    requires weight { IsFit weight }
    requires entries { All IsFit entries.now }
    ensures value { result ≡ pos (common (weight ∷ entries.now)) }
    ensures fits { IsFit result }
{
    let mut divisor = common_divisor(0, weight);
    for entry in entries {
        // No number that follows makes it less.
        if divisor == 1 {
            return 1;
        }
        divisor = common_divisor(divisor, *entry);
    }
    divisor
}

/// Divides each entry.
fn divide(entries: &mut [i128], divisor: i128)
    requires entries { All IsFit entries.old }
    requires divisor { pos 0 <ℤ divisor }
    ensures { entries.new ≡ map (λ a. int_div_euclid a divisor) entries.old }
{
    for entry in entries.iter_mut() {
        *entry = quotient(*entry, divisor);
    }
}
