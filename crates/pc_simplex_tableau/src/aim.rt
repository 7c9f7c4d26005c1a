ghost use Rattle.std.specs.Prelude.{◌≡◌, ◌≤ℤ◌, ◌<ℤ◌, ◌<◌, ◌≤◌, ◌*ℤ◌, ◌&&◌, ◌∷◌, ℤ, pos, map, length, All, IsTrue};
ghost use Rattle.std.specs.Int.{int_div_euclid};
ghost use Rattle.pc_program_bound.specs.Bound.{IsFit};
ghost use Rattle.pc_simplex_tableau.specs.Numbers.{common, does_fit, does_combined_fit};
ghost use Rattle.pc_simplex_tableau.specs.Tableau.{freed_aim, does_freed_aim_fit};
ghost use Rattle.pc_simplex_tableau.specs.Conditions.{aim_alone, divided, freed_entries, freed_weight};

use crate::numbers::combine;
use pc_num::{divide, fit_mul, gcd, row_divisor};

/// Frees the objective row of a column by a row that has an entry there. It answers false where a number does not fit, and
/// the objective row and its weight are then of no more use.
pub(crate) fn free(aim: &mut [i128], weight: &mut i128, column: usize, other: &[i128]) -> bool
    requires entries { All IsFit aim.old }
    requires weight { IsFit weight.old }
    requires other { All IsFit other.now }
    requires sized { length aim.old ≤ length other.now }
    requires column { column < length aim.old }
    ensures value { result ≡ does_freed_aim_fit column other.now (aim_alone aim.old weight.old) }
    ensures aim { IsTrue result → aim.new ≡ (freed_aim column other.now (aim_alone aim.old weight.old)).aim }
    ensures weight { IsTrue result → weight.new ≡ (freed_aim column other.now (aim_alone aim.old weight.old)).weight }
    ensures aim_fits { IsTrue result → All IsFit aim.new }
    ensures weight_fits { IsTrue result → IsFit weight.new }
{
    let entry = aim[column];
    if entry == 0 {
        return true;
    }
    free_entries(aim, weight, entry, other[column], other)
}

// Combines the entries with another row, which may have numbers after them, and divides them and the weight, which takes part
// by the other's entry alone. It answers false where a number does not fit.
fn free_entries(
    entries: &mut [i128],
    weight: &mut i128,
    entry: i128,
    scale: i128,
    other: &[i128],
) -> bool
    requires entries { All IsFit entries.old }
    requires weight { IsFit weight.old }
    requires entry { IsFit entry }
    requires scale { IsFit scale }
    requires other { All IsFit other.now }
    requires sized { length entries.old ≤ length other.now }
    ensures value { result ≡ does_combined_fit scale entries.old entry other.now && does_fit (scale *ℤ weight.old) }
    ensures entries { IsTrue result → entries.new ≡ freed_entries scale entries.old entry other.now weight.old }
    ensures weight { IsTrue result → weight.new ≡ freed_weight scale entries.old entry other.now weight.old }
    ensures entries_fit { IsTrue result → All IsFit entries.new }
    ensures weight_fits { IsTrue result → IsFit weight.new }
{
    let count = entries.len();
    if !combine(entries, scale, entry, &other[..count]) {
        return false;
    }
    match fit_mul(scale, *weight) {
        Some(product) => {
            *weight = divide_together(product, entries);
            true
        }
        None => false,
    }
}

/// Divides the entries by the greatest common divisor that they and the weight have, and gives the weight divided by it.
pub fn divide_together(weight: i128, entries: &mut [i128]) -> i128
    requires weight { IsFit weight }
    requires entries { All IsFit entries.old }
    ensures entries { entries.new ≡ map (divided (common (weight ∷ entries.old))) entries.old }
    ensures weight { result ≡ divided (common (weight ∷ entries.old)) weight }
    ensures entries_fit { All IsFit entries.new }
    ensures weight_fits { IsFit result }
{
    let divisor = divisor_of(weight, entries);
    if divisor == 0 {
        return weight;
    }
    divide(entries, divisor);
    quotient(weight, divisor)
}

// The greatest common divisor of the weight and the entries.
fn divisor_of(weight: i128, entries: &[i128]) -> i128
    requires weight { IsFit weight }
    requires entries { All IsFit entries.now }
    ensures value { result ≡ pos (common (weight ∷ entries.now)) }
    ensures fits { IsFit result }
{
    gcd(weight, row_divisor(entries))
}

fn quotient(number: i128, divisor: i128) -> i128
    requires number { IsFit number }
    requires fits { IsFit divisor }
    requires divisor { pos 0 <ℤ divisor }
    ensures value { result ≡ int_div_euclid number divisor }
    ensures fits { IsFit result }
{
    number.div_euclid(divisor)
}
