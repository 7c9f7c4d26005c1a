ghost use Rattle.std.specs.Prelude.{◌≡◌, ◌<◌, ◌≤◌, ◌-◌, ◌*◌, ◌^◌, nat_abs, pos, ◌-ℤ◌, ◌*ℤ◌, length, All, SomeIff, IfSome};
ghost use Rattle.std.specs.Int.{int_max};
ghost use Rattle.pc_program_bound.specs.Sums.{sum_below};
ghost use Rattle.pc_program_bound.specs.Allocation.{IsProgram, IsBox, cells_of, constraints_of};
ghost use Rattle.pc_program_bound.specs.Bound.{cell_share};
ghost use Rattle.pc_program_bound.specs.Short.{IsShortNumber, AreTables, AreSmallTables, IsShortGain, IsShort};

use crate::Program;
use crate::tables::{Tables, are_short, tables_of};
use pc_model::Mult;

/// The cells' shares where all numbers are small, which 64 bits then hold without a test of each sum, or none where
/// some are not.
pub fn short_shares(p: &Program, floor: &[u64], cap: &[u64], mult: &Mult) -> Option<i128>
    requires program { IsProgram p.now }
    requires inside { IsBox p.now floor.now cap.now }
    requires sized { length mult.now.by ≡ constraints_of p.now }
    ensures value { SomeIff result (IsShort p.now mult.now) (sum_below (cells_of p.now) (cell_share p.now floor.now cap.now mult.now)) }
    ensures small { IfSome result (λ share. nat_abs share ≤ 2 ^ 123) }
{
    if p.masks.len() > 1 << 30 || mult.den.unsigned_abs() > 1 << 62 {
        return None;
    }
    let by = mult.by.as_slice();
    if !are_short(by) {
        return None;
    }
    shares(p, floor, cap, mult, &tables_of(by))
}

fn shares(p: &Program, floor: &[u64], cap: &[u64], mult: &Mult, tables: &Tables) -> Option<i128>
    requires program { IsProgram p.now }
    requires inside { IsBox p.now floor.now cap.now }
    requires sized { length mult.now.by ≡ constraints_of p.now }
    requires few { cells_of p.now ≤ 2 ^ 30 }
    requires den { nat_abs mult.now.den ≤ 2 ^ 62 }
    requires short { All IsShortNumber mult.now.by }
    requires tables { AreTables mult.now.by tables.now }
    requires small { AreSmallTables tables.now }
    ensures value { SomeIff result (IsShort p.now mult.now) (sum_below (cells_of p.now) (cell_share p.now floor.now cap.now mult.now)) }
    ensures small { IfSome result (λ share. nat_abs share ≤ 2 ^ 123) }
{
    let den = mult.den as i64;
    let gains = p.gain.as_slice();
    let mut share: i128 = 0;
    for (cell, mask) in p.masks.as_slice().iter().enumerate() {
        let rest = rest(den, gains[cell], tables.given(*mask))?;
        share += at_best(rest, floor[cell], cap[cell]);
    }
    Some(share)
}

/// What is left of a gain that is scaled, or none where that is not small.
fn rest(den: i64, gain: i128, given: i64) -> Option<i64>
    requires given { nat_abs given ≤ 20 * 2 ^ 57 }
    ensures value { SomeIff result (IsShortGain den gain) (den *ℤ gain -ℤ given) }
    ensures small { IfSome result (λ rest. nat_abs rest ≤ 2 ^ 63 - 1) }
{
    let scaled = scaled(den, gain)?;
    Some(scaled - given)
}

fn scaled(den: i64, gain: i128) -> Option<i64>
    ensures value { SomeIff result (IsShortGain den gain) (den *ℤ gain) }
    ensures small { IfSome result (λ scaled. nat_abs scaled ≤ 2 ^ 62) }
{
    let gain = i64::try_from(gain).ok()?;
    let scaled = den.checked_mul(gain)?;
    if scaled.unsigned_abs() > 1 << 62 {
        return None;
    }
    Some(scaled)
}

/// The greater of the rest's products with the ends.
fn at_best(rest: i64, floor: u64, cap: u64) -> i128
    requires rest { nat_abs rest ≤ 2 ^ 63 - 1 }
    requires ordered { floor ≤ cap }
    requires few { cap ≤ 1_000_000_000 }
    ensures value { result ≡ int_max (rest *ℤ pos floor) (rest *ℤ pos cap) }
    ensures small { nat_abs result ≤ 2 ^ 93 }
{
    if rest > 0 {
        return product(rest, cap);
    }
    product(rest, floor)
}

fn product(rest: i64, count: u64) -> i128
    requires rest { nat_abs rest ≤ 2 ^ 63 - 1 }
    requires few { count ≤ 1_000_000_000 }
    ensures value { result ≡ rest *ℤ pos count }
    ensures small { nat_abs result ≤ 2 ^ 93 }
{
    i128::from(rest) * i128::from(count as i64)
}
