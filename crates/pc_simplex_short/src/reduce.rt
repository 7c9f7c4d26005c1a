ghost use Rattle.std.specs.Prelude.{◌≡◌, ◌<◌, ◌≤◌, ◌<ℤ◌, ◌≤ℤ◌, ◌*ℤ◌, ◌-ℤ◌, pos, unsigned_abs, length, All, IsTrue, IfSome, IsSome};
ghost use Rattle.std.specs.Int.{IsGcd, int_div_euclid};
ghost use Rattle.pc_program_bound.specs.Bound.{IsFit};
ghost use Rattle.pc_simplex_tableau.specs.Numbers.{common, primitive, combined};
ghost use Rattle.pc_simplex_short.specs.Short.{quotients};
ghost use Rattle.pc_simplex_short.specs.Kept.{IsWithin, AreSmall};

use crate::small::is_small;
use crate::word::short_quotient;
use pc_num::gcd;

/// `p` times the row minus `t` times the other, divided by the greatest common divisor. It answers false where a number is no
/// longer small, and the row is then of no more use.
pub(crate) fn reduce(row: &mut [i64], p: i64, t: i64, other: &[i64]) -> bool
    requires row { All (IsWithin 50) row.old }
    requires other { All (IsWithin 50) other.now }
    requires p { IsWithin 55 p }
    requires t { IsWithin 55 t }
    requires sized { length row.old ≡ length other.now }
    ensures reduced { IsTrue result → row.new ≡ primitive (combined p row.old t other.now) }
    ensures small { IsTrue result → All (IsWithin 50) row.new }
    ensures given { AreSmall (primitive (combined p row.old t other.now)) → IsTrue result }
{
    let divisor = divisor_of(row, p, t, other);
    if divisor > 1 {
        return put_divided(row, p, t, other, divisor);
    }
    put_divided(row, p, t, other, 1)
}

/// The greatest common divisor of what the row is made. No number is kept, since some may be wide before they are divided.
fn divisor_of(row: &[i64], p: i64, t: i64, other: &[i64]) -> i128
    requires row { All (IsWithin 50) row.now }
    requires other { All (IsWithin 50) other.now }
    requires p { IsWithin 55 p }
    requires t { IsWithin 55 t }
    requires sized { length row.now ≡ length other.now }
    ensures value { result ≡ pos (common (combined p row.now t other.now)) }
    ensures fits { IsFit result }
{
    let mut divisor: i128 = 0;
    for place in 0..row.len() {
        divisor = common_divisor(divisor, mixed(p, row[place], t, other[place]));
        // No number that follows makes it less.
        if divisor == 1 {
            return 1;
        }
    }
    divisor
}

fn put_divided(row: &mut [i64], p: i64, t: i64, other: &[i64], divisor: i128) -> bool
    requires row { All (IsWithin 50) row.old }
    requires other { All (IsWithin 50) other.now }
    requires p { IsWithin 55 p }
    requires t { IsWithin 55 t }
    requires sized { length row.old ≡ length other.now }
    requires divisor { pos 0 <ℤ divisor }
    ensures divided { IsTrue result → row.new ≡ quotients divisor (combined p row.old t other.now) }
    ensures small { IsTrue result → All (IsWithin 50) row.new }
    ensures given { AreSmall (quotients divisor (combined p row.old t other.now)) → IsTrue result }
{
    for place in 0..row.len() {
        match divided(mixed(p, row[place], t, other[place]), divisor) {
            Some(number) => row[place] = number,
            None => return false,
        }
    }
    true
}

/// A number divided, or none where that is not small.
fn divided(number: i128, divisor: i128) -> Option<i64>
    requires number { IsFit number }
    requires divisor { pos 0 <ℤ divisor }
    ensures value { IfSome result (λ q. q ≡ int_div_euclid number divisor) }
    ensures small { IfSome result (IsWithin 50) }
    ensures given { IsWithin 50 (int_div_euclid number divisor) → IsSome result }
{
    let quotient = quotient(number, divisor);
    if !is_small(quotient) {
        return None;
    }
    Some(quotient as i64)
}

pub(crate) fn quotient(number: i128, divisor: i128) -> i128
    requires number { IsFit number }
    requires divisor { pos 0 <ℤ divisor }
    ensures value { result ≡ int_div_euclid number divisor }
    ensures fits { IsFit result }
{
    if divisor == 1 {
        return number;
    }
    match short_quotient(number, divisor) {
        Some(quotient) => quotient,
        None => number.div_euclid(divisor),
    }
}

fn mixed(p: i64, a: i64, t: i64, b: i64) -> i128
    requires p { IsWithin 55 p }
    requires a { IsWithin 50 a }
    requires t { IsWithin 55 t }
    requires b { IsWithin 50 b }
    ensures value { result ≡ p *ℤ a -ℤ t *ℤ b }
    ensures fits { IsFit result }
{
    i128::from(p) * i128::from(a) - i128::from(t) * i128::from(b)
}

/// The greatest common divisor. Most numbers fit 64 bits, whose division is fast.
pub(crate) fn common_divisor(a: i128, b: i128) -> i128
    requires a_fits { IsFit a }
    requires b_fits { IsFit b }
    ensures common { IsGcd (unsigned_abs a) (unsigned_abs b) (unsigned_abs result) }
    ensures sign { pos 0 ≤ℤ result }
    ensures fits { IsFit result }
{
    let own = a.unsigned_abs();
    let other = b.unsigned_abs();
    if own < 1 << 64 && other < 1 << 64 {
        return i128::from(word_divisor(own as u64, other as u64));
    }
    gcd(a, b)
}

fn word_divisor(a: u64, b: u64) -> u64
    ensures { IsGcd a b result }
{
    let mut divisor = a;
    let mut rest = b;
    while rest != 0 {
        let next = divisor % rest;
        divisor = rest;
        rest = next;
    }
    divisor
}
