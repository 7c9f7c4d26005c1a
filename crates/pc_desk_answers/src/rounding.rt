ghost use Rattle.std.specs.Prelude.{◌≡◌, ◌≤◌, ◌<◌, ◌*◌, IfSome, unsigned_abs};
ghost use Rattle.pc_num.specs.Scaled.{signed};
ghost use Rattle.pc_desk_answers.specs.Rounded.{ceiling, floor, in_millionths, is_below_zero, is_small, limit, millionths_of, nearest, rounded};

use pc_num::Frac;

/// How a fraction becomes a decimal.
#[derive(Clone, Copy, Debug, PartialEq, Eq)]
pub(crate) enum Rounding {
    Down,
    Up,
    Nearest,
}

// The greatest size of the two numbers of a fraction that is rounded.
pub(crate) const LIMIT: u128 = 10_000_000_000_000_000_000_000_000_000_000;

/// The fraction in millionths, where its numbers are not too great.
#[tactic(auto, unfolding(crate::specs::Rounded::millionths_of))]
pub(crate) fn millionths_of(rounding: Rounding, value: &Frac) -> Option<i128>
    ensures value { result ≡ millionths_of rounding value.now }
    ensures small { IfSome result (λ number. unsigned_abs number ≤ limit * 1_000_000) }
{
    if is_small(value) {
        return Some(in_millionths(rounding, value));
    }
    None
}

fn is_small(value: &Frac) -> bool
    ensures { result ≡ is_small value.now }
{
    let den = value.den.unsigned_abs();
    value.num.unsigned_abs() <= LIMIT && (0 < den && den <= LIMIT)
}

fn in_millionths(rounding: Rounding, value: &Frac) -> i128
    requires num { unsigned_abs value.now.num ≤ limit }
    requires den { unsigned_abs value.now.den ≤ limit }
    requires some { 0 < unsigned_abs value.now.den }
    ensures value { result ≡ in_millionths rounding value.now }
    ensures small { unsigned_abs result ≤ limit * 1_000_000 }
{
    let minus = value.num < 0;
    let size = value.num.unsigned_abs() * 1_000_000;
    with_sign(
        minus,
        rounded(rounding, minus, size, value.den.unsigned_abs()),
    )
}

// Down is away from 0 for a number below 0.
fn rounded(rounding: Rounding, minus: bool, size: u128, den: u128) -> u128
    requires size_small { size ≤ limit * 1_000_000 }
    requires den_small { den ≤ limit }
    requires some { 0 < den }
    ensures value { result ≡ rounded rounding minus size den }
    ensures small { result ≤ limit * 1_000_000 }
{
    match (rounding, minus) {
        (Rounding::Down, true) | (Rounding::Up, false) => ceiling(size, den),
        (Rounding::Down, false) | (Rounding::Up, true) => size / den,
        (Rounding::Nearest, _) => nearest(size, den),
    }
}

fn ceiling(size: u128, den: u128) -> u128
    requires size_small { size ≤ limit * 1_000_000 }
    requires den_small { den ≤ limit }
    requires some { 0 < den }
    ensures value { result ≡ ceiling size den }
    ensures small { result ≤ limit * 1_000_000 }
{
    (size + (den - 1)) / den
}

fn nearest(size: u128, den: u128) -> u128
    requires size_small { size ≤ limit * 1_000_000 }
    requires den_small { den ≤ limit }
    requires some { 0 < den }
    ensures value { result ≡ nearest size den }
    ensures small { result ≤ limit * 1_000_000 }
{
    (2 * size + den) / (2 * den)
}

// The number of this size, below 0 where `minus` is set.
fn with_sign(minus: bool, size: u128) -> i128
    requires { size ≤ limit * 1_000_000 }
    ensures value { result ≡ signed minus size }
    ensures small { unsigned_abs result ≤ limit * 1_000_000 }
{
    let number = size as i128;
    if minus { -number } else { number }
}
