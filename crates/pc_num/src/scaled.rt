ghost use Rattle.std.specs.Prelude.{◌≡◌, ◌≤◌, ◌+◌, ◌-◌, ◌*◌, ◌^◌, length, min, IfOk, IfSome, unsigned_abs, option_copied, Some, Ok};
ghost use Rattle.pc_num.specs.Spelling.{Spells};
ghost use Rattle.pc_num.specs.Scaled.{are_digits, decimals_at, digits_len, greatest_size, has_decimals_past, number_after, scaled_of, scaled_parts, scaled_size, scaled_unsigned, signed, starts_with_minus, without_sign};

use crate::plain::plain_size;
use thiserror::Error;

/// Why a text is not read as a number.
#[derive(Clone, Copy, Debug, PartialEq, Eq, Error)]
pub enum NumFault {
    #[error("not a number: a sign or none, digits, and no more than a point and digits after them")]
    NotANumber,
    #[error("more decimals than the scale allows")]
    TooManyDecimals,
    #[error("beyond 10^15 units of the last place")]
    PastLimit,
}

/// The greatest size of a number in units of its last place.
pub const GREATEST_SIZE: u64 = 1_000_000_000_000_000;

/// Reads a decimal text as a whole number of units of its last place, with `scale` decimals: at a scale of 2,
/// `-7.5` is -750. A text with several faults has the first that `NumFault` lists.
#[tactic(auto, using(crate::proofs::Spells::spells), unfolding(crate::specs::Scaled::scaled_of))]
pub fn read_scaled(text: &[u8], scale: u8) -> Result<i64, NumFault>
    ensures value { result ≡ scaled_of scale text.now }
    ensures spelled { IfOk result (Spells text.now scale) }
    ensures small { IfOk result (λ n. unsigned_abs n ≤ greatest_size) }
{
    let minus = starts_with_minus(text);
    let number = without_sign(text);
    match plain_number(minus, number, scale) {
        Some(number) => Ok(number),
        None => read_unsigned(minus, number, scale),
    }
}

// A short way for what most files hold: digits alone, or a point and all decimals of the scale after them.
fn plain_number(minus: bool, number: &[u8], scale: u8) -> Option<i64>
    ensures value { IfSome result (λ n. scaled_unsigned scale minus number.now ≡ Ok n) }
    ensures small { IfSome result (λ n. unsigned_abs n ≤ greatest_size) }
{
    let size = plain_size(number, scale)?;
    Some(signed(minus, size))
}

// The number of a text without its sign. It stands apart, so that the short way saves no registers for it.
#[inline(never)]
fn read_unsigned(minus: bool, number: &[u8], scale: u8) -> Result<i64, NumFault>
    ensures value { result ≡ scaled_unsigned scale minus number.now }
    ensures small { IfOk result (λ n. unsigned_abs n ≤ greatest_size) }
{
    let (whole, rest) = number.split_at(digits_len(number));
    if whole.is_empty() {
        return Err(NumFault::NotANumber);
    }
    match decimals_at(rest) {
        Some(decimals) => read_parts(minus, whole, decimals, scale),
        None => Err(NumFault::NotANumber),
    }
}

fn read_parts(minus: bool, whole: &[u8], decimals: &[u8], scale: u8) -> Result<i64, NumFault>
    ensures value { result ≡ scaled_parts scale minus whole.now (Some decimals.now) }
    ensures small { IfOk result (λ n. unsigned_abs n ≤ greatest_size) }
{
    if has_decimals_past(decimals, scale) {
        return Err(NumFault::TooManyDecimals);
    }
    let size = scaled_size(whole, decimals, scale);
    if size > GREATEST_SIZE {
        return Err(NumFault::PastLimit);
    }
    Ok(signed(minus, size))
}

// Is a decimal past the scale not 0?
fn has_decimals_past(decimals: &[u8], scale: u8) -> bool
    ensures { result ≡ has_decimals_past scale decimals.now }
{
    decimals
        .iter()
        .skip(usize::from(scale))
        .any(|&digit| digit != b'0')
}

fn starts_with_minus(text: &[u8]) -> bool
    ensures { result ≡ starts_with_minus text.now }
{
    match text {
        [byte, ..] => *byte == b'-',
        [] => false,
    }
}

fn without_sign(text: &[u8]) -> &[u8]
    ensures { result.now ≡ without_sign text.now }
{
    match text {
        [b'-' | b'+', rest @ ..] => rest,
        _ => text,
    }
}

/// How many digits a text begins with.
#[tactic(auto, unfolding(crate::specs::Scaled::digits_len))]
pub fn digits_len(text: &[u8]) -> usize
    ensures exact { result ≡ digits_len text.now }
    ensures within { result ≤ length text.now }
{
    for (place, byte) in text.iter().enumerate() {
        if !byte.is_ascii_digit() {
            return place;
        }
    }
    text.len()
}

// One digit or more, and nothing else.
#[tactic(auto, unfolding(crate::specs::Scaled::are_digits))]
fn are_digits(text: &[u8]) -> bool
    ensures { result ≡ are_digits text.now }
{
    let count = digits_len(text);
    count > 0 && count == text.len()
}

// The decimals of what follows the whole part, if it is nothing or a point with digits.
fn decimals_at(rest: &[u8]) -> Option<&[u8]>
    ensures { option_copied result ≡ decimals_at rest.now }
{
    match rest {
        [] => Some(rest),
        [b'.', decimals @ ..] if are_digits(decimals) => Some(decimals),
        _ => None,
    }
}

// The number with one digit more, where GREATEST_SIZE + 1 stands for everything past it.
fn with_digit(number: u64, digit: u8) -> u64
    requires { number ≤ greatest_size + 1 }
    ensures { result ≡ min (10 * number + (digit - 48)) (greatest_size + 1) }
{
    (10 * number + u64::from(digit.saturating_sub(b'0'))).min(GREATEST_SIZE + 1)
}

// The number of these digits.
#[tactic(auto, using(crate::proofs::Numbers::number_after_steps))]
fn number_of(digits: &[u8]) -> u64
    ensures { result ≡ min (number_after 0 digits.now) (greatest_size + 1) }
{
    let mut number = 0;
    for digit in digits {
        number = with_digit(number, *digit);
    }
    number
}

// The number in units of its last place, with a 0 for each decimal that is missing.
#[tactic(auto, using(crate::proofs::Numbers::scaled_size_steps), unfolding(crate::specs::Scaled::scaled_size))]
fn scaled_size(whole: &[u8], decimals: &[u8], scale: u8) -> u64
    ensures { result ≡ min (scaled_size whole.now decimals.now scale) (greatest_size + 1) }
{
    let mut size = number_of(whole);
    for place in 0..usize::from(scale) {
        size = with_digit(size, decimals.get(place).copied().unwrap_or(b'0'));
    }
    size
}

fn signed(minus: bool, size: u64) -> i64
    requires { size ≤ greatest_size }
    ensures { result ≡ signed minus size }
{
    let number = size as i64;
    if minus { -number } else { number }
}
