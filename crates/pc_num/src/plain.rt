ghost use Rattle.std.specs.Prelude.{◌≡◌, ℕ, ◌<◌, ◌≤◌, ◌+◌, length, option_copied, IfSome};
ghost use Rattle.pc_num.specs.Scaled.{after_point, digits_len, greatest_size, number_after, scaled_plainly};

use crate::scaled::GREATEST_SIZE;

/// The size of digits alone or, at a scale above 0, of digits with a point before the last so many.
pub(crate) fn plain_size(number: &[u8], scale: u8) -> Option<u64>
    ensures plain { IfSome result (scaled_plainly scale number.now) }
    ensures small { IfSome result (λ size. size ≤ greatest_size) }
{
    if scale == 0 {
        return whole_size(number);
    }
    let point = number.len().checked_sub(usize::from(scale) + 1)?;
    pointed_size(number, point)
}

#[tactic(auto, using(crate::proofs::PlainSizes::plain_whole))]
fn whole_size(number: &[u8]) -> Option<u64>
    ensures plain { IfSome result (scaled_plainly 0 number.now) }
    ensures digits { IfSome result (λ _. digits_len number.now ≡ length number.now) }
    ensures some { IfSome result (λ _. 0 < length number.now) }
    ensures size { IfSome result (λ size. size ≡ number_after 0 number.now) }
    ensures small { IfSome result (λ size. size ≤ greatest_size) }
{
    if number.is_empty() {
        return None;
    }
    size_after(0, number)
}

#[tactic(auto, using(crate::proofs::PlainSizes::pointed_sizes))]
fn pointed_size(number: &[u8], point: usize) -> Option<u64>
    requires { point < length number.now }
    ensures plain { IfSome result (λ size. (scale : ℕ) → 0 < scale → point + scale + 1 ≡ length number.now → scaled_plainly scale number.now size) }
    ensures small { IfSome result (λ size. size ≤ greatest_size) }
{
    let (whole, rest) = number.split_at(point);
    let decimals = after_point(rest)?;
    let before = whole_size(whole)?;
    size_after(before, decimals)
}

fn after_point(rest: &[u8]) -> Option<&[u8]>
    ensures { option_copied result ≡ after_point rest.now }
{
    match rest {
        [b'.', decimals @ ..] => Some(decimals),
        _ => None,
    }
}

// The size of digits, and nothing else, after what stands before them, where it is within the limit.
#[tactic(auto, using(crate::proofs::PlainSizes::size_after_steps))]
fn size_after(before: u64, digits: &[u8]) -> Option<u64>
    requires { before ≤ greatest_size }
    ensures digits { IfSome result (λ _. digits_len digits.now ≡ length digits.now) }
    ensures size { IfSome result (λ size. size ≡ number_after before digits.now) }
    ensures small { IfSome result (λ size. size ≤ greatest_size) }
{
    let mut size = before;
    for digit in digits {
        if !digit.is_ascii_digit() {
            return None;
        }
        size = 10 * size + u64::from(digit.saturating_sub(b'0'));
        if size > GREATEST_SIZE {
            return None;
        }
    }
    Some(size)
}
