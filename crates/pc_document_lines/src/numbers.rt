ghost use Rattle.std.specs.Prelude.{◌≡◌, ◌<◌, ◌≤◌, ◌^◌, ◌∷◌, [], IfSome, MatchOption, unsigned_abs};
ghost use Rattle.pc_num.specs.Scaled.{signed, starts_with_minus};
ghost use Rattle.pc_document_lines.specs.Numbers.{digits_value, likely_count, likely_number};

// The greatest number that fits.
const GREATEST: u128 = 170_141_183_460_469_231_731_687_303_715_884_105_727;

/// The only number whose text this can be, or none where it does not fit.
#[tactic(auto, using(pc_report::proofs::AveragesBack::signed_size), unfolding(crate::specs::Numbers::likely_number))]
pub fn likely_number(text: &[u8]) -> Option<i128>
    ensures { MatchOption result (2 ^ 127 ≤ unsigned_abs (likely_number text.now)) (λ n. n ≡ likely_number text.now) }
{
    match digits_value(text) {
        Some(size) => Some(signed(starts_with_minus(text), size)),
        None => None,
    }
}

/// The only count whose text this can be, or none where it is 2^127 or more.
pub(crate) fn likely_count(text: &[u8]) -> Option<u128>
    ensures { MatchOption result (2 ^ 127 ≤ likely_count text.now) (λ n. n ≡ likely_count text.now) }
{
    match likely_number(text) {
        Some(number) => Some(number.unsigned_abs()),
        None => None,
    }
}

// The number of the digits of a text, whatever else is between them, if it fits.
#[tactic(auto, using(crate::proofs::NumbersBack::digits_steps))]
fn digits_value(text: &[u8]) -> Option<u128>
    ensures value { MatchOption result (2 ^ 127 ≤ digits_value 0 text.now) (λ n. n ≡ digits_value 0 text.now) }
    ensures small { IfSome result (λ n. n < 2 ^ 127) }
{
    let mut number = 0;
    for byte in text {
        match with_byte(number, *byte) {
            Some(next) => number = next,
            None => return None,
        }
    }
    Some(number)
}

// A number with one byte more of its text, if it fits.
#[tactic(auto, unfolding(crate::specs::Numbers::digits_value))]
fn with_byte(number: u128, byte: u8) -> Option<u128>
    requires { number < 2 ^ 127 }
    ensures value { MatchOption result (2 ^ 127 ≤ digits_value number (byte ∷ [])) (λ n. n ≡ digits_value number (byte ∷ [])) }
    ensures small { IfSome result (λ n. n < 2 ^ 127) }
{
    if !byte.is_ascii_digit() {
        return Some(number);
    }
    if number > GREATEST / 10 {
        return None;
    }
    let next = 10 * number + u128::from(byte - b'0');
    if next > GREATEST {
        return None;
    }
    Some(next)
}

fn starts_with_minus(text: &[u8]) -> bool
    ensures { result ≡ starts_with_minus text.now }
{
    match text {
        [byte, ..] => *byte == b'-',
        [] => false,
    }
}

fn signed(minus: bool, size: u128) -> i128
    requires { size < 2 ^ 127 }
    ensures { result ≡ signed minus size }
{
    let number = size as i128;
    if minus { -number } else { number }
}
