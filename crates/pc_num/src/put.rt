ghost use Rattle.std.specs.Prelude.{◌≡◌, ◌≤◌, ◌<◌, ◌+◌, ◌/◌, ◌%◌, ◌^◌, ◌++◌, ◌∷◌, ℕ, ℤ, IfOk, Ok, OnErr, OnOk, decimal, unsigned_abs};
ghost use Rattle.pc_num.specs.Put.{decimals_of, fraction_text, frac_text, minus_text, scaled_text};
ghost use Rattle.pc_num.specs.Scaled.{greatest_size, scaled_of};

use crate::{Frac, Memory};
use std::alloc::Global;

/// Appends a number of units of the last place as decimal text with exactly `scale` decimals: at a scale of 2, -5 is
/// `-0.05`.
pub fn put_scaled(alloc: Global, out: &mut Vec<u8>, value: i128, scale: u8) -> Result<(), Memory>
    requires { scale ≤ 6 }
    ensures ok { OnOk result (out.new.items ≡ out.old.items ++ scaled_text value scale) }
    ensures err { OnErr result (out.new.items ≡ out.old.items) }
{
    let text = text_of(alloc, value, scale)?;
    out.extend_from_slice(text.as_slice())?;
    Ok(())
}

/// What `put_scaled` writes is what `read_scaled` reads, at every scale.
#[tactic(auto, using(crate::proofs::ReadBack::reads_back))]
pub fn reads_back()
    ensures { (value : ℤ) (scale : ℕ) → unsigned_abs value ≤ greatest_size → scaled_of scale (scaled_text value scale) ≡ Ok value }
{}

/// Appends a fraction as `num/den`, or its numerator alone where its denominator is 1: 3/2 is `3/2`, and 4/1 is `4`.
pub fn put_frac(alloc: Global, out: &mut Vec<u8>, value: &Frac) -> Result<(), Memory>
    ensures ok { OnOk result (out.new.items ≡ out.old.items ++ frac_text value.now) }
    ensures err { OnErr result (out.new.items ≡ out.old.items) }
{
    let fraction = frac_text_of(alloc, value)?;
    out.extend_from_slice(fraction.as_slice())?;
    Ok(())
}

#[tactic(auto, unfolding(crate::specs::Put::frac_text))]
fn frac_text_of(alloc: Global, value: &Frac) -> Result<Vec<u8>, Memory>
    ensures { IfOk result (λ text. text.items ≡ frac_text value.now) }
{
    let mut text = text_of(alloc, value.num, 0)?;
    if value.den == 1 {
        return Ok(text);
    }
    text.push(b'/')?;
    let den = text_of(alloc, value.den, 0)?;
    text.extend_from_slice(den.as_slice())?;
    Ok(text)
}

#[tactic(auto, unfolding(crate::specs::Put::scaled_text))]
fn text_of(alloc: Global, value: i128, scale: u8) -> Result<Vec<u8>, Memory>
    requires { scale ≤ 6 }
    ensures { IfOk result (λ text. text.items ≡ scaled_text value scale) }
{
    let size = value.unsigned_abs();
    let mut text = Vec::new(alloc);
    put_minus(&mut text, value)?;
    let whole = (size / power_of_ten(scale)).to_string(alloc)?;
    text.extend_from_slice(whole.as_bytes())?;
    put_fraction(&mut text, size, scale)?;
    Ok(text)
}

fn put_minus(out: &mut Vec<u8>, value: i128) -> Result<(), Memory>
    ensures { OnOk result (out.new.items ≡ out.old.items ++ minus_text value) }
{
    if value < 0 {
        out.push(b'-')?;
    }
    Ok(())
}

fn put_fraction(out: &mut Vec<u8>, size: u128, scale: u8) -> Result<(), Memory>
    requires { scale ≤ 6 }
    ensures { OnOk result (out.new.items ≡ out.old.items ++ fraction_text scale size) }
{
    if scale == 0 {
        return Ok(());
    }
    out.push(b'.')?;
    put_decimals(out, size, scale)
}

// Appends the last so many digits of a number.
#[tactic(auto, using(crate::proofs::Decimals::decimals_steps))]
fn put_decimals(out: &mut Vec<u8>, size: u128, count: u8) -> Result<(), Memory>
    requires { count ≤ 6 }
    ensures { OnOk result (out.new.items ≡ out.old.items ++ decimals_of count size) }
{
    let mut left = count;
    while left > 0 {
        left -= 1;
        out.push(digit_at(size, left))?;
    }
    Ok(())
}

// The digit of a number before so many others.
fn digit_at(size: u128, place: u8) -> u8
    requires { place ≤ 6 }
    ensures { result ≡ 48 + size / 10 ^ place % 10 }
{
    b'0' + (size / power_of_ten(place) % 10) as u8
}

#[tactic(auto, using(crate::proofs::Decimals::power_positive))]
fn power_of_ten(exponent: u8) -> u128
    requires { exponent ≤ 6 }
    ensures value { result ≡ 10 ^ exponent }
    ensures positive { 0 < result }
{
    10u128.pow(u32::from(exponent))
}
