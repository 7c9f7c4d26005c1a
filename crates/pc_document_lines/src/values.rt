ghost use Rattle.std.specs.Prelude.{◌≡◌, ◌≤◌, ◌^◌, ◌*◌, ◌&&◌, ◌∷◌, ◌*ℤ◌, [], pos, IfOk, Some, map, true, unsigned_abs};
ghost use Rattle.pc_document_lines.specs.Likely.{IsLikely};
ghost use Rattle.pc_document_lines.specs.ValueLines.{fraction_of, in_units, in_units_if, is_printed_size, is_ratio, is_value_of, is_whole_value, likely_average, likely_value_of, likely_whole};

use crate::numbers::likely_number;
use crate::pieces::pieces_of;
use pc_model::Agg;
use pc_num::{Frac, Memory};
use std::alloc::Global;

/// The only value of an aggregate whose text this can be, or none where that may not stand.
pub(crate) fn likely_value(
    alloc: Global,
    agg: Agg,
    scale: u8,
    text: &[u8],
) -> Result<Option<Frac>, Memory>
    requires { scale ≤ 6 }
    ensures { IfOk result (λ found. IsLikely (is_value_of agg) (likely_value_of agg scale text.now) found) }
{
    match agg {
        Agg::Count | Agg::Sum | Agg::Min | Agg::Max => Ok(likely_whole(text)),
        Agg::Avg => likely_average(alloc, scale, text),
    }
}

/// Whether a value may stand at an aggregate: a whole number but for an average, and of the sizes of those.
pub(crate) fn is_value(agg: Agg, value: &Frac) -> bool
    ensures { result ≡ is_value_of agg value.now }
{
    match agg {
        Agg::Count | Agg::Sum | Agg::Min | Agg::Max => is_whole_value(value),
        Agg::Avg => is_ratio(value),
    }
}

#[tactic(auto, unfolding(crate::specs::ValueLines::is_whole_value))]
fn is_whole_value(value: &Frac) -> bool
    ensures { result ≡ is_whole_value value.now }
{
    value.den == 1 && value.num.unsigned_abs() <= 10u128.pow(31)
}

/// Whether a ratio has the sizes of one.
#[tactic(auto, unfolding(crate::specs::ValueLines::is_ratio))]
pub(crate) fn is_ratio(value: &Frac) -> bool
    ensures { result ≡ is_ratio value.now }
{
    value.den >= 1
        && value.num.unsigned_abs() <= 3 * 10u128.pow(31)
        && value.den.unsigned_abs() <= 3 * 10u128.pow(16)
}

#[tactic(auto, using(crate::proofs::ValuesRead::large_whole))]
fn likely_whole(text: &[u8]) -> Option<Frac>
    ensures { IsLikely is_whole_value (likely_whole text.now) result }
{
    match likely_number(text) {
        Some(num) => Some(Frac { num, den: 1 }),
        None => None,
    }
}

/// The only average whose text this can be, or none where that may not stand.
#[tactic(auto, using(crate::proofs::ValuesRead::none_in_units), unfolding(crate::specs::ValueLines::likely_average))]
pub(crate) fn likely_average(alloc: Global, scale: u8, text: &[u8]) -> Result<Option<Frac>, Memory>
    requires { scale ≤ 6 }
    ensures { IfOk result (λ found. IsLikely is_ratio (likely_average scale text.now) found) }
{
    let pieces = pieces_of(alloc, text, b'/')?;
    match fraction_of(pieces.as_slice()) {
        Some(fraction) => Ok(in_units_if(scale, &fraction)),
        None => Ok(None),
    }
}

// The only fraction that pieces can be of, or none where its numbers do not fit.
fn fraction_of(pieces: &[&[u8]]) -> Option<Frac>
    ensures { IsLikely is_printed_size (fraction_of (map (λ piece. piece.now) pieces.now)) result }
{
    match pieces {
        [num] => whole_of(num),
        [num, den] => ratio_of(num, den),
        _ => None,
    }
}

#[tactic(auto, using(crate::proofs::ValuesRead::large_num))]
fn whole_of(num: &[u8]) -> Option<Frac>
    ensures { IsLikely is_printed_size (fraction_of (num.now ∷ [])) result }
{
    match likely_number(num) {
        Some(num) => Some(Frac { num, den: 1 }),
        None => None,
    }
}

#[tactic(auto, using(crate::proofs::ValuesRead::large_sizes))]
fn ratio_of(num: &[u8], den: &[u8]) -> Option<Frac>
    ensures { IsLikely is_printed_size (fraction_of (num.now ∷ den.now ∷ [])) result }
{
    let Some(num) = likely_number(num) else {
        return None;
    };
    let Some(den) = likely_number(den) else {
        return None;
    };
    Some(Frac { num, den })
}

fn in_units_if(scale: u8, fraction: &Frac) -> Option<Frac>
    requires { scale ≤ 6 }
    ensures { result ≡ in_units_if scale (Some fraction.now) }
{
    if !is_printed_size(fraction) {
        return None;
    }
    Some(in_units(scale, fraction))
}

fn is_printed_size(fraction: &Frac) -> bool
    ensures { result ≡ is_printed_size fraction.now }
{
    fraction.num.unsigned_abs() <= 3 * 10u128.pow(31)
        && (fraction.den >= 1 && fraction.den.unsigned_abs() <= 3 * 10u128.pow(22))
}

// A fraction in the column's unit, in units of its last place.
#[tactic(auto, using(crate::proofs::ValuesRead::units))]
fn in_units(scale: u8, fraction: &Frac) -> Frac
    requires few { scale ≤ 6 }
    requires sizes { is_printed_size fraction.now ≡ true }
    ensures { result ≡ in_units scale fraction.now }
{
    match Frac::new(num_in_units(scale, fraction.num), fraction.den) {
        Some(value) => value,
        None => unreachable!(),
    }
}

fn num_in_units(scale: u8, num: i128) -> i128
    requires few { scale ≤ 6 }
    requires small { unsigned_abs num ≤ 3 * 10 ^ 31 }
    ensures { result ≡ num *ℤ pos (10 ^ scale) }
{
    num * power_of_ten(scale)
}

fn power_of_ten(exponent: u8) -> i128
    requires { exponent ≤ 6 }
    ensures { result ≡ pos (10 ^ exponent) }
{
    10i128.pow(u32::from(exponent))
}
