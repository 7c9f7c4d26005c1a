ghost use Rattle.std.specs.Prelude.{◌≡◌};
ghost use Rattle.pc_model.specs.Places.{places_outside};
ghost use Rattle.pc_model.specs.Regions.{set_unless_empty};
ghost use Rattle.pc_box.specs.Boxes.{are_like};
ghost use Rattle.pc_box.specs.Sides.{sides_meet, is_within, common_side, span_below, span_above, lower_rest, upper_rest};

use pc_model::Side;

/// The places of a set that are not in another.
pub(crate) fn places_outside(bits: u128, other: u128) -> u128
    ensures { result ≡ places_outside bits other }
{
    bits ^ (bits & other)
}

/// Whether both are spans or both are sets, and each holds some number.
pub(crate) fn are_like(side: &Side, other: &Side) -> bool
    ensures { result ≡ are_like side.now other.now }
{
    match (*side, *other) {
        (
            Side::Span { low, high },
            Side::Span {
                low: other_low,
                high: other_high,
            },
        ) => low <= high && other_low <= other_high,
        (Side::Names { bits }, Side::Names { bits: other_bits }) => bits > 0 && other_bits > 0,
        _ => false,
    }
}

/// Whether two sides of one column have a number in common.
pub(crate) fn sides_meet(side: &Side, other: &Side) -> bool
    ensures { result ≡ sides_meet side.now other.now }
{
    side.meet(*other).is_some()
}

/// What two sides that meet have in common.
pub(crate) fn common_side(side: &Side, other: &Side) -> Side
    ensures { result ≡ common_side side.now other.now }
{
    side.meet(*other).unwrap_or(*side)
}

/// Whether each number of a side is in another of its column.
#[tactic(auto, unfolding(crate::specs::Sides::is_within))]
pub(crate) fn is_within(side: &Side, other: &Side) -> bool
    ensures { result ≡ is_within side.now other.now }
{
    match (*side, *other) {
        (
            Side::Span { low, high },
            Side::Span {
                low: other_low,
                high: other_high,
            },
        ) => other_low <= low && high <= other_high,
        (Side::Names { bits }, Side::Names { bits: other_bits }) => {
            places_outside(bits, other_bits) == 0
        }
        _ => false,
    }
}

/// What of a side lies below another that it meets, and of a set what is not in the other.
#[tactic(auto, unfolding(crate::specs::Sides::lower_rest))]
pub(crate) fn lower_rest(side: &Side, other: &Side) -> Option<Side>
    ensures { result ≡ lower_rest side.now other.now }
{
    match (*side, *other) {
        (Side::Span { low, .. }, Side::Span { low: other_low, .. }) => span_below(low, other_low),
        (Side::Names { bits }, Side::Names { bits: other_bits }) => {
            set_unless_empty(places_outside(bits, other_bits))
        }
        _ => None,
    }
}

/// What of a side lies above another that it meets.
#[tactic(auto, unfolding(crate::specs::Sides::upper_rest))]
pub(crate) fn upper_rest(side: &Side, other: &Side) -> Option<Side>
    ensures { result ≡ upper_rest side.now other.now }
{
    match (*side, *other) {
        (
            Side::Span { high, .. },
            Side::Span {
                high: other_high,
                ..
            },
        ) => span_above(other_high, high),
        _ => None,
    }
}

fn set_unless_empty(bits: u128) -> Option<Side>
    ensures { result ≡ set_unless_empty bits }
{
    if bits == 0 {
        return None;
    }
    Some(Side::Names { bits })
}

// The numbers from `low` on that are less than `end`.
fn span_below(low: i64, end: i64) -> Option<Side>
    ensures { result ≡ span_below low end }
{
    if low < end {
        return Some(Side::Span { low, high: end - 1 });
    }
    None
}

// The numbers up to `high` that are greater than `end`.
fn span_above(end: i64, high: i64) -> Option<Side>
    ensures { result ≡ span_above end high }
{
    if end < high {
        return Some(Side::Span { low: end + 1, high });
    }
    None
}
