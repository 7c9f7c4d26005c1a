ghost use Rattle.std.specs.Prelude.{◌≡◌, ◌≤◌, unsigned_abs};
ghost use Rattle.pc_desk_draw.specs.Numbers.{block_span, bounds_of, drawn, observed_number, range_span, span_of};

use crate::span::{Span, hull, ordered, point};
use pc_desk_table::{Entry, Range, Value};

// The greatest size, in millionths, of a number that is drawn.
const GREATEST: u128 = 100_000_000_000_000_000_000_000_000_000_000_000_000;

/// A number, if it can be drawn.
pub(crate) fn drawn(number: Option<i128>) -> Option<i128>
    ensures { result ≡ drawn number }
{
    let number = number?;
    if number.unsigned_abs() > GREATEST {
        return None;
    }
    Some(number)
}

/// The numbers of the ends of a range, if they are numbers in their order.
#[tactic(auto, unfolding(crate::specs::Numbers::span_of))]
pub(crate) fn span_of(range: &Range) -> Option<Span>
    ensures { result ≡ span_of range.now }
{
    ordered(
        drawn(range.low.value.millionths),
        drawn(range.high.value.millionths),
    )
}

fn range_span(range: &Option<Range>) -> Option<Span>
    ensures { result ≡ range_span range.now }
{
    match range {
        Some(range) => span_of(range),
        None => None,
    }
}

/// The number that the rows that are left come to.
pub(crate) fn observed_number(observed: &Option<Value>) -> Option<i128>
    ensures { result ≡ observed_number observed.now }
{
    match observed {
        Some(value) => drawn(value.millionths),
        None => None,
    }
}

// What the range and the observed value of a block span.
fn block_span(entry: &Entry) -> Option<Span>
    ensures { result ≡ block_span entry.now }
{
    hull(
        range_span(&entry.range),
        point(observed_number(&entry.observed)),
    )
}

/// From the least number of a picture to the greatest.
#[tactic(auto, using(crate::proofs::Hulls::steps))]
pub(crate) fn bounds_of(entries: &[Entry]) -> Option<Span>
    ensures { result ≡ bounds_of entries.now }
{
    let mut bounds = None;
    for entry in entries {
        bounds = hull(bounds, block_span(entry));
    }
    bounds
}
