//! How wide ranges are, and how much wider than as constraints stand.
ghost use Rattle.std.specs.Prelude.{◌≡◌, ℕ, ◌≤◌, ◌*◌, IfSome, option_copied, unsigned_abs};
ghost use Rattle.pc_desk_table.specs.Remarks.{ends_of};
ghost use Rattle.pc_desk_widths.specs.Widths.{block_count, change_in, difference, entry_at, first_entries, greatest, high_in, high_of, low_in, low_of, measured, range_in, wider_at, width_of};

use crate::ranges::ends_of;
use pc_desk_table::{Entry, Range};
use pc_desk_weigh::{Change, Weighed};

// The greatest size of an end that is measured, in millionths.
const GREATEST: u128 = 10_000_000_000_000_000_000_000_000_000_000_000_000;

/// The change at a place; as constraints stand there is none.
pub(crate) fn change_in(all: &[Weighed], place: usize) -> Option<Change>
    ensures { result ≡ change_in all.now place }
{
    let weighed = all.get(place)?;
    weighed.change
}

/// The entry of a block in what stands at a place.
pub(crate) fn entry_at(all: &[Weighed], place: usize, block: usize) -> Option<&Entry>
    ensures { option_copied result ≡ entry_at all.now place block }
{
    let weighed = all.get(place)?;
    weighed.entries.as_slice().get(block)
}

/// The entries as constraints stand, one for each block.
pub(crate) fn first_entries(all: &[Weighed]) -> &[Entry]
    ensures { result.now ≡ first_entries all.now }
{
    match all {
        [] => Default::default(),
        [first, ..] => first.entries.as_slice(),
    }
}

pub(crate) fn block_count(all: &[Weighed]) -> usize
    ensures { result ≡ block_count all.now }
{
    first_entries(all).len()
}

/// The low end of the range that is shown of a block, in millionths, where it is measured.
pub(crate) fn low_of(entry: Option<&Entry>) -> Option<i128>
    ensures value { result ≡ low_of (option_copied entry.entry) }
    ensures small { IfSome result (λ number. unsigned_abs number ≤ greatest) }
{
    let range = range_in(entry)?;
    measured(range.low.value.millionths)
}

/// The high end.
pub(crate) fn high_of(entry: Option<&Entry>) -> Option<i128>
    ensures value { result ≡ high_of (option_copied entry.entry) }
    ensures small { IfSome result (λ number. unsigned_abs number ≤ greatest) }
{
    let range = range_in(entry)?;
    measured(range.high.value.millionths)
}

fn range_in(entry: Option<&Entry>) -> Option<&Range>
    ensures { option_copied result ≡ range_in (option_copied entry.entry) }
{
    match entry {
        Some(entry) => ends_of(entry),
        None => None,
    }
}

fn measured(number: Option<i128>) -> Option<i128>
    ensures value { result ≡ measured number }
    ensures small { IfSome result (λ number. unsigned_abs number ≤ greatest) }
{
    let number = number?;
    if number.unsigned_abs() <= GREATEST {
        return Some(number);
    }
    None
}

/// How far the ends of a block's range are from one another.
pub(crate) fn width_of(entry: Option<&Entry>) -> Option<i128>
    ensures value { result ≡ width_of (option_copied entry.entry) }
    ensures small { IfSome result (λ width. unsigned_abs width ≤ 2 * greatest) }
{
    difference(low_of(entry), high_of(entry))
}

/// How much wider the range of a block is at a place than as constraints stand.
pub(crate) fn wider_at(all: &[Weighed], place: usize, block: usize) -> Option<i128>
    ensures value { result ≡ wider_at all.now place block }
    ensures small { IfSome result (λ wider. unsigned_abs wider ≤ 4 * greatest) }
{
    let width = width_of(entry_at(all, 0, block));
    difference(width, width_of(entry_at(all, place, block)))
}

// How far one number is above another, where both are there.
fn difference(from: Option<i128>, to: Option<i128>) -> Option<i128>
    requires from { IfSome from (λ number. unsigned_abs number ≤ 2 * greatest) }
    requires to { IfSome to (λ number. unsigned_abs number ≤ 2 * greatest) }
    ensures value { result ≡ difference from to }
    ensures small { (most : ℕ) → IfSome from (λ number. unsigned_abs number ≤ most) → IfSome to (λ number. unsigned_abs number ≤ most) → IfSome result (λ number. unsigned_abs number ≤ 2 * most) }
{
    let from = from?;
    let to = to?;
    Some(to - from)
}
