//! Numbers cut into ranges.
ghost use Rattle.std.specs.Prelude.{◌≡◌, ◌<◌, ◌≤◌, ◌^◌, pos, ◌+ℤ◌, ◌≤ℤ◌, min, IfOk};
ghost use Rattle.pc_desk_divide.specs.Pieces.{range_at, range_start, ranges_of, ranges_with, width};

use pc_list::Seq;
use pc_model::Side;
use pc_num::Memory;
use std::alloc::Global;

/// As many ranges as are wanted of the numbers from `low` to `high`, but no more than numbers.
#[tactic(auto, using(crate::proofs::Widths::width_fits), unfolding(crate::specs::Pieces::ranges_of))]
pub(crate) fn ranges_of(alloc: Global, parts: u64, low: i64, high: i64) -> Result<Seq<Side>, Memory>
    ensures { IfOk result (λ ranges. ranges ≡ ranges_of parts low high) }
{
    if high < low {
        return Ok(Seq::new(alloc));
    }
    let width = width(low, high);
    ranges_with(alloc, low, width, count_within(parts, width))
}

fn width(low: i64, high: i64) -> u128
    ensures { result ≡ width low high }
{
    (high as i128 - low as i128).unsigned_abs() + 1
}

fn count_within(parts: u64, width: u128) -> u64
    ensures { result ≡ min parts width }
{
    if width < parts as u128 {
        return width as u64;
    }
    parts
}

#[tactic(auto, using(crate::proofs::Steps::range_steps))]
fn ranges_with(alloc: Global, low: i64, width: u128, count: u64) -> Result<Seq<Side>, Memory>
    requires few { count ≤ width }
    requires fits { (low +ℤ pos width) ≤ℤ pos (2 ^ 63) }
    ensures { IfOk result (λ ranges. ranges ≡ ranges_with low width count) }
{
    let mut ranges = Seq::new(alloc);
    for place in 0..count {
        ranges.push(range_at(low, width, count, place))?;
    }
    Ok(ranges)
}

fn range_at(low: i64, width: u128, count: u64, place: u64) -> Side
    requires there { place < count }
    requires few { count ≤ width }
    requires fits { (low +ℤ pos width) ≤ℤ pos (2 ^ 63) }
    ensures { result ≡ range_at low width count place }
{
    let from = range_start(low, width, count, place);
    let end = range_start(low, width, count, place + 1);
    Side::Span {
        low: from as i64,
        high: (end - 1) as i64,
    }
}

// The first number of a range; of the last one's neighbour the number behind all.
fn range_start(low: i64, width: u128, count: u64, place: u64) -> i128
    requires some { 0 < count }
    requires there { place ≤ count }
    requires fits { (low +ℤ pos width) ≤ℤ pos (2 ^ 63) }
    ensures { result ≡ range_start low width count place }
{
    let steps = place as u128 * width / count as u128;
    low as i128 + steps as i128
}
