ghost use Rattle.std.specs.Prelude.{◌≡◌, ◌≤◌, ◌*◌, ◌^◌, pos, unsigned_abs};
ghost use Rattle.pc_model.specs.Accepted.{frequency_limit};
ghost use Rattle.pc_desk_history.specs.Draft.{AreFew};
ghost use Rattle.pc_desk_history.specs.Widening.{lowered, part_of, percent_limit, raised, widened_extent, widened_numbers};

use crate::extent::Extent;
use crate::numbers::Numbers;

/// A constraint allows at most so many rows.
const MOST_ROWS: u64 = 10_000_000;

/// Numbers of rows, widened by so many per cent of each.
pub(crate) fn widened_numbers(percent: u64, numbers: Numbers) -> Numbers
    requires percent { percent ≤ percent_limit }
    requires few { AreFew numbers }
    ensures { result ≡ widened_numbers percent numbers }
{
    let less = part_of(percent, numbers.least);
    let more = part_of(percent, numbers.most);
    Numbers {
        least: numbers.least.saturating_sub(less),
        most: (numbers.most + more).min(MOST_ROWS),
    }
}

// So many per cent of a number of rows, rounded up.
fn part_of(percent: u64, count: u64) -> u64
    requires percent { percent ≤ percent_limit }
    requires few { count ≤ frequency_limit }
    ensures part { result ≡ part_of percent count }
    ensures few { result ≤ 100000000 }
{
    (count * percent).div_ceil(100)
}

/// An extent, widened by so many per cent of each of its ends, and no further than a domain goes.
pub(crate) fn widened_extent(percent: u64, least: i64, greatest: i64, extent: Extent) -> Extent
    requires percent { percent ≤ percent_limit }
    ensures { result ≡ widened_extent percent least greatest extent }
{
    Extent {
        low: lowered(percent, least, extent.low),
        high: raised(percent, greatest, extent.high),
    }
}

fn lowered(percent: u64, least: i64, number: i64) -> i64
    requires percent { percent ≤ percent_limit }
    ensures { result ≡ lowered percent least number }
{
    let less = i128::from(number) - part_of_size(percent, number);
    if less <= i128::from(least) {
        return least;
    }
    less as i64
}

fn raised(percent: u64, greatest: i64, number: i64) -> i64
    requires percent { percent ≤ percent_limit }
    ensures { result ≡ raised percent greatest number }
{
    let more = i128::from(number) + part_of_size(percent, number);
    if i128::from(greatest) <= more {
        return greatest;
    }
    more as i64
}

// So many per cent of the size of a number, rounded up.
fn part_of_size(percent: u64, number: i64) -> i128
    requires percent { percent ≤ percent_limit }
    ensures part { result ≡ pos (part_of percent (unsigned_abs number)) }
    ensures few { part_of percent (unsigned_abs number) ≤ 10 * 2 ^ 63 }
{
    let size = u128::from(number.unsigned_abs());
    (size * u128::from(percent)).div_ceil(100) as i128
}
