ghost use Rattle.std.specs.Prelude.{◌≡◌, ℕ, ◌<◌, ◌<ℤ◌, ◌-ℤ◌, ◌*ℤ◌, pos, neg_ℤ, length};
ghost use Rattle.pc_program_bound.specs.Bound.{IsFit};
ghost use Rattle.pc_program_bound.specs.Sums.{int_at};
ghost use Rattle.pc_simplex_tableau.specs.Tableau.{with_row, lesser, range_of, pivoting, turning_and_pivoting};
ghost use Rattle.pc_simplex_tableau.specs.Limits.{IsSoundFraction, with_upper_limit};
ghost use Rattle.pc_simplex_short.specs.Short.{spelled_numbers, spelled_row};
ghost use Rattle.pc_simplex_short.specs.Kept.{IsWithin, IsSetting, IsShortRow};

use crate::entry::entry;
use crate::lesser::lesser_limit;
use crate::row::ShortRow;
use crate::setting::ShortSetting;
use pc_simplex_tableau::{Limit, Way};

/// A limit, or that of the row where it has one that is less.
pub(crate) fn with_row(
    setting: &ShortSetting,
    turned: &[bool],
    column: usize,
    at: usize,
    row: &ShortRow,
    best: Limit,
) -> Limit
    requires setting { IsSetting setting.now }
    requires row { IsShortRow setting.now row.now }
    requires turned { length turned.now ≡ setting.now.columns.count }
    requires column { column < setting.now.columns.count }
    requires best { IsSoundFraction best }
    ensures value { result ≡ with_row setting.now.columns column at (spelled_row setting.now turned.now row.now) best }
    ensures sound { IsSoundFraction result }
{
    let own = entry_of(setting, turned, row, column);
    if own > 0 {
        return with_lower(row.basic, value_of(setting, row), own, at, best);
    }
    if own < 0 {
        return with_upper_limit(setting, turned, own, at, row, best);
    }
    best
}

fn with_lower(column: usize, value: i64, own: i64, at: usize, best: Limit) -> Limit
    requires value { IsWithin 50 value }
    requires own { IsWithin 55 own }
    requires positive { pos 0 <ℤ own }
    requires best { IsSoundFraction best }
    ensures value { result ≡ lesser best (record { column = column; over = value; under = own; way = pivoting at }) }
    ensures sound { IsSoundFraction result }
{
    let lower = Limit {
        column,
        over: i128::from(value),
        under: i128::from(own),
        way: Way::Pivoting(at),
    };
    lesser_limit(best, lower)
}

fn with_upper_limit(
    setting: &ShortSetting,
    turned: &[bool],
    own: i64,
    at: usize,
    row: &ShortRow,
    best: Limit,
) -> Limit
    requires setting { IsSetting setting.now }
    requires row { IsShortRow setting.now row.now }
    requires turned { length turned.now ≡ setting.now.columns.count }
    requires own { IsWithin 55 own }
    requires negative { own <ℤ pos 0 }
    requires best { IsSoundFraction best }
    ensures value { (c : ℕ) → c < setting.now.columns.count → own ≡ int_at (spelled_numbers setting.now turned.now row.now.numbers) c → result ≡ with_upper_limit setting.now.columns c at (spelled_row setting.now turned.now row.now) best }
    ensures sound { IsSoundFraction result }
{
    match basic_range(setting, row) {
        Some(range) => {
            let basic = entry_of(setting, turned, row, row.basic);
            let over = room_above(basic, range, value_of(setting, row));
            with_upper(row.basic, over, own, at, best)
        }
        None => best,
    }
}

/// The range of a row's basic column.
fn basic_range(setting: &ShortSetting, row: &ShortRow) -> Option<u64>
    ensures { result ≡ range_of setting.now.columns row.now.basic }
{
    setting.columns.range(row.basic)
}

fn with_upper(column: usize, over: i128, own: i64, at: usize, best: Limit) -> Limit
    requires over { IsFit over }
    requires own { IsWithin 55 own }
    requires negative { own <ℤ pos 0 }
    requires best { IsSoundFraction best }
    ensures value { result ≡ lesser best (record { column = column; over = over; under = neg_ℤ own; way = turning_and_pivoting at }) }
    ensures sound { IsSoundFraction result }
{
    let upper = Limit {
        column,
        over,
        under: -i128::from(own),
        way: Way::TurningAndPivoting(at),
    };
    lesser_limit(best, upper)
}

/// The number of a row at a column.
pub(crate) fn entry_of(
    setting: &ShortSetting,
    turned: &[bool],
    row: &ShortRow,
    column: usize,
) -> i64
    requires setting { IsSetting setting.now }
    requires row { IsShortRow setting.now row.now }
    requires turned { length turned.now ≡ setting.now.columns.count }
    requires column { column < setting.now.columns.count }
    ensures value { result ≡ int_at (spelled_numbers setting.now turned.now row.now.numbers) column }
    ensures small { IsWithin 55 result }
{
    entry(setting, turned, row.numbers.as_slice(), column)
}

pub(crate) fn value_of(setting: &ShortSetting, row: &ShortRow) -> i64
    requires row { IsShortRow setting.now row.now }
    ensures value { result ≡ int_at row.now.numbers setting.now.constraints }
    ensures small { IsWithin 50 result }
{
    row.numbers[setting.constraints]
}

// How far a value is below the end of a range, both times the entry.
fn room_above(entry: i64, range: u64, value: i64) -> i128
    requires entry { IsWithin 55 entry }
    requires value { IsWithin 50 value }
    ensures value { result ≡ entry *ℤ pos range -ℤ value }
    ensures fits { IsFit result }
{
    i128::from(entry) * i128::from(range) - i128::from(value)
}
