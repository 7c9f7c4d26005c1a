ghost use Rattle.std.specs.Prelude.{◌≡◌, ◌<◌, ◌*ℤ◌, ◌-ℤ◌, neg_ℤ, pos, cond, map, slice_set, length, All, IsTrue};
ghost use Rattle.pc_program_bound.specs.Sums.{int_at};
ghost use Rattle.pc_program_bound.specs.Bound.{IsFit};
ghost use Rattle.pc_simplex_short.specs.Short.{entry, turned_short, freed_short};
ghost use Rattle.pc_simplex_short.specs.Kept.{IsWithin, IsSetting, IsShortRow};
ghost use Rattle.pc_simplex_short.specs.Stays.{IsSmallTurned, IsSmallFreed};

use crate::entry::entry;
use crate::reduce::reduce;
use crate::setting::ShortSetting;
use crate::small::is_small;
use std::marker::Model;

/// A number for each constraint and then the row's value, and the column that is basic in it.
#[derive(Drop)]
pub struct ShortRow {
    pub numbers: Vec<i64>,
    pub basic: usize,
}

impl Model for ShortRow {
    ghost use Rattle.pc_simplex_tableau.specs.Tableau.{TableauRow};

    ghost Value = { TableauRow };

    ghost view = { λ row. record { numbers = row.numbers.items; basic = row.basic } };
}

impl ShortRow {
    /// Turns a column of that range, where these are turned before. It answers false where a number is no longer small, and
    /// the row is then of no more use.
    pub(crate) fn turn(
        &mut self,
        setting: &ShortSetting,
        turned: &[bool],
        column: usize,
        range: u64,
    ) -> bool
        requires setting { IsSetting setting.now }
        requires short { IsShortRow setting.now self.old }
        requires turned { length turned.now ≡ setting.now.columns.count }
        requires column { column < setting.now.columns.count }
        ensures turned { IsTrue result → self.new ≡ turned_short setting.now turned.now column range self.old }
        ensures short { IsTrue result → IsShortRow setting.now self.new }
        ensures given { IsSmallTurned setting.now turned.now column range self.old → IsTrue result }
    {
        let entry = entry(setting, turned, self.numbers.as_slice(), column);
        turn_numbers(
            self.numbers.as_mut_slice(),
            setting.constraints,
            entry,
            range,
            self.basic == column,
        )
    }

    /// Frees the row of a column by a row that has an entry there. It answers false where a number is no longer small, and the
    /// row is then of no more use.
    pub(crate) fn free(
        &mut self,
        setting: &ShortSetting,
        turned: &[bool],
        column: usize,
        other: &[i64],
    ) -> bool
        requires setting { IsSetting setting.now }
        requires short { IsShortRow setting.now self.old }
        requires other { length other.now ≡ length self.old.numbers }
        requires small { All (IsWithin 50) other.now }
        requires turned { length turned.now ≡ setting.now.columns.count }
        requires column { column < setting.now.columns.count }
        ensures freed { IsTrue result → self.new ≡ freed_short setting.now turned.now column other.now self.old }
        ensures short { IsTrue result → IsShortRow setting.now self.new }
        ensures given { IsSmallFreed setting.now turned.now column other.now self.old → IsTrue result }
    {
        let own = entry(setting, turned, self.numbers.as_slice(), column);
        if own == 0 {
            return true;
        }
        let scale = entry(setting, turned, other, column);
        reduce(self.numbers.as_mut_slice(), scale, own, other)
    }
}

fn turn_numbers(numbers: &mut [i64], at: usize, entry: i64, range: u64, is_basic: bool) -> bool
    requires at { at < length numbers.old }
    requires entry { IsWithin 55 entry }
    requires small { All (IsWithin 50) numbers.old }
    ensures turned { IsTrue result → numbers.new ≡ cond is_basic (map neg_ℤ (slice_set numbers.old at (int_at numbers.old at -ℤ entry *ℤ pos range))) (slice_set numbers.old at (int_at numbers.old at -ℤ entry *ℤ pos range)) }
    ensures small { IsTrue result → All (IsWithin 50) numbers.new }
    ensures given { IsWithin 50 (int_at numbers.old at -ℤ entry *ℤ pos range) → IsTrue result }
{
    if !lower(numbers, at, entry, range) {
        return false;
    }
    negate_if(numbers, is_basic);
    true
}

/// Takes so many times the entry from the value, and answers whether that is still small.
fn lower(numbers: &mut [i64], at: usize, entry: i64, range: u64) -> bool
    requires at { at < length numbers.old }
    requires entry { IsWithin 55 entry }
    requires small { All (IsWithin 50) numbers.old }
    ensures lowered { IsTrue result → numbers.new ≡ slice_set numbers.old at (int_at numbers.old at -ℤ entry *ℤ pos range) }
    ensures small { IsTrue result → All (IsWithin 50) numbers.new }
    ensures given { IsWithin 50 (int_at numbers.old at -ℤ entry *ℤ pos range) → IsTrue result }
{
    let value = lowered(numbers[at], entry, range);
    if !is_small(value) {
        return false;
    }
    numbers[at] = value as i64;
    true
}

fn lowered(value: i64, entry: i64, range: u64) -> i128
    requires entry { IsWithin 55 entry }
    requires value { IsWithin 50 value }
    ensures value { result ≡ value -ℤ entry *ℤ pos range }
    ensures fits { IsFit result }
{
    i128::from(value) - i128::from(entry) * i128::from(range)
}

fn negate_if(numbers: &mut [i64], test: bool)
    requires { All (IsWithin 50) numbers.old }
    ensures negated { numbers.new ≡ cond test (map neg_ℤ numbers.old) numbers.old }
    ensures small { All (IsWithin 50) numbers.new }
{
    if test {
        negate(numbers);
    }
}

/// Minus each number.
fn negate(numbers: &mut [i64])
    requires { All (IsWithin 50) numbers.old }
    ensures { numbers.new ≡ map neg_ℤ numbers.old }
{
    for number in numbers.iter_mut() {
        *number = negative(*number);
    }
}

fn negative(number: i64) -> i64
    requires { IsWithin 50 number }
    ensures value { result ≡ neg_ℤ number }
    ensures small { IsWithin 50 result }
{
    -number
}
