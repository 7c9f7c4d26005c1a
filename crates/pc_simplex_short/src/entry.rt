ghost use Rattle.std.specs.Prelude.{◌≡◌, ◌<◌, ◌≤◌, ◌*◌, ◌^◌, nat_abs, ◌+ℤ◌, ◌*ℤ◌, length, All};
ghost use Rattle.pc_program_bound.specs.Bound.{IsFit};
ghost use Rattle.pc_program_bound.specs.Sums.{int_at};
ghost use Rattle.pc_simplex_short.specs.Short.{mix, signed, entry, aim_entry, places_of};
ghost use Rattle.pc_simplex_short.specs.Kept.{IsWithin, IsSetting, IsShortAim};

use crate::setting::ShortSetting;

/// The number of a row at a column.
pub(crate) fn entry(setting: &ShortSetting, turned: &[bool], numbers: &[i64], column: usize) -> i64
    requires setting { IsSetting setting.now }
    requires column { column < setting.now.columns.count }
    requires turned { length turned.now ≡ setting.now.columns.count }
    requires numbers { setting.now.constraints ≤ length numbers.now }
    requires small { All (IsWithin 50) numbers.now }
    ensures value { result ≡ entry setting.now turned.now numbers.now column }
    ensures small { IsWithin 55 result }
{
    signed(turned[column], mix_at(setting, numbers, column))
}

/// The sum of the numbers at the places of a column.
fn mix_at(setting: &ShortSetting, numbers: &[i64], column: usize) -> i64
    requires setting { IsSetting setting.now }
    requires column { column < setting.now.columns.count }
    requires numbers { setting.now.constraints ≤ length numbers.now }
    requires small { All (IsWithin 50) numbers.now }
    ensures value { result ≡ mix (places_of setting.now column) numbers.now }
    ensures small { IsWithin 55 result }
{
    mix(setting.places.at(column), numbers)
}

fn mix(places: &[usize], numbers: &[i64]) -> i64
    requires few { length places.now ≤ 32 }
    requires within { All (λ j. j < length numbers.now) places.now }
    requires small { All (IsWithin 50) numbers.now }
    ensures value { result ≡ mix places.now numbers.now }
    ensures small { IsWithin 55 result }
{
    let mut sum: i64 = 0;
    for place in places {
        sum += numbers[*place];
    }
    sum
}

fn signed(test: bool, number: i64) -> i64
    requires { IsWithin 55 number }
    ensures value { result ≡ signed test number }
    ensures size { nat_abs result ≡ nat_abs number }
{
    if test {
        return -number;
    }
    number
}

/// The number of an objective row at a column.
pub(crate) fn aim_entry(
    setting: &ShortSetting,
    turned: &[bool],
    weight: i128,
    aim: &[i128],
    column: usize,
) -> i128
    requires setting { IsSetting setting.now }
    requires column { column < setting.now.columns.count }
    requires turned { length turned.now ≡ setting.now.columns.count }
    requires aim { IsShortAim setting.now weight aim.now }
    ensures value { result ≡ aim_entry setting.now turned.now weight aim.now column }
    ensures small { IsWithin 70 result }
{
    let gain = weighed(setting, weight, column);
    let sum = plus(gain, wide_mix_at(setting, aim, column));
    wide_signed(turned[column], sum)
}

fn plus(gain: i128, sum: i128) -> i128
    requires gain { IsWithin 69 gain }
    requires sum { IsWithin 69 sum }
    ensures value { result ≡ gain +ℤ sum }
    ensures small { IsWithin 70 result }
{
    gain + sum
}

/// So many times the gain of a column.
fn weighed(setting: &ShortSetting, weight: i128, column: usize) -> i128
    requires setting { IsSetting setting.now }
    requires column { column < setting.now.columns.count }
    requires weight { nat_abs weight * setting.now.top ≤ 2 ^ 69 }
    ensures value { result ≡ weight *ℤ int_at setting.now.gains column }
    ensures small { IsWithin 69 result }
{
    let gains = setting.gains.as_slice();
    product(weight, gains[column], setting.top)
}

fn product(weight: i128, gain: i128, top: u128) -> i128
    requires gain { nat_abs gain ≤ top }
    requires some { 1 ≤ top }
    requires weight { nat_abs weight * top ≤ 2 ^ 69 }
    ensures value { result ≡ weight *ℤ gain }
    ensures small { IsWithin 69 result }
{
    weight * gain
}

/// The sum of the numbers at the places of a column.
fn wide_mix_at(setting: &ShortSetting, numbers: &[i128], column: usize) -> i128
    requires setting { IsSetting setting.now }
    requires column { column < setting.now.columns.count }
    requires numbers { setting.now.constraints ≤ length numbers.now }
    requires small { All (IsWithin 64) numbers.now }
    ensures value { result ≡ mix (places_of setting.now column) numbers.now }
    ensures small { IsWithin 69 result }
{
    wide_mix(setting.places.at(column), numbers)
}

fn wide_mix(places: &[usize], numbers: &[i128]) -> i128
    requires few { length places.now ≤ 32 }
    requires within { All (λ j. j < length numbers.now) places.now }
    requires small { All (IsWithin 64) numbers.now }
    ensures value { result ≡ mix places.now numbers.now }
    ensures small { IsWithin 69 result }
{
    let mut sum: i128 = 0;
    for place in places {
        sum += numbers[*place];
    }
    sum
}

fn wide_signed(test: bool, number: i128) -> i128
    requires { IsFit number }
    ensures value { result ≡ signed test number }
    ensures size { nat_abs result ≡ nat_abs number }
{
    if test {
        return -number;
    }
    number
}
