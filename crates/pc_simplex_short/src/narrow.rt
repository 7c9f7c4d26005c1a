ghost use Rattle.std.specs.Prelude.{◌≡◌, ◌↔◌, ◌<◌, ◌≤◌, ◌*◌, ◌^◌, nat_abs, ◌+ℤ◌, ◌*ℤ◌, length, All, IsTrue};
ghost use Rattle.pc_program_bound.specs.Sums.{int_at};
ghost use Rattle.pc_simplex_short.specs.Short.{mix, signed, aim_entry, places_of};
ghost use Rattle.pc_simplex_short.specs.Kept.{IsWithin, IsSetting, IsNarrow};

use crate::setting::ShortSetting;

/// Whether all that is added up of an objective row fits 64 bits, in which a search for a column is fast.
pub(crate) fn is_narrow(aim: &[i128], weight: i128, top: u128) -> bool
    ensures { IsTrue result ↔ IsNarrow top weight aim.now }
{
    if !is_narrow_weight(weight, top) {
        return false;
    }
    are_narrow(aim)
}

fn are_narrow(aim: &[i128]) -> bool
    ensures { IsTrue result ↔ All (IsWithin 55) aim.now }
{
    for number in aim {
        if number.unsigned_abs() > 1 << 55 {
            return false;
        }
    }
    true
}

fn is_narrow_weight(weight: i128, top: u128) -> bool
    ensures { IsTrue result ↔ (top ≤ 2 ^ 60) × (nat_abs weight * top ≤ 2 ^ 60) }
{
    if top > 1 << 60 {
        return false;
    }
    match weight.unsigned_abs().checked_mul(top) {
        Some(product) => product <= 1 << 60,
        None => false,
    }
}

/// The number of such an objective row at a column.
pub(crate) fn narrow_aim_entry(
    setting: &ShortSetting,
    turned: &[bool],
    weight: i64,
    aim: &[i128],
    column: usize,
) -> i64
    requires setting { IsSetting setting.now }
    requires column { column < setting.now.columns.count }
    requires turned { length turned.now ≡ setting.now.columns.count }
    requires aim { length aim.now ≡ setting.now.constraints }
    requires narrow { IsNarrow setting.now.top weight aim.now }
    ensures value { result ≡ aim_entry setting.now turned.now weight aim.now column }
    ensures small { IsWithin 61 result }
{
    let gain = weighed(setting, weight, column);
    let sum = plus(gain, mix_at(setting, aim, column));
    signed(turned[column], sum)
}

fn plus(gain: i64, sum: i64) -> i64
    requires gain { IsWithin 60 gain }
    requires sum { IsWithin 60 sum }
    ensures value { result ≡ gain +ℤ sum }
    ensures small { IsWithin 61 result }
{
    gain + sum
}

/// So many times the gain of a column.
fn weighed(setting: &ShortSetting, weight: i64, column: usize) -> i64
    requires setting { IsSetting setting.now }
    requires column { column < setting.now.columns.count }
    requires top { setting.now.top ≤ 2 ^ 60 }
    requires weight { nat_abs weight * setting.now.top ≤ 2 ^ 60 }
    ensures value { result ≡ weight *ℤ int_at setting.now.gains column }
    ensures small { IsWithin 60 result }
{
    let gains = setting.gains.as_slice();
    product(weight, gains[column], setting.top)
}

fn product(weight: i64, gain: i128, top: u128) -> i64
    requires gain { nat_abs gain ≤ top }
    requires top { top ≤ 2 ^ 60 }
    requires weight { nat_abs weight * top ≤ 2 ^ 60 }
    ensures value { result ≡ weight *ℤ gain }
    ensures small { IsWithin 60 result }
{
    weight * narrowed(gain)
}

fn narrowed(number: i128) -> i64
    requires { IsWithin 60 number }
    ensures { result ≡ number }
{
    number as i64
}

/// The sum of the numbers at the places of a column.
fn mix_at(setting: &ShortSetting, numbers: &[i128], column: usize) -> i64
    requires setting { IsSetting setting.now }
    requires column { column < setting.now.columns.count }
    requires numbers { setting.now.constraints ≤ length numbers.now }
    requires small { All (IsWithin 55) numbers.now }
    ensures value { result ≡ mix (places_of setting.now column) numbers.now }
    ensures small { IsWithin 60 result }
{
    mix(setting.places.at(column), numbers)
}

fn mix(places: &[usize], numbers: &[i128]) -> i64
    requires few { length places.now ≤ 32 }
    requires within { All (λ j. j < length numbers.now) places.now }
    requires small { All (IsWithin 55) numbers.now }
    ensures value { result ≡ mix places.now numbers.now }
    ensures small { IsWithin 60 result }
{
    let mut sum: i64 = 0;
    for place in places {
        sum += narrowed(numbers[*place]);
    }
    sum
}

fn signed(test: bool, number: i64) -> i64
    requires { IsWithin 61 number }
    ensures value { result ≡ signed test number }
    ensures size { nat_abs result ≡ nat_abs number }
{
    if test {
        return -number;
    }
    number
}
