ghost use Rattle.std.specs.Prelude.{◌≡◌, ◌<◌, ◌≤◌, ◌+◌, ◌*ℤ◌, ◌-ℤ◌, length, All, IsTrue};
ghost use Rattle.pc_program_bound.specs.Bound.{IsFit};
ghost use Rattle.pc_simplex_tableau.specs.Numbers.{combined};
ghost use Rattle.pc_simplex_tableau.specs.Conditions.{freed_entries, freed_weight};
ghost use Rattle.pc_simplex_short.specs.Short.{spelled_aim, aim_from};
ghost use Rattle.pc_simplex_short.specs.Kept.{IsWithin, IsSetting, IsShortAim};
ghost use Rattle.pc_simplex_short.specs.Stays.{HasShortAim};

use crate::entry::{aim_entry, entry};
use crate::setting::ShortSetting;
use crate::small::is_small_aim;
use crate::together::divide_together;
use crate::word::times;

/// Frees the objective row of a column by a row that has an entry there. It answers false where a number is no longer small,
/// and the objective row and its weight are then of no more use.
pub(crate) fn free(
    aim: &mut [i128],
    weight: &mut i128,
    setting: &ShortSetting,
    turned: &[bool],
    column: usize,
    other: &[i64],
) -> bool
    requires setting { IsSetting setting.now }
    requires short { IsShortAim setting.now weight.old aim.old }
    requires turned { length turned.now ≡ setting.now.columns.count }
    requires column { column < setting.now.columns.count }
    requires other { length other.now ≡ setting.now.constraints + 1 }
    requires small { All (IsWithin 50) other.now }
    ensures aim { IsTrue result → spelled_aim setting.now turned.now weight.new aim.new ≡ (aim_from setting.now column turned.now other.now weight.old aim.old).aim }
    ensures weight { IsTrue result → weight.new ≡ (aim_from setting.now column turned.now other.now weight.old aim.old).weight }
    ensures short { IsTrue result → IsShortAim setting.now weight.new aim.new }
    ensures given { HasShortAim setting.now turned.now (aim_from setting.now column turned.now other.now weight.old aim.old) → IsTrue result }
{
    let own = aim_entry(setting, turned, *weight, aim, column);
    if own == 0 {
        return true;
    }
    let scale = entry(setting, turned, other, column);
    free_entries(aim, weight, own, scale, other);
    is_small_aim(aim, *weight, setting.top)
}

/// Combines the entries with another row, which has numbers after them, and divides them and the weight, which takes part by
/// the other's entry alone, by what they have in common.
fn free_entries(entries: &mut [i128], weight: &mut i128, entry: i128, scale: i64, other: &[i64])
    requires entries { All (IsWithin 64) entries.old }
    requires weight { IsWithin 69 weight.old }
    requires entry { IsWithin 70 entry }
    requires scale { IsWithin 55 scale }
    requires other { All (IsWithin 50) other.now }
    requires sized { length entries.old ≤ length other.now }
    ensures entries { entries.new ≡ freed_entries scale entries.old entry other.now weight.old }
    ensures weight { weight.new ≡ freed_weight scale entries.old entry other.now weight.old }
    ensures weight_fits { IsFit weight.new }
{
    let count = entries.len();
    combine(entries, scale, entry, &other[..count]);
    let product = weighed(scale, *weight);
    *weight = divide_together(product, entries);
}

fn weighed(scale: i64, weight: i128) -> i128
    requires scale { IsWithin 55 scale }
    requires weight { IsWithin 69 weight }
    ensures value { result ≡ scale *ℤ weight }
    ensures fits { IsFit result }
{
    i128::from(scale) * weight
}

/// `p` times the row minus `t` times the other. Small numbers leave nothing that does not fit.
fn combine(row: &mut [i128], p: i64, t: i128, other: &[i64])
    requires row { All (IsWithin 64) row.old }
    requires other { All (IsWithin 50) other.now }
    requires p { IsWithin 55 p }
    requires t { IsWithin 70 t }
    requires sized { length row.old ≡ length other.now }
    ensures combined { row.new ≡ combined p row.old t other.now }
    ensures fits { All IsFit row.new }
{
    for place in 0..row.len() {
        row[place] = mixed(p, row[place], t, other[place]);
    }
}

fn mixed(p: i64, a: i128, t: i128, b: i64) -> i128
    requires p { IsWithin 55 p }
    requires a { IsWithin 64 a }
    requires t { IsWithin 70 t }
    requires b { IsWithin 50 b }
    ensures { result ≡ p *ℤ a -ℤ t *ℤ b }
{
    times(a, p) - times(t, b)
}
