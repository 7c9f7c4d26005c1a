ghost use Rattle.std.specs.Prelude.{◌≡◌, ◌<◌, ◌+◌, map, length, All, IsTrue};
ghost use Rattle.pc_simplex_short.specs.Short.{turned_short, freed_short, pivoted_short};
ghost use Rattle.pc_simplex_short.specs.Kept.{IsWithin, IsSetting, IsShortRow};
ghost use Rattle.pc_simplex_short.specs.Stays.{AreSmallTurned, AreSmallFreed, AreSmallPivoted};

use crate::row::ShortRow;
use crate::setting::ShortSetting;

/// Turns a column of that range in all rows. It answers false where a number is no longer small, and the rows are then of no
/// more use.
pub(crate) fn turn_all(
    rows: &mut [ShortRow],
    setting: &ShortSetting,
    turned: &[bool],
    column: usize,
    range: u64,
) -> bool
    requires setting { IsSetting setting.now }
    requires short { All (IsShortRow setting.now) rows.old }
    requires turned { length turned.now ≡ setting.now.columns.count }
    requires column { column < setting.now.columns.count }
    ensures turned { IsTrue result → rows.new ≡ map (turned_short setting.now turned.now column range) rows.old }
    ensures short { IsTrue result → All (IsShortRow setting.now) rows.new }
    ensures given { AreSmallTurned setting.now turned.now column range rows.old → IsTrue result }
{
    for row in rows.iter_mut() {
        if !row.turn(setting, turned, column, range) {
            return false;
        }
    }
    true
}

/// Frees rows of a column by another that has an entry there. It answers false where a number is no longer small, and the rows
/// are then of no more use.
pub(crate) fn free_all(
    rows: &mut [ShortRow],
    setting: &ShortSetting,
    turned: &[bool],
    column: usize,
    other: &[i64],
) -> bool
    requires setting { IsSetting setting.now }
    requires short { All (IsShortRow setting.now) rows.old }
    requires other { length other.now ≡ setting.now.constraints + 1 }
    requires small { All (IsWithin 50) other.now }
    requires turned { length turned.now ≡ setting.now.columns.count }
    requires column { column < setting.now.columns.count }
    ensures freed { IsTrue result → rows.new ≡ map (freed_short setting.now turned.now column other.now) rows.old }
    ensures short { IsTrue result → All (IsShortRow setting.now) rows.new }
    ensures given { AreSmallFreed setting.now turned.now column other.now rows.old → IsTrue result }
{
    for row in rows.iter_mut() {
        if !row.free(setting, turned, column, other) {
            return false;
        }
    }
    true
}

/// Frees all rows but one of a column by that one, in which the column becomes basic. It answers false where a number is no
/// longer small, and the rows are then of no more use.
pub(crate) fn pivot(
    rows: &mut [ShortRow],
    setting: &ShortSetting,
    turned: &[bool],
    column: usize,
    at: usize,
) -> bool
    requires setting { IsSetting setting.now }
    requires at { at < length rows.old }
    requires short { All (IsShortRow setting.now) rows.old }
    requires turned { length turned.now ≡ setting.now.columns.count }
    requires column { column < setting.now.columns.count }
    ensures pivoted { IsTrue result → rows.new ≡ pivoted_short setting.now turned.now column at rows.old }
    ensures short { IsTrue result → All (IsShortRow setting.now) rows.new }
    ensures given { AreSmallPivoted setting.now turned.now column at rows.old → IsTrue result }
{
    let (before, rest) = rows.split_at_mut(at);
    let (own, after) = rest.split_at_mut(1);
    let own = &mut own[0];
    if !free_all(before, setting, turned, column, own.numbers.as_slice()) {
        return false;
    }
    if !free_all(after, setting, turned, column, own.numbers.as_slice()) {
        return false;
    }
    own.basic = column;
    true
}
