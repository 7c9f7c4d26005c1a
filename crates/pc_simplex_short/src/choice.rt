ghost use Rattle.std.specs.Prelude.{◌≡◌, ◌↔◌, ◌<◌, ◌≤◌, ◌*◌, ◌^◌, nat_abs, pos, int_lt, length, IsTrue, IfSome};
ghost use Rattle.pc_program_bound.specs.Sums.{int_at};
ghost use Rattle.pc_simplex_tableau.specs.Tableau.{is_basic, entering, deciding};
ghost use Rattle.pc_simplex_tableau.specs.Limits.{IsSoundLimit};
ghost use Rattle.pc_simplex_tableau.proofs.Deciding.{may_enter};
ghost use Rattle.pc_simplex_short.specs.Short.{spelled};
ghost use Rattle.pc_simplex_short.specs.Kept.{IsSetting, IsShort, IsNarrow};

use crate::entry::aim_entry;
use crate::limit::with_row;
use crate::narrow;
use crate::narrow::narrow_aim_entry;
use crate::setting::ShortSetting;
use crate::tableau::ShortTableau;
use pc_simplex_tableau::{Limit, own_limit};

/// The column that enters, or none where the steps end.
pub(crate) fn entering(tableau: &ShortTableau, setting: &ShortSetting) -> Option<usize>
    requires setting { IsSetting setting.now }
    requires short { IsShort setting.now tableau.now }
    ensures value { result ≡ entering setting.now.columns (spelled setting.now tableau.now) }
    ensures within { IfSome result (λ column. column < length setting.now.columns.ranges) }
{
    let narrow = is_narrow(tableau, setting);
    for column in 0..entering_columns(setting) {
        if may_enter(tableau, setting, narrow, column) {
            return Some(column);
        }
    }
    None
}

/// How many columns may enter.
fn entering_columns(setting: &ShortSetting) -> usize
    ensures { result ≡ length setting.now.columns.ranges }
{
    setting.columns.ranges.len()
}

fn is_narrow(tableau: &ShortTableau, setting: &ShortSetting) -> bool
    ensures { IsTrue result ↔ IsNarrow setting.now.top tableau.now.weight tableau.now.aim }
{
    narrow::is_narrow(tableau.aim.as_slice(), tableau.weight, setting.top)
}

fn may_enter(tableau: &ShortTableau, setting: &ShortSetting, narrow: bool, column: usize) -> bool
    requires setting { IsSetting setting.now }
    requires short { IsShort setting.now tableau.now }
    requires column { column < setting.now.columns.count }
    requires narrow { IsTrue narrow → IsNarrow setting.now.top tableau.now.weight tableau.now.aim }
    ensures { result ≡ may_enter (spelled setting.now tableau.now) column }
{
    if is_gaining(tableau, setting, narrow, column) {
        return !is_basic(tableau, column);
    }
    false
}

/// Whether the objective row is above 0 at a column.
fn is_gaining(tableau: &ShortTableau, setting: &ShortSetting, narrow: bool, column: usize) -> bool
    requires setting { IsSetting setting.now }
    requires short { IsShort setting.now tableau.now }
    requires column { column < setting.now.columns.count }
    requires narrow { IsTrue narrow → IsNarrow setting.now.top tableau.now.weight tableau.now.aim }
    ensures { result ≡ int_lt (pos 0) (int_at (spelled setting.now tableau.now).aim column) }
{
    if narrow {
        return narrow_aim_at(tableau, setting, column) > 0;
    }
    aim_at(tableau, setting, column) > 0
}

fn narrow_aim_at(tableau: &ShortTableau, setting: &ShortSetting, column: usize) -> i64
    requires setting { IsSetting setting.now }
    requires short { IsShort setting.now tableau.now }
    requires column { column < setting.now.columns.count }
    requires narrow { IsNarrow setting.now.top tableau.now.weight tableau.now.aim }
    ensures { result ≡ int_at (spelled setting.now tableau.now).aim column }
{
    narrow_aim_entry(
        setting,
        tableau.turned.as_slice(),
        narrow_weight(tableau.weight, setting.top),
        tableau.aim.as_slice(),
        column,
    )
}

fn narrow_weight(weight: i128, top: u128) -> i64
    requires some { 1 ≤ top }
    requires light { nat_abs weight * top ≤ 2 ^ 60 }
    ensures { result ≡ weight }
{
    weight as i64
}

/// The number of the objective row at a column, as the whole tableau has it.
pub fn aim_at(tableau: &ShortTableau, setting: &ShortSetting, column: usize) -> i128
    requires setting { IsSetting setting.now }
    requires short { IsShort setting.now tableau.now }
    requires column { column < setting.now.columns.count }
    ensures { result ≡ int_at (spelled setting.now tableau.now).aim column }
{
    aim_entry(
        setting,
        tableau.turned.as_slice(),
        tableau.weight,
        tableau.aim.as_slice(),
        column,
    )
}

fn is_basic(tableau: &ShortTableau, column: usize) -> bool
    ensures { result ≡ is_basic tableau.now column }
{
    for row in tableau.rows.iter() {
        if row.basic == column {
            return true;
        }
    }
    false
}

/// The limit that decides.
pub(crate) fn deciding(tableau: &ShortTableau, setting: &ShortSetting, column: usize) -> Limit
    requires setting { IsSetting setting.now }
    requires short { IsShort setting.now tableau.now }
    requires column { column < length setting.now.columns.ranges }
    ensures value { result ≡ deciding setting.now.columns column (spelled setting.now tableau.now) }
    ensures placed { IsSoundLimit setting.now.columns (length tableau.now.rows) result }
{
    let mut best = own_limit(&setting.columns, column);
    for at in 0..tableau.rows.len() {
        best = with_row(
            setting,
            tableau.turned.as_slice(),
            column,
            at,
            &tableau.rows[at],
            best,
        );
    }
    best
}
