ghost use Rattle.std.specs.Prelude.{◌≡◌, ◌<◌, length};
ghost use Rattle.pc_program_bound.specs.Sums.{int_at};
ghost use Rattle.pc_simplex_tableau.specs.Tableau.{row_at};
ghost use Rattle.pc_simplex_short.specs.Short.{spelled};
ghost use Rattle.pc_simplex_short.specs.Kept.{IsSetting, IsShort};

use crate::limit::{entry_of, value_of};
use crate::setting::ShortSetting;
use crate::tableau::ShortTableau;

/// The number of a row at a column, as the whole tableau has it.
pub fn entry_at(tableau: &ShortTableau, setting: &ShortSetting, at: usize, column: usize) -> i64
    requires setting { IsSetting setting.now }
    requires short { IsShort setting.now tableau.now }
    requires at { at < length tableau.now.rows }
    requires column { column < setting.now.columns.count }
    ensures { result ≡ int_at (row_at (spelled setting.now tableau.now) at).numbers column }
{
    let row = &tableau.rows[at];
    entry_of(setting, tableau.turned.as_slice(), row, column)
}

/// The value of a row, which the whole tableau has after the numbers of all columns.
pub fn value_at(tableau: &ShortTableau, setting: &ShortSetting, at: usize) -> i64
    requires short { IsShort setting.now tableau.now }
    requires at { at < length tableau.now.rows }
    ensures { result ≡ int_at (row_at (spelled setting.now tableau.now) at).numbers setting.now.columns.count }
{
    let row = &tableau.rows[at];
    value_of(setting, row)
}
