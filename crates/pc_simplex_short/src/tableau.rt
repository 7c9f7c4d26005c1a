ghost use Rattle.std.specs.Prelude.{◌≡◌, ◌<◌, length, IsTrue};
ghost use Rattle.pc_simplex_tableau.specs.Tableau.{turned, pivoted, freed_aim, does_freed_aim_fit, row_at};
ghost use Rattle.pc_simplex_short.specs.Short.{spelled};
ghost use Rattle.pc_simplex_short.specs.Kept.{IsSetting, IsShort};
ghost use Rattle.pc_simplex_short.specs.Stays.{HasShortTurn, HasShortFreeing, HasShortPivot};

use crate::row::ShortRow;
use crate::setting::ShortSetting;
use crate::{aim, rows};
use std::marker::Model;

/// The rows in short form, which columns are turned, and the objective row: a number for each constraint, and its weight.
#[derive(Drop)]
pub struct ShortTableau {
    pub rows: Vec<ShortRow>,
    pub turned: Vec<bool>,
    pub aim: Vec<i128>,
    pub weight: i128,
}

impl Model for ShortTableau {
    ghost use Rattle.pc_simplex_tableau.specs.Tableau.{Tableau};

    ghost Value = { Tableau };

    ghost view = { λ t. record { rows = t.rows.items; turned = t.turned.items; aim = t.aim.items; weight = t.weight } };
}

impl ShortTableau {
    /// Turns a column of that range. It answers false where a number is no longer small, and the tableau is then of no more
    /// use.
    pub(crate) fn turn(&mut self, setting: &ShortSetting, column: usize, range: u64) -> bool
        requires setting { IsSetting setting.now }
        requires short { IsShort setting.now self.old }
        requires column { column < setting.now.columns.count }
        ensures turned { IsTrue result → spelled setting.now self.new ≡ turned setting.now.columns column range (spelled setting.now self.old) }
        ensures short { IsTrue result → IsShort setting.now self.new }
        ensures given { HasShortTurn setting.now column range self.old → IsTrue result }
    {
        if !rows::turn_all(
            self.rows.as_mut_slice(),
            setting,
            self.turned.as_slice(),
            column,
            range,
        ) {
            return false;
        }
        self.turned[column] = !self.turned[column];
        true
    }

    /// Frees the objective row of a column by a row that has an entry there. It answers false where a number is no longer
    /// small, and the tableau is then of no more use.
    pub fn free_aim(&mut self, setting: &ShortSetting, column: usize, at: usize) -> bool
        requires setting { IsSetting setting.now }
        requires short { IsShort setting.now self.old }
        requires column { column < setting.now.columns.count }
        requires at { at < length self.old.rows }
        ensures fits { IsTrue (does_freed_aim_fit column (row_at (spelled setting.now self.old) at).numbers (spelled setting.now self.old)) }
        ensures freed { IsTrue result → spelled setting.now self.new ≡ freed_aim column (row_at (spelled setting.now self.old) at).numbers (spelled setting.now self.old) }
        ensures short { IsTrue result → IsShort setting.now self.new }
        ensures given { HasShortFreeing setting.now column at self.old → IsTrue result }
    {
        let row = &self.rows[at];
        aim::free(
            self.aim.as_mut_slice(),
            &mut self.weight,
            setting,
            self.turned.as_slice(),
            column,
            row.numbers.as_slice(),
        )
    }

    /// Makes a column basic in a row that has an entry there. It answers false where a number is no longer small, and the
    /// tableau is then of no more use.
    pub(crate) fn pivot(&mut self, setting: &ShortSetting, column: usize, at: usize) -> bool
        requires setting { IsSetting setting.now }
        requires short { IsShort setting.now self.old }
        requires column { column < setting.now.columns.count }
        requires at { at < length self.old.rows }
        ensures pivoted { IsTrue result → spelled setting.now self.new ≡ pivoted column at (spelled setting.now self.old) }
        ensures short { IsTrue result → IsShort setting.now self.new }
        ensures given { HasShortPivot setting.now column at self.old → IsTrue result }
    {
        let row = &self.rows[at];
        if !aim::free(
            self.aim.as_mut_slice(),
            &mut self.weight,
            setting,
            self.turned.as_slice(),
            column,
            row.numbers.as_slice(),
        ) {
            return false;
        }
        rows::pivot(
            self.rows.as_mut_slice(),
            setting,
            self.turned.as_slice(),
            column,
            at,
        )
    }
}
