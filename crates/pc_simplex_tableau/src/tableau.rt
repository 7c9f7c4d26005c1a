ghost use Rattle.std.specs.Prelude.{◌≡◌, ◌<◌, length, IsTrue};
ghost use Rattle.pc_simplex_tableau.specs.Tableau.{turned, does_turned_fit, pivoted, does_pivoted_fit, freed_aim, does_freed_aim_fit, row_at};
ghost use Rattle.pc_simplex_tableau.specs.Conditions.{IsSized, AreFitNumbers, AreAsLong};

use crate::columns::Columns;
use crate::row::{WholeRow, negative};
use crate::{aim, rows};
use std::marker::Model;

/// The rows, which columns are turned, and the objective row: an entry per column, and its weight.
#[derive(Drop)]
pub struct Tableau {
    pub rows: Vec<WholeRow>,
    pub turned: Vec<bool>,
    pub aim: Vec<i128>,
    pub weight: i128,
}

impl Model for Tableau {
    ghost use Rattle.pc_simplex_tableau.specs.Tableau.{Tableau};

    ghost Value = { Tableau };

    ghost view = { λ t. record { rows = t.rows.items; turned = t.turned.items; aim = t.aim.items; weight = t.weight } };
}

impl Tableau {
    /// Turns a column of that range. It answers false where a number does not fit, and the tableau is then of no more use.
    pub(crate) fn turn(&mut self, columns: &Columns, column: usize, range: u64) -> bool
        requires sized { IsSized columns.now self.old }
        requires fits { AreFitNumbers self.old }
        requires column { column < columns.now.count }
        ensures value { result ≡ does_turned_fit columns.now column range self.old }
        ensures turned { IsTrue result → self.new ≡ turned columns.now column range self.old }
        ensures sized { IsTrue result → IsSized columns.now self.new }
        ensures fits { IsTrue result → AreFitNumbers self.new }
    {
        if !rows::turn_all(self.rows.as_mut_slice(), columns, column, range) {
            return false;
        }
        self.turned[column] = !self.turned[column];
        self.aim[column] = negative(self.aim[column]);
        true
    }

    /// Frees the objective row of a column by a row that has an entry there. It answers false where a number does not fit, and
    /// the tableau is then of no more use.
    pub fn free_aim(&mut self, column: usize, at: usize) -> bool
        requires at { at < length self.old.rows }
        requires sized { length self.old.aim < length (row_at self.old at).numbers }
        requires column { column < length self.old.aim }
        requires fits { AreFitNumbers self.old }
        ensures value { result ≡ does_freed_aim_fit column (row_at self.old at).numbers self.old }
        ensures freed { IsTrue result → self.new ≡ freed_aim column (row_at self.old at).numbers self.old }
        ensures fits { IsTrue result → AreFitNumbers self.new }
    {
        let row = &self.rows[at];
        aim::free(
            self.aim.as_mut_slice(),
            &mut self.weight,
            column,
            row.numbers.as_slice(),
        )
    }

    /// Makes a column basic in a row that has an entry there. It answers false where a number does not fit, and the tableau is
    /// then of no more use.
    pub(crate) fn pivot(&mut self, column: usize, at: usize) -> bool
        requires at { at < length self.old.rows }
        requires sized { length self.old.aim < length (row_at self.old at).numbers }
        requires rows { AreAsLong (row_at self.old at).numbers self.old.rows }
        requires column { column < length self.old.aim }
        requires fits { AreFitNumbers self.old }
        ensures value { result ≡ does_pivoted_fit column at self.old }
        ensures pivoted { IsTrue result → self.new ≡ pivoted column at self.old }
        ensures fits { IsTrue result → AreFitNumbers self.new }
    {
        let row = &self.rows[at];
        if !aim::free(
            self.aim.as_mut_slice(),
            &mut self.weight,
            column,
            row.numbers.as_slice(),
        ) {
            return false;
        }
        rows::pivot(self.rows.as_mut_slice(), column, at)
    }
}
