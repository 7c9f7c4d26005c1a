//! Whether a tableau is as its steps ask for.
ghost use Rattle.std.specs.Prelude.{All, IsTrue};
ghost use Rattle.pc_simplex_tableau.specs.Conditions.{IsSizedRow, IsSized, IsFitRow, AreFitNumbers};

use pc_num::are_fit;
use pc_simplex_tableau::{Columns, Tableau, WholeRow};

fn are_sized(columns: &Columns, rows: &[WholeRow]) -> bool
    ensures { IsTrue result → All (IsSizedRow columns.now) rows.now }
{
    for row in rows {
        if !is_sized_row(columns, row) {
            return false;
        }
    }
    true
}

fn is_sized_row(columns: &Columns, row: &WholeRow) -> bool
    ensures { IsTrue result → IsSizedRow columns.now row.now }
{
    if row.basic >= columns.count {
        return false;
    }
    !row.numbers.is_empty() && row.numbers.len() - 1 == columns.count
}

fn are_fit_rows(rows: &[WholeRow]) -> bool
    ensures { IsTrue result → All IsFitRow rows.now }
{
    for row in rows {
        if !is_fit_row(row) {
            return false;
        }
    }
    true
}

fn is_fit_row(row: &WholeRow) -> bool
    ensures { IsTrue result → IsFitRow row.now }
{
    are_fit(row.numbers.as_slice())
}

pub(crate) fn is_sized(columns: &Columns, tableau: &Tableau) -> bool
    ensures { IsTrue result → IsSized columns.now tableau.now }
{
    let count = columns.count;
    if columns.ranges.len() > count || tableau.turned.len() != count {
        return false;
    }
    if tableau.aim.len() != count {
        return false;
    }
    are_sized(columns, tableau.rows.as_slice())
}

pub(crate) fn do_fit(tableau: &Tableau) -> bool
    ensures { IsTrue result → AreFitNumbers tableau.now }
{
    if tableau.weight == i128::MIN || !are_fit(tableau.aim.as_slice()) {
        return false;
    }
    are_fit_rows(tableau.rows.as_slice())
}

/// Frees the objective row of the column that is basic in a row.
pub(crate) fn free(tableau: &mut Tableau, at: usize) -> bool {
    if at >= tableau.rows.len() || !do_fit(tableau) {
        return false;
    }
    let row = &tableau.rows[at];
    let basic = row.basic;
    if basic >= tableau.aim.len() || tableau.aim.len() >= row.numbers.len() {
        return false;
    }
    tableau.free_aim(basic, at)
}

pub(crate) fn freed(tableau: Tableau) -> Option<Tableau> {
    let mut tableau = tableau;
    for at in 0..tableau.rows.len() {
        if !free(&mut tableau, at) {
            return None;
        }
    }
    Some(tableau)
}
