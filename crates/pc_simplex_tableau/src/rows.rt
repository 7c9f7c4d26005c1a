ghost use Rattle.std.specs.Prelude.{◌≡◌, ◌<◌, map, length, All, IsTrue};
ghost use Rattle.std.specs.List.{list_all};
ghost use Rattle.pc_program_bound.specs.Bound.{IsFit};
ghost use Rattle.pc_simplex_tableau.specs.Tableau.{turned_row, freed_row, does_freed_row_fit, do_freed_rows_fit};
ghost use Rattle.pc_simplex_tableau.specs.Conditions.{IsSizedRow, IsFitRow, AreAsLong, row_in, pivoted_rows, does_turned_row_fit};

use crate::columns::Columns;
use crate::row::WholeRow;

/// Turns a column of that range in all rows. It answers false where a number does not fit, and the rows are then of no more
/// use.
pub(crate) fn turn_all(rows: &mut [WholeRow], columns: &Columns, column: usize, range: u64) -> bool
    requires sized { All (IsSizedRow columns.now) rows.old }
    requires fits { All IsFitRow rows.old }
    requires column { column < columns.now.count }
    ensures value { result ≡ list_all (does_turned_row_fit columns.now column range) rows.old }
    ensures turned { IsTrue result → rows.new ≡ map (turned_row columns.now column range) rows.old }
    ensures sized { IsTrue result → All (IsSizedRow columns.now) rows.new }
    ensures fits { IsTrue result → All IsFitRow rows.new }
{
    for row in rows.iter_mut() {
        if !row.turn(columns, column, range) {
            return false;
        }
    }
    true
}

/// Frees rows of a column by another that has an entry there. It answers false where a number does not fit, and the rows are
/// then of no more use.
pub(crate) fn free_all(rows: &mut [WholeRow], column: usize, other: &[i128]) -> bool
    requires sized { AreAsLong other.now rows.old }
    requires fits { All IsFitRow rows.old }
    requires other_fits { All IsFit other.now }
    requires column { column < length other.now }
    ensures value { result ≡ list_all (does_freed_row_fit column other.now) rows.old }
    ensures freed { IsTrue result → rows.new ≡ map (freed_row column other.now) rows.old }
    ensures fits { IsTrue result → All IsFitRow rows.new }
{
    for row in rows.iter_mut() {
        if !row.free(column, other) {
            return false;
        }
    }
    true
}

/// Frees all rows but one of a column by that one, in which the column becomes basic. It answers false where a number does
/// not fit, and the rows are then of no more use.
pub(crate) fn pivot(rows: &mut [WholeRow], column: usize, at: usize) -> bool
    requires at { at < length rows.old }
    requires sized { AreAsLong (row_in rows.old at).numbers rows.old }
    requires fits { All IsFitRow rows.old }
    requires column { column < length (row_in rows.old at).numbers }
    ensures value { result ≡ do_freed_rows_fit column (row_in rows.old at).numbers at rows.old }
    ensures pivoted { IsTrue result → rows.new ≡ pivoted_rows column at rows.old }
    ensures fits { IsTrue result → All IsFitRow rows.new }
{
    let (before, rest) = rows.split_at_mut(at);
    let (own, after) = rest.split_at_mut(1);
    let own = &mut own[0];
    if !free_all(before, column, own.numbers.as_slice()) {
        return false;
    }
    if !free_all(after, column, own.numbers.as_slice()) {
        return false;
    }
    own.basic = column;
    true
}
