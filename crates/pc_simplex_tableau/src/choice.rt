ghost use Rattle.std.specs.Prelude.{◌≡◌, ◌<◌, ◌&&◌, pos, not, length, All, IsTrue, IfSome, SomeIff, int_lt};
ghost use Rattle.std.specs.List.{list_all};
ghost use Rattle.pc_program_bound.specs.Sums.{int_at};
ghost use Rattle.pc_simplex_tableau.specs.Tableau.{is_basic, entering, deciding, does_limit_fit};
ghost use Rattle.pc_simplex_tableau.specs.Conditions.{IsSized, AreFitNumbers};
ghost use Rattle.pc_simplex_tableau.specs.Limits.{IsSoundLimit};

use crate::columns::Columns;
use crate::limit::{Limit, own_limit, with_row};
use crate::tableau::Tableau;

/// The column that enters, or none where the steps end.
pub(crate) fn entering(tableau: &Tableau, columns: &Columns) -> Option<usize>
    requires { IsSized columns.now tableau.now }
    ensures value { result ≡ entering columns.now tableau.now }
    ensures within { IfSome result (λ column. column < length columns.now.ranges) }
{
    for column in 0..columns.ranges.len() {
        if may_enter(tableau, column) {
            return Some(column);
        }
    }
    None
}

fn may_enter(tableau: &Tableau, column: usize) -> bool
    requires { column < length tableau.now.aim }
    ensures { result ≡ not (is_basic tableau.now column) && int_lt (pos 0) (int_at tableau.now.aim column) }
{
    let aim = tableau.aim.as_slice();
    if aim[column] > 0 {
        return !is_basic(tableau, column);
    }
    false
}

fn is_basic(tableau: &Tableau, column: usize) -> bool
    ensures { result ≡ is_basic tableau.now column }
{
    for row in tableau.rows.iter() {
        if row.basic == column {
            return true;
        }
    }
    false
}

/// The limit that decides, or none where a number of a limit does not fit.
pub(crate) fn deciding(tableau: &Tableau, columns: &Columns, column: usize) -> Option<Limit>
    requires sized { IsSized columns.now tableau.now }
    requires fits { AreFitNumbers tableau.now }
    requires column { column < length columns.now.ranges }
    ensures value { SomeIff result (IsTrue (list_all (does_limit_fit columns.now column) tableau.now.rows)) (deciding columns.now column tableau.now) }
    ensures placed { IfSome result (IsSoundLimit columns.now (length tableau.now.rows)) }
{
    let mut best = own_limit(columns, column);
    for at in 0..tableau.rows.len() {
        match with_row(columns, column, at, &tableau.rows[at], best) {
            Some(limit) => best = limit,
            None => return None,
        }
    }
    Some(best)
}
