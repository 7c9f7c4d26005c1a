ghost use Rattle.std.specs.Prelude.{◌≡◌, ◌<◌, length, IsTrue};
ghost use Rattle.pc_simplex_tableau.specs.Tableau.{after_step, does_way_fit, turning_and_pivoting};
ghost use Rattle.pc_simplex_tableau.specs.Conditions.{IsSized, AreFitNumbers};
ghost use Rattle.pc_simplex_tableau.specs.Limits.{IsWayBelow};
ghost use Rattle.pc_simplex_tableau.specs.Ways.{way_of};

use crate::columns::Columns;
use crate::limit::Way;
use crate::tableau::Tableau;

/// Changes the tableau in the way of a step. It answers false where a number does not fit, and the tableau is then of no more
/// use.
#[tactic(auto, using(crate::proofs::Sizes::as_long, crate::proofs::Sizes::own_longer, crate::proofs::Sizes::pivoted_sized), unfolding(crate::specs::Tableau::after_step, crate::specs::Tableau::does_way_fit))]
pub(crate) fn change(
    tableau: &mut Tableau,
    columns: &Columns,
    enters: usize,
    leaves: usize,
    way: Way,
) -> bool
    requires sized { IsSized columns.now tableau.old }
    requires fits { AreFitNumbers tableau.old }
    requires enters { enters < columns.now.count }
    requires leaves { leaves < columns.now.count }
    requires way { IsWayBelow (length tableau.old.rows) (way_of way) }
    ensures value { result ≡ does_way_fit columns.now enters leaves (way_of way) tableau.old }
    ensures changed { IsTrue result → tableau.new ≡ after_step columns.now enters leaves (way_of way) tableau.old }
    ensures sized { IsTrue result → IsSized columns.now tableau.new }
    ensures fits { IsTrue result → AreFitNumbers tableau.new }
{
    match way {
        Way::Turning => tableau.turn(columns, enters, columns.end(enters)),
        Way::Pivoting(at) => tableau.pivot(enters, at),
        Way::TurningAndPivoting(at) => turn_and_pivot(tableau, columns, enters, leaves, at),
    }
}

#[tactic(auto, using(crate::proofs::Sizes::as_long, crate::proofs::Sizes::own_longer, crate::proofs::Sizes::pivoted_sized), unfolding(crate::specs::Tableau::after_step, crate::specs::Tableau::does_way_fit))]
fn turn_and_pivot(
    tableau: &mut Tableau,
    columns: &Columns,
    enters: usize,
    leaves: usize,
    at: usize,
) -> bool
    requires sized { IsSized columns.now tableau.old }
    requires fits { AreFitNumbers tableau.old }
    requires enters { enters < columns.now.count }
    requires leaves { leaves < columns.now.count }
    requires at { at < length tableau.old.rows }
    ensures value { result ≡ does_way_fit columns.now enters leaves (turning_and_pivoting at) tableau.old }
    ensures changed { IsTrue result → tableau.new ≡ after_step columns.now enters leaves (turning_and_pivoting at) tableau.old }
    ensures sized { IsTrue result → IsSized columns.now tableau.new }
    ensures fits { IsTrue result → AreFitNumbers tableau.new }
{
    let range = columns.end(leaves);
    if !tableau.turn(columns, leaves, range) {
        return false;
    }
    tableau.pivot(enters, at)
}
