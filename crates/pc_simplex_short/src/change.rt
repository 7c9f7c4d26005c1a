ghost use Rattle.std.specs.Prelude.{◌≡◌, ◌<◌, length, IsTrue};
ghost use Rattle.pc_simplex_tableau.specs.Tableau.{after_step, does_way_fit, turning_and_pivoting};
ghost use Rattle.pc_simplex_tableau.specs.Limits.{IsWayBelow};
ghost use Rattle.pc_simplex_tableau.specs.Ways.{way_of};
ghost use Rattle.pc_simplex_short.specs.Short.{spelled};
ghost use Rattle.pc_simplex_short.specs.Kept.{IsSetting, IsShort};
ghost use Rattle.pc_simplex_short.specs.Stays.{HasShortBoth, HasShortWay};

use crate::setting::ShortSetting;
use crate::tableau::ShortTableau;
use pc_simplex_tableau::Way;

/// Changes the tableau in the way of a step. It answers false where a number is no longer small, and the tableau is then of no
/// more use.
#[tactic(auto, unfolding(pc_simplex_tableau::specs::Tableau::after_step, pc_simplex_tableau::specs::Tableau::does_way_fit))]
pub(crate) fn change(
    tableau: &mut ShortTableau,
    setting: &ShortSetting,
    enters: usize,
    leaves: usize,
    way: Way,
) -> bool
    requires setting { IsSetting setting.now }
    requires short { IsShort setting.now tableau.old }
    requires enters { enters < setting.now.columns.count }
    requires leaves { leaves < setting.now.columns.count }
    requires way { IsWayBelow (length tableau.old.rows) (way_of way) }
    ensures fits { IsTrue result → IsTrue (does_way_fit setting.now.columns enters leaves (way_of way) (spelled setting.now tableau.old)) }
    ensures changed { IsTrue result → spelled setting.now tableau.new ≡ after_step setting.now.columns enters leaves (way_of way) (spelled setting.now tableau.old) }
    ensures short { IsTrue result → IsShort setting.now tableau.new }
    ensures given { HasShortWay setting.now enters leaves (way_of way) tableau.old → IsTrue result }
{
    match way {
        Way::Turning => tableau.turn(setting, enters, setting.columns.end(enters)),
        Way::Pivoting(at) => tableau.pivot(setting, enters, at),
        Way::TurningAndPivoting(at) => turn_and_pivot(tableau, setting, enters, leaves, at),
    }
}

#[tactic(auto, unfolding(pc_simplex_tableau::specs::Tableau::after_step, pc_simplex_tableau::specs::Tableau::does_way_fit))]
fn turn_and_pivot(
    tableau: &mut ShortTableau,
    setting: &ShortSetting,
    enters: usize,
    leaves: usize,
    at: usize,
) -> bool
    requires setting { IsSetting setting.now }
    requires short { IsShort setting.now tableau.old }
    requires enters { enters < setting.now.columns.count }
    requires leaves { leaves < setting.now.columns.count }
    requires at { at < length tableau.old.rows }
    ensures fits { IsTrue result → IsTrue (does_way_fit setting.now.columns enters leaves (turning_and_pivoting at) (spelled setting.now tableau.old)) }
    ensures changed { IsTrue result → spelled setting.now tableau.new ≡ after_step setting.now.columns enters leaves (turning_and_pivoting at) (spelled setting.now tableau.old) }
    ensures short { IsTrue result → IsShort setting.now tableau.new }
    ensures given { HasShortBoth setting.now enters leaves at tableau.old → IsTrue result }
{
    let range = setting.columns.end(leaves);
    if !tableau.turn(setting, leaves, range) {
        return false;
    }
    tableau.pivot(setting, enters, at)
}
