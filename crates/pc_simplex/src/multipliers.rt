ghost use Rattle.std.specs.Prelude.{◌≡◌, ◌<◌, neg_ℤ, cond, length, All, IfOk};
ghost use Rattle.pc_program_bound.specs.Sums.{int_at};
ghost use Rattle.pc_program_bound.specs.Bound.{IsFit};
ghost use Rattle.pc_simplex_tableau.specs.Tableau.{is_turned};
ghost use Rattle.pc_simplex_tableau.specs.Relaxation.{columns_of, multipliers};

use crate::corner::Corner;
use pc_list::Seq;
use pc_model::Mult;
use pc_num::Memory;
use pc_program_bound::Program;
use std::alloc::Global;

/// The multipliers that the slacks' entries in the objective row give, over a denominator.
pub(crate) fn multipliers(
    alloc: Global,
    p: &Program,
    tableau: &Corner,
    den: i128,
) -> Result<Mult, Memory>
    requires turned { length tableau.now.turned ≡ columns_of p.now }
    requires aim { length tableau.now.aim ≡ columns_of p.now }
    requires fits { All IsFit tableau.now.aim }
    ensures value { IfOk result (λ mult. mult ≡ multipliers p.now tableau.now den) }
    ensures fits { IfOk result (λ mult. All IsFit mult.by) }
{
    let helpers = tableau.columns() - p.least.len();
    let mut by = Seq::new(alloc);
    for slack in p.masks.len()..helpers {
        by.push(multiplier(tableau, slack))?;
    }
    Ok(Mult { by, den })
}

/// Minus the slack's entry in the objective row, or plus it where the slack is turned.
fn multiplier(tableau: &Corner, slack: usize) -> i128
    requires turned { slack < length tableau.now.turned }
    requires aim { slack < length tableau.now.aim }
    requires fits { All IsFit tableau.now.aim }
    ensures value { result ≡ cond (is_turned tableau.now slack) (int_at tableau.now.aim slack) (neg_ℤ (int_at tableau.now.aim slack)) }
    ensures fits { IsFit result }
{
    let entry = tableau.aim_at(slack);
    let turned = tableau.is_turned(slack);
    if turned { entry } else { -entry }
}
