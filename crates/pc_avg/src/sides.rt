ghost use Rattle.std.specs.Prelude.{◌≤◌, ◌*◌, nat_abs, IfOk};
ghost use Rattle.pc_num.specs.Scaled.{greatest_size};
ghost use Rattle.pc_branch.specs.Outcome.{IsEasyProgram};
ghost use Rattle.pc_agg_search.specs.Problem.{IsEasyFor, IsPosed, setting_of};
ghost use Rattle.pc_avg.specs.Sides.{IsSide};
ghost use Rattle.pc_agg_search.specs.Posed.{AsksNumbers};

use crate::fractions::fraction_of;
use crate::outermost::outermost_of;
use pc_agg_search::{Extreme, Problem, Targets, find_keys};
use pc_avg_ratio::Fractional;
use pc_list::Seq;
use pc_model::{Folded, Row};
use pc_num::Memory;
use std::alloc::Global;

/// What an end of an average is sought over. All numbers of a low end are turned, so that it is the greatest too.
#[derive(Debug, Drop)]
pub(crate) struct Side {
    pub fraction: Fractional,
    /// A row of each cell with the cell's number at the end.
    pub picks: Seq<Row>,
    /// The greatest number of a row that was observed or can be lost.
    pub outermost: Option<i128>,
}

pub(crate) fn side_of(
    alloc: Global,
    problem: &Problem<'_>,
    seen: &Folded,
    extreme: Extreme,
) -> Result<Side, Memory>
    requires posed { IsPosed problem.now }
    requires numbers { AsksNumbers problem.now }
    requires few_seen { seen.now.count ≤ 1_000_000 }
    requires small_seen { nat_abs seen.now.sum ≤ 1_000_000 * greatest_size }
    ensures side { IfOk result (IsSide (setting_of problem.now) seen.now extreme) }
    ensures nested { IsEasyFor problem.now → IfOk result (λ side. IsEasyProgram side.fraction.rows) }
{
    let Targets { gains, picks } = find_keys(alloc, problem, extreme)?;
    let outermost = outermost_of(problem, extreme, gains.as_slice(), seen);
    let fraction = fraction_of(alloc, problem, seen, extreme, gains, picks.as_slice())?;
    Ok(Side {
        fraction,
        picks,
        outermost,
    })
}
