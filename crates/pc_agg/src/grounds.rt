ghost use Rattle.std.specs.Prelude.{◌≡◌, ◌<◌, ◌≤◌, true, false, All, Any, IfOk, IsTrue, length};
ghost use Rattle.pc_cells.specs.declared.cells.Cell.{Cell};
ghost use Rattle.pc_program_bound.specs.Allocation.{IsProgram};
ghost use Rattle.pc_branch.specs.Outcome.{IsEasyProgram};
ghost use Rattle.pc_branch.specs.Ends.{HasSmallGains};
ghost use Rattle.pc_branch_licences.specs.Pools.{AreLawful};
ghost use Rattle.pc_agg_search.specs.Wants.{want_for, IsMet, IsProbed, IsSure};
ghost use Rattle.pc_agg.specs.Grounds.{HasValues, IsKept, IsLacking, IsLackingSurely, IsUnlistedIfNone};
ghost use Rattle.pc_agg_search.specs.Problem.{IsEasyFor, IsPosed, setting_of};
ghost use Rattle.pc_agg.specs.Posed.{IsGroundedAt, IsGroundedSurelyAt};

use crate::settling::{Settled, settle_totals};
use pc_agg_search::{
    FoundCounts, ProbeVerdict, Probed, Problem, Want, chosen_program, flat_tree, probe, want_for,
};
use pc_cells::Cells;
use pc_model::Tree;
use pc_num::Memory;
use pc_program_bound::Program;
use pc_proof::{NeverBy, Relation, Why};
use std::alloc::Global;

/// Whether the aggregate can lack a value: never, or it may, unless the budget was spent.
#[derive(Drop)]
pub enum Lacking {
    Never(NeverBy),
    Open,
}

/// What is known of the lack, and the counts that were found.
#[derive(Drop)]
pub struct Grounds {
    pub lacking: Lacking,
    pub found: FoundCounts,
}

/// What the programs of all rows and of the chosen ones come to: that there is no list, that none gives a value, or neither.
/// Then a list with a value was found, or may be there.
#[derive(Drop)]
pub enum Grounded {
    Impossible(Why),
    Always(Tree, FoundCounts),
    Open(Grounds),
}

/// Searches for lists, for those without a chosen row, and for those with one, where rows were observed or not.
pub fn ground(alloc: Global, problem: &Problem<'_>, observed: bool) -> Result<Grounded, Memory>
    requires posed { IsPosed problem.now }
    ensures grounded { IfOk result (IsGroundedAt problem.now observed) }
    ensures nested { IsEasyFor problem.now → IfOk result (IsGroundedSurelyAt problem.now observed) }
{
    let Settled {
        relation,
        lack: _,
        found,
    } = settle_totals(alloc, problem)?;
    if let Relation::Impossible(why) = relation {
        return Ok(Grounded::Impossible(why));
    }
    if observed {
        let lacking = Lacking::Never(NeverBy::Rows);
        return ground_most(alloc, problem, true, lacking, found);
    }
    ground_unseen(alloc, problem, found)
}

/// The same where no row was observed, so that a list without chosen rows gives no value.
fn ground_unseen(
    alloc: Global,
    problem: &Problem<'_>,
    found: FoundCounts,
) -> Result<Grounded, Memory>
    requires posed { IsPosed problem.now }
    requires lawful { All (AreLawful (setting_of problem.now)) found }
    requires totals { IsUnlistedIfNone (setting_of problem.now) problem.now.nodes found }
    ensures grounded { IfOk result (IsGroundedAt problem.now false) }
    ensures nested { IsEasyFor problem.now → 0 < length found → IfOk result (IsGroundedSurelyAt problem.now false) }
    ensures kept { IfOk result (IsKept found) }
{
    if !has_chosen(problem.cells) {
        let tree = flat_tree(alloc, problem.constraints.len())?;
        return Ok(Grounded::Always(tree, found));
    }
    let fewest = chosen_program(alloc, problem, -1)?;
    let Probed { verdict, found } = probe_once(alloc, fewest, Want::Without, found, problem.nodes)?;
    let lacking = match verdict {
        ProbeVerdict::Empty(tree) => return Ok(Grounded::Impossible(Why::Void(tree))),
        ProbeVerdict::Short(tree) => Lacking::Never(NeverBy::Tree(tree)),
        ProbeVerdict::Open => Lacking::Open,
    };
    ground_most(alloc, problem, false, lacking, found)
}

/// Whether some cell is chosen.
fn has_chosen(cells: &Cells) -> bool
    ensures some { IsTrue result → Any (λ (cell : Cell). cell.chosen ≡ true) cells.now.cells }
    ensures none { result ≡ false → All (λ (cell : Cell). cell.chosen ≡ true → ⊥) cells.now.cells }
{
    for cell in cells.cells.as_slice() {
        if cell.chosen {
            return true;
        }
    }
    false
}

/// Searches for a list with a chosen row, or for any list where rows were observed.
fn ground_most(
    alloc: Global,
    problem: &Problem<'_>,
    observed: bool,
    lacking: Lacking,
    found: FoundCounts,
) -> Result<Grounded, Memory>
    requires posed { IsPosed problem.now }
    requires some { HasValues (setting_of problem.now) observed }
    requires lawful { All (AreLawful (setting_of problem.now)) found }
    requires totals { IsUnlistedIfNone (setting_of problem.now) problem.now.nodes found }
    requires lacking { IsLacking (setting_of problem.now) observed problem.now.nodes found lacking }
    ensures grounded { IfOk result (IsGroundedAt problem.now observed) }
    ensures nested { IsEasyFor problem.now → 0 < length found → IsLackingSurely (setting_of problem.now) found lacking → IfOk result (IsGroundedSurelyAt problem.now observed) }
    ensures kept { IfOk result (IsKept found) }
{
    let most = chosen_program(alloc, problem, 1)?;
    let want = want_for(observed);
    let Probed { verdict, found } = probe_once(alloc, most, want, found, problem.nodes)?;
    match verdict {
        ProbeVerdict::Empty(tree) => Ok(Grounded::Impossible(Why::Void(tree))),
        ProbeVerdict::Short(tree) if observed => Ok(Grounded::Impossible(Why::Void(tree))),
        ProbeVerdict::Short(tree) => Ok(Grounded::Always(tree, found)),
        ProbeVerdict::Open => Ok(Grounded::Open(Grounds { lacking, found })),
    }
}

/// A probe of a program that is not needed any more.
fn probe_once(
    alloc: Global,
    program: Program,
    want: Want,
    found: FoundCounts,
    nodes: u32,
) -> Result<Probed, Memory>
    requires program { IsProgram program }
    requires small { HasSmallGains program }
    requires met { All (IsMet program) found }
    requires nodes { (1 ≤ nodes) × (nodes ≤ 100_000) }
    ensures probed { IfOk result (IsProbed program want nodes found) }
    ensures nested { IsEasyProgram program → IfOk result (IsSure program want) }
{
    probe(alloc, &program, want, found, nodes)
}
