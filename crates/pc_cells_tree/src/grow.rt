ghost use Rattle.std.specs.Prelude.{◌≡◌, ◌≤◌, ◌<◌, ◌^◌, length, IfOk};
ghost use Rattle.pc_model.specs.Accepted.{constraint_limit};
ghost use Rattle.pc_model.specs.Cells.{IsSettledTree, leaves_in};
ghost use Rattle.pc_model.specs.CutTrees.{shape_of};
ghost use Rattle.pc_model.specs.Regions.{whole_region};
ghost use Rattle.pc_box.specs.Boxes.{IsBox};
ghost use Rattle.pc_box.specs.Cuts.{Divides};
ghost use Rattle.pc_cells_tree.specs.declared.grow.Job.TheVariants.{Grow, Close};
ghost use Rattle.pc_cells_tree.specs.Decisions.{IsComparable};
ghost use Rattle.pc_cells_tree.specs.Knowing.{IsKnown};
ghost use Rattle.pc_cells_tree.specs.Linked.{CanBeDivided};
ghost use Rattle.pc_cells_tree.specs.Straight.{AreNeeded, HasSprouted, IsJob, IsDoing, IsOpened};
ghost use Rattle.pc_cells_tree.specs.Walking.{nothing};

use crate::decision::{Decision, decide};
use crate::growth::{Growth, number};
use crate::known::Known;
use pc_box::cut;
use pc_list::Seq;
use pc_model::{Area, Constraint, Cut, Region, Schema};
use pc_num::Memory;
use std::alloc::Global;

/// What is still to be done: to grow the tree over a box, or to set a cut into the place that was kept for it.
#[derive(Debug, PartialEq, Eq, Drop)]
enum Job {
    Grow { part: Region, known: Known },
    Close { place: usize, cut: Cut },
}

/// What has grown, and the jobs that are left: the last one is next.
#[derive(Drop)]
struct Work {
    growth: Growth,
    jobs: Vec<Job>,
}

/// The settled tree over the whole domain, its nodes in preorder, and its leaves. Each box is asked once, and kept
/// only until it is cut.
#[tactic(auto, using(crate::proofs::Grown::whole))]
pub fn grown_tree(
    alloc: Global,
    schema: &Schema,
    constraints: &[Constraint],
    chosen: &Area,
) -> Result<Growth, Memory>
    requires asked { CanBeDivided schema.now constraints.now chosen.now }
    ensures settled { IfOk result (λ growth. IsSettledTree schema.now constraints.now chosen.now growth.nodes) }
    ensures needed { IfOk result (λ growth. AreNeeded constraints.now chosen.now (whole_region schema.now) (shape_of growth.nodes)) }
    ensures leaves { IfOk result (λ growth. growth.leaves ≡ leaves_in schema.now growth.nodes) }
    ensures few { IfOk result (λ growth. length growth.leaves < 2 ^ 32) }
{
    let whole = schema.whole(alloc)?;
    let growth = grown_over(alloc, constraints, chosen, whole)?;
    // Whoever reads the leaves numbers them too.
    number(growth.leaves.len())?;
    Ok(growth)
}

fn grown_over(
    alloc: Global,
    constraints: &[Constraint],
    chosen: &Area,
    whole: Region,
) -> Result<Growth, Memory>
    requires few { length constraints.now ≤ constraint_limit }
    requires comparable { IsComparable constraints.now chosen.now whole }
    ensures { IfOk result (HasSprouted constraints.now chosen.now whole nothing) }
{
    let growth = Growth {
        nodes: Seq::new(alloc),
        leaves: Seq::new(alloc),
    };
    let known = Known::nothing();
    let start = Job::Grow { part: whole, known };
    let jobs = vec![in alloc; start]?;
    let mut work = Work { growth, jobs };
    while let Some(job) = work.jobs.pop() {
        work = done(alloc, constraints, chosen, work, job)?;
    }
    Ok(work.growth)
}

#[inline(always)]
fn done(
    alloc: Global,
    constraints: &[Constraint],
    chosen: &Area,
    work: Work,
    job: Job,
) -> Result<Work, Memory>
    requires few { length constraints.now ≤ constraint_limit }
    requires job { IsJob constraints.now chosen.now (length work.growth.nodes) job }
    ensures { IfOk result (IsDoing constraints.now chosen.now job work) }
{
    match job {
        Job::Grow { part, known } => sprout(alloc, constraints, chosen, work, part, known),
        Job::Close { place, cut } => {
            let Work { growth, jobs } = work;
            let growth = growth.with_inner(place, cut)?;
            Ok(Work { growth, jobs })
        }
    }
}

#[inline(always)]
fn sprout(
    alloc: Global,
    constraints: &[Constraint],
    chosen: &Area,
    work: Work,
    part: Region,
    known: Known,
) -> Result<Work, Memory>
    requires few { length constraints.now ≤ constraint_limit }
    requires comparable { IsComparable constraints.now chosen.now part }
    requires known { IsKnown constraints.now part known }
    ensures { IfOk result (IsDoing constraints.now chosen.now (Grow part known) work) }
{
    match decide(&part, constraints, chosen, known) {
        Decision::Settled(mark) => {
            let Work { growth, jobs } = work;
            let growth = growth.with_leaf(part, mark)?;
            Ok(Work { growth, jobs })
        }
        Decision::Divided { at, known } => opened(alloc, work, part, at, known),
    }
}

// A place is kept for the cut, which is set into it once its first part stands; the second part comes after that.
#[inline(always)]
fn opened(alloc: Global, work: Work, part: Region, at: Cut, known: Known) -> Result<Work, Memory>
    requires filled { IsBox part }
    requires divided { Divides part at }
    ensures { IfOk result (IsOpened at part known work) }
{
    let halves = cut(alloc, &part, &at)?;
    let Work { growth, mut jobs } = work;
    let place = growth.nodes.len();
    let growth = growth.with_place()?;
    jobs.push(Job::Grow {
        part: halves.second,
        known,
    })?;
    jobs.push(Job::Close { place, cut: at })?;
    jobs.push(Job::Grow {
        part: halves.first,
        known,
    })?;
    Ok(Work { growth, jobs })
}
