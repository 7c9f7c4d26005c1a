ghost use Rattle.std.specs.Prelude.{◌≡◌, ◌≤◌, ◌<◌, ◌^◌, length, IfOk};
ghost use Rattle.pc_model.specs.declared.tree.CutNode.TheVariants.{Inner};
ghost use Rattle.pc_model.specs.Accepted.{constraint_limit};
ghost use Rattle.pc_model.specs.Cells.{IsSettledTree, IsSettledAs, leaves_in};
ghost use Rattle.pc_box.specs.Boxes.{IsBox};
ghost use Rattle.pc_box.specs.Cuts.{Divides};
ghost use Rattle.pc_cells_tree.specs.declared.walk.Task.TheVariants.{Visit, Close};
ghost use Rattle.pc_cells_tree.specs.Decisions.{IsComparable, CanBeSettled};
ghost use Rattle.pc_cells_tree.specs.Knowing.{IsKnown};
ghost use Rattle.pc_cells_tree.specs.Linked.{CanBeDivided, IsTree, IsDividedFor, node_at};
ghost use Rattle.pc_cells_tree.specs.Walking.{HasCutsOf, HasWalked, IsVisit, IsTask, IsStep, IsOpened, nothing};

use crate::decision::{Decision, decide, learn};
use crate::growth::{Growth, number};
use crate::known::Known;
use pc_box::cut;
use pc_list::Seq;
use pc_model::{Area, Constraint, Cut, CutNode, LeafMark, Region, Schema};
use pc_num::Memory;
use std::alloc::Global;

/// A node, its box, and what is known of the box.
#[derive(Debug, PartialEq, Eq, Drop)]
struct Turn {
    number: usize,
    part: Region,
    known: Known,
}

/// What is still to be done: to go through the nodes from one on, or to set a cut into the place that was kept for it.
#[derive(Debug, PartialEq, Eq, Drop)]
enum Task {
    Visit { turn: Turn },
    Close { place: usize, cut: Cut },
}

/// What has grown, and the tasks that are left: the last one is next.
#[derive(Drop)]
struct Walk {
    growth: Growth,
    tasks: Vec<Task>,
}

/// The tree with a mark at each leaf, its nodes numbered anew in preorder, and its leaves.
#[tactic(auto, using(crate::proofs::Grown::whole))]
pub fn marked(
    alloc: Global,
    schema: &Schema,
    constraints: &[Constraint],
    chosen: &Area,
    nodes: &[CutNode],
) -> Result<Growth, Memory>
    requires asked { CanBeDivided schema.now constraints.now chosen.now }
    requires tree { IsTree schema.now nodes.now }
    requires divided { IsDividedFor schema.now constraints.now chosen.now nodes.now }
    ensures settled { IfOk result (λ growth. IsSettledTree schema.now constraints.now chosen.now growth.nodes) }
    ensures leaves { IfOk result (λ growth. growth.leaves ≡ leaves_in schema.now growth.nodes) }
    ensures few { IfOk result (λ growth. length growth.leaves < 2 ^ 32) }
    ensures same { IfOk result (λ growth. HasCutsOf nodes.now growth.nodes) }
{
    let whole = schema.whole(alloc)?;
    let growth = walked(alloc, constraints, chosen, nodes, whole)?;
    // Whoever reads the leaves numbers them too.
    number(growth.leaves.len())?;
    Ok(growth)
}

fn walked(
    alloc: Global,
    constraints: &[Constraint],
    chosen: &Area,
    nodes: &[CutNode],
    whole: Region,
) -> Result<Growth, Memory>
    requires few { length constraints.now ≤ constraint_limit }
    requires visit { IsVisit nodes.now constraints.now chosen.now 0 whole }
    ensures { IfOk result (HasWalked nodes.now constraints.now chosen.now 0 whole nothing) }
{
    let growth = Growth {
        nodes: Seq::new(alloc),
        leaves: Seq::new(alloc),
    };
    let turn = Turn {
        number: 0,
        part: whole,
        known: Known::nothing(),
    };
    let start = Task::Visit { turn };
    let tasks = vec![in alloc; start]?;
    let mut walk = Walk { growth, tasks };
    while let Some(task) = walk.tasks.pop() {
        walk = stepped(alloc, constraints, chosen, nodes, walk, task)?;
    }
    Ok(walk.growth)
}

#[inline(always)]
fn stepped(
    alloc: Global,
    constraints: &[Constraint],
    chosen: &Area,
    nodes: &[CutNode],
    walk: Walk,
    task: Task,
) -> Result<Walk, Memory>
    requires few { length constraints.now ≤ constraint_limit }
    requires task { IsTask nodes.now constraints.now chosen.now (length walk.growth.nodes) task }
    ensures { IfOk result (IsStep nodes.now constraints.now chosen.now task walk) }
{
    match task {
        Task::Visit { turn } => visited(alloc, constraints, chosen, nodes, walk, turn),
        Task::Close { place, cut } => {
            let Walk { growth, tasks } = walk;
            let growth = growth.with_inner(place, cut)?;
            Ok(Walk { growth, tasks })
        }
    }
}

#[inline(always)]
fn visited(
    alloc: Global,
    constraints: &[Constraint],
    chosen: &Area,
    nodes: &[CutNode],
    walk: Walk,
    turn: Turn,
) -> Result<Walk, Memory>
    requires few { length constraints.now ≤ constraint_limit }
    requires visit { IsVisit nodes.now constraints.now chosen.now turn.number turn.part }
    requires known { IsKnown constraints.now turn.part turn.known }
    ensures { IfOk result (IsStep nodes.now constraints.now chosen.now (Visit turn) walk) }
{
    let Turn {
        number,
        part,
        known,
    } = turn;
    match nodes[number] {
        CutNode::Leaf { .. } => {
            let mark = mark_of(&part, constraints, chosen, known);
            let Walk { growth, tasks } = walk;
            let growth = growth.with_leaf(part, mark)?;
            Ok(Walk { growth, tasks })
        }
        CutNode::Inner { cut, first, second } => {
            let known = learn(&part, constraints, known);
            opened(
                alloc,
                walk,
                part,
                known,
                cut,
                first as usize,
                second as usize,
            )
        }
    }
}

#[inline(always)]
fn mark_of(part: &Region, constraints: &[Constraint], chosen: &Area, known: Known) -> LeafMark
    requires few { length constraints.now ≤ constraint_limit }
    requires comparable { IsComparable constraints.now chosen.now part.now }
    requires settled { CanBeSettled constraints.now chosen.now part.now }
    requires known { IsKnown constraints.now part.now known }
    ensures { IsSettledAs constraints.now chosen.now part.now result }
{
    match decide(part, constraints, chosen, known) {
        Decision::Settled(mark) => mark,
        Decision::Divided { .. } => unreachable!(),
    }
}

// A place is kept for the cut, which is set into it once its first part stands; the second part comes after that.
#[inline(always)]
fn opened(
    alloc: Global,
    walk: Walk,
    part: Region,
    known: Known,
    at: Cut,
    first: usize,
    second: usize,
) -> Result<Walk, Memory>
    requires filled { IsBox part }
    requires divided { Divides part at }
    ensures { IfOk result (IsOpened at part known first second walk) }
{
    let halves = cut(alloc, &part, &at)?;
    let Walk { growth, mut tasks } = walk;
    let place = growth.nodes.len();
    let growth = growth.with_place()?;
    let turn = Turn {
        number: second,
        part: halves.second,
        known,
    };
    tasks.push(Task::Visit { turn })?;
    tasks.push(Task::Close { place, cut: at })?;
    let turn = Turn {
        number: first,
        part: halves.first,
        known,
    };
    tasks.push(Task::Visit { turn })?;
    Ok(Walk { growth, tasks })
}
