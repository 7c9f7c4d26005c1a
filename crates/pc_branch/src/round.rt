ghost use Rattle.std.specs.Prelude.{◌≡◌, ◌<◌, ◌≤◌, ◌+◌, length, IfOk};
ghost use Rattle.pc_program_bound.specs.Allocation.{IsProgram, IsBox, cells_of};
ghost use Rattle.pc_program_bound.specs.Bound.{IsFit, HasFitWidth};
ghost use Rattle.pc_program_bound.specs.SplitTrees.{less_caps, more_floors};
ghost use Rattle.pc_program_bound.specs.Sums.{nat_at};
ghost use Rattle.std.specs.Prelude.{All};
ghost use Rattle.pc_simplex.specs.Vertices.{IsFitMult};
ghost use Rattle.pc_frontier.specs.Frontier.{IsInHand};
ghost use Rattle.pc_frontier.specs.Boxes.{AreOrdered, AreFitting, box_at};
ghost use Rattle.pc_branch.specs.Licence.{no_multipliers};
ghost use Rattle.pc_branch.specs.Grown.{visited_at, IsPartedAt, IsParted, IsVisited};
ghost use Rattle.pc_branch.specs.Searching.{start_of};
ghost use Rattle.pc_branch.specs.Steps.{budget_of, IsGoing, IsDivided};
ghost use Rattle.pc_branch.specs.Visits.{HasCounts, ArePartsVisited, with_parts};

use crate::search::{Hand, Search};
use crate::visit::{Visit, visit_box};
use crate::visited::{Known, Visited};
use pc_frontier::Frontier;
use pc_list::Seq;
use pc_model::Mult;
use pc_num::Memory;
use pc_program_bound::Program;
use std::alloc::Global;

/// The least and the greatest count of each cell.
#[derive(Debug, Drop)]
struct CountBox {
    floor: Seq<u64>,
    cap: Seq<u64>,
}

impl Search {
    /// Splits the node in hand where its count is not whole, and visits both parts. It answers the number of the child
    /// with the lesser counts; the other has the next one.
    pub(crate) fn divide(&mut self, alloc: Global, p: &Program, hand: Hand) -> Result<u32, Memory>
        requires program { IsProgram p.now }
        requires width { HasFitWidth p.now (no_multipliers p.now) }
        requires going { IsGoing p.now self.old hand }
        requires room { 2 ≤ self.old.frontier.room }
        requires few { budget_of self.old ≤ 100_000 }
        ensures divided { IfOk result (λ first. IsDivided p.now self.new first hand.bound) }
        ensures budget { IfOk result (λ _. budget_of self.new ≡ budget_of self.old) }
        ensures room { IfOk result (λ _. self.new.frontier.room + 2 ≡ self.old.frontier.room) }
        ensures few { IfOk result (λ first. (first + 1 < length self.new.visited) × (length self.new.visited ≤ 100_000)) }
    {
        let (cell, at) = parting(self.visited.as_slice(), hand.node);
        let (less, more) = self.visit_parts(alloc, p, hand, cell, at)?;
        self.take_parts(hand.node, cell, at, less, more)
    }

    /// Visits both parts of the box of the node in hand.
    fn visit_parts(
        &self,
        alloc: Global,
        p: &Program,
        hand: Hand,
        cell: u32,
        at: u64,
    ) -> Result<(Visit, Visit), Memory>
        requires program { IsProgram p.now }
        requires width { HasFitWidth p.now (no_multipliers p.now) }
        requires going { IsGoing p.now self.now hand }
        requires parted { IsPartedAt cell at (visited_at self.now.visited hand.node).known }
        ensures { IfOk result (λ parts. ArePartsVisited p.now self.now hand.node cell at parts.0 parts.1) }
    {
        let place = box_of(alloc, p, &self.frontier, hand.node)?;
        let above = &self.visited.as_slice()[hand.node as usize];
        let less = visit_less(alloc, p, &place, cell, at, above)?;
        let more = visit_more(alloc, p, &place, cell, at, above)?;
        Ok((less, more))
    }

    /// Splits a node in hand, whose parts were visited so.
    fn take_parts(
        &mut self,
        node: u32,
        cell: u32,
        at: u64,
        less: Visit,
        more: Visit,
    ) -> Result<u32, Memory>
        requires hand { IsInHand self.old.frontier node }
        requires room { 2 ≤ self.old.frontier.room }
        requires small { at < 1_000_000_000 }
        ensures first { IfOk result (λ first. first ≡ length self.old.frontier.nodes) }
        ensures made { IfOk result (λ _. self.new ≡ with_parts node cell at less more self.old) }
    {
        let Visit {
            node: less,
            counts: less_counts,
        } = less;
        let Visit {
            node: more,
            counts: more_counts,
        } = more;
        self.consider(less_counts, less.bound);
        self.consider(more_counts, more.bound);
        let (first, _second) = self.frontier.split(node, cell, at);
        self.visited.push(less)?;
        self.visited.push(more)?;
        Ok(first)
    }
}

/// Where a node is to be split.
fn parting(visited: &[Visited], node: u32) -> (u32, u64)
    requires there { node < length visited.now }
    requires parted { IsParted (visited_at visited.now node).known }
    ensures { IsPartedAt result.0 result.1 (visited_at visited.now node).known }
{
    match visited[node as usize].known {
        Known::Parted { cell, at } => (cell, at),
        _ => unreachable!(),
    }
}

/// The box of a node.
fn box_of(alloc: Global, p: &Program, frontier: &Frontier, node: u32) -> Result<CountBox, Memory>
    requires there { node < length frontier.now.nodes }
    requires ordered { AreOrdered frontier.now.nodes }
    requires fits { AreFitting frontier.now.nodes (start_of p.now) }
    ensures floor { IfOk result (λ place. place.floor ≡ (box_at frontier.now.nodes (start_of p.now) node).floors) }
    ensures cap { IfOk result (λ place. place.cap ≡ (box_at frontier.now.nodes (start_of p.now) node).caps) }
{
    let mut floor = p.floor.as_slice().to_vec(alloc)?;
    let mut cap = p.cap.as_slice().to_vec(alloc)?;
    frontier.box_of(node, floor.as_mut_slice(), cap.as_mut_slice());
    Ok(CountBox {
        floor: Seq::from_vec(floor),
        cap: Seq::from_vec(cap),
    })
}

/// Visits the part of a box with the counts of a cell up to a number.
fn visit_less(
    alloc: Global,
    p: &Program,
    place: &CountBox,
    cell: u32,
    at: u64,
    above: &Visited,
) -> Result<Visit, Memory>
    requires program { IsProgram p.now }
    requires gains { All IsFit p.now.gain }
    requires inside { IsBox p.now place.now.floor place.now.cap }
    requires cell { cell < cells_of p.now }
    requires low { nat_at place.now.floor cell ≤ at }
    requires high { at < nat_at place.now.cap cell }
    requires fits { IsFitMult above.now.mult }
    ensures visited { IfOk result (λ v. IsVisited p.now above.now.mult above.now.bound place.now.floor (less_caps place.now.cap cell at) v.node) }
    ensures counts { IfOk result (λ v. HasCounts p.now place.now.floor (less_caps place.now.cap cell at) v) }
{
    let mut cap = place.cap.as_slice().to_vec(alloc)?;
    cap[cell as usize] = at;
    visit_box(
        alloc,
        p,
        place.floor.as_slice(),
        cap.as_slice(),
        &above.mult,
        above.bound,
    )
}

/// Visits the part of a box with the greater counts of a cell.
fn visit_more(
    alloc: Global,
    p: &Program,
    place: &CountBox,
    cell: u32,
    at: u64,
    above: &Visited,
) -> Result<Visit, Memory>
    requires program { IsProgram p.now }
    requires gains { All IsFit p.now.gain }
    requires inside { IsBox p.now place.now.floor place.now.cap }
    requires cell { cell < cells_of p.now }
    requires low { nat_at place.now.floor cell ≤ at }
    requires high { at < nat_at place.now.cap cell }
    requires fits { IsFitMult above.now.mult }
    ensures visited { IfOk result (λ v. IsVisited p.now above.now.mult above.now.bound (more_floors place.now.floor cell at) place.now.cap v.node) }
    ensures counts { IfOk result (λ v. HasCounts p.now (more_floors place.now.floor cell at) place.now.cap v) }
{
    let mut floor = place.floor.as_slice().to_vec(alloc)?;
    floor[cell as usize] = at + 1;
    visit_box(
        alloc,
        p,
        floor.as_slice(),
        place.cap.as_slice(),
        &above.mult,
        above.bound,
    )
}
