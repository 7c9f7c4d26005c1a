ghost use Rattle.std.specs.Prelude.{◌≡◌, ◌<◌, ◌≤◌, ◌+◌, [], length, false, IfOk, vec_capacity};
ghost use Rattle.pc_frontier.specs.Frontier.{none_yet, with_node, with_root, with_split, with_state, held, taken, first_open, best_of, closed, pruned, bound_at, set_state, place_of, low_of, is_open, AreOpen, IsFalling, node_at, IsInHand, IsKept};
ghost use Rattle.pc_frontier.specs.Inside.{shut, with_bound, IsFew};
ghost use Rattle.pc_frontier.specs.Rings.{In, IsOnce, IsListed};
ghost use Rattle.pc_frontier.specs.Boxes.{AreOrdered, AreFitting, box_at, first_child_of};

use crate::boxes::narrow;
use crate::node::{Born, Node, State};
use crate::ring::Ring;
use pc_num::Memory;
use std::alloc::Global;
use std::marker::Model;

/// The nodes of one search. A node is open, in hand, split or closed; the open ones stand in a list, greatest bound
/// first, and nodes of one bound as they came. Links and nodes are reserved once, and no call but `reserve` takes memory.
#[derive(Debug, Drop)]
pub struct Frontier {
    nodes: Vec<Node>,
    opened: Ring,
}

impl Model for Frontier {
    ghost use Rattle.std.specs.Prelude.{◌-◌, length, vec_capacity};
    ghost use Rattle.pc_frontier.specs.Frontier.{Seen, IsSound};

    ghost Value = { Seen };

    ghost view = { λ f. record { room = f.opened.limit - length f.nodes.items; nodes = f.nodes.items; opened = f.opened.numbers } };

    ghost invariant = { λ f. IsSound f.opened.limit (vec_capacity f.nodes) f.nodes.items f.opened.numbers };
}

impl Frontier {
    /// An empty frontier with room for so many nodes.
    pub fn reserve(alloc: Global, nodes: u32) -> Result<Frontier, Memory>
        ensures { IfOk result (λ f. f ≡ none_yet nodes) }
    {
        let opened = Ring::new(alloc, nodes)?;
        let nodes = Vec::with_capacity(alloc, nodes as usize)?;
        Ok(Frontier { nodes, opened })
    }

    /// How many nodes can still be made.
    pub fn room(&self) -> u32
        ensures room { result ≡ self.now.room }
        ensures kept { IsKept self.now }
    {
        self.opened.limit() - self.nodes.len() as u32
    }

    /// Makes the root, number 0, which is in hand.
    pub fn push_root(&mut self) -> u32
        requires none { self.old.nodes ≡ [] }
        requires room { 0 < self.old.room }
        ensures root { result ≡ 0 }
        ensures made { self.new ≡ with_root self.old }
    {
        self.push_node(None)
    }

    /// Splits a node in hand at a number of a cell. Both children are in hand, the one with the lesser counts first.
    pub fn split(&mut self, node: u32, cell: u32, at: u64) -> (u32, u32)
        requires node { IsInHand self.old node }
        requires room { 2 ≤ self.old.room }
        requires small { at < 1_000_000_000 }
        ensures children { result ≡ (length self.old.nodes, length self.old.nodes + 1) }
        ensures made { self.new ≡ with_split node cell at self.old }
    {
        let first = self.nodes.len() as u32;
        self.move_to(node, State::Split(first));
        let parent = node;
        let less = self.push_node(Some(Born {
            parent,
            cell,
            at,
            more: false,
        }));
        let more = self.push_node(Some(Born {
            parent,
            cell,
            at,
            more: true,
        }));
        (less, more)
    }

    /// Opens a node in hand, after the open nodes of equal bound.
    pub fn hold(&mut self, node: u32, bound: i128)
        requires { IsInHand self.old node }
        ensures { self.new ≡ held node bound self.old }
    {
        let place = place_for(&self.nodes, &self.opened, bound);
        open(&mut self.nodes, node, bound);
        self.opened.put_before(place, node);
    }

    /// Takes the first open node into hand.
    pub fn take_best(&mut self) -> Option<u32>
        ensures node { result ≡ first_open self.old.opened }
        ensures taken { self.new ≡ taken self.old }
    {
        let first = self.opened.first();
        if first == self.opened.limit() {
            return None;
        }
        set_state(&mut self.nodes, first, State::InHand);
        self.opened.remove(first);
        Some(first)
    }

    /// The bound of the first open node.
    pub fn best(&self) -> Option<i128>
        ensures best { result ≡ best_of self.now.nodes self.now.opened }
        ensures kept { IsKept self.now }
    {
        let first = self.opened.first();
        if first == self.opened.limit() {
            return None;
        }
        Some(bound_of(&self.nodes, first))
    }

    pub fn close(&mut self, node: u32)
        requires { IsInHand self.old node }
        ensures { self.new ≡ closed node self.old }
    {
        self.move_to(node, State::Closed);
    }

    /// Closes the open nodes whose bound is at most a value, and counts them.
    pub fn prune_below(&mut self, value: i128) -> u32
        ensures pruned { self.new ≡ pruned value self.old }
        ensures count { result + length self.new.opened ≡ length self.old.opened }
    {
        let mut count = 0;
        while let Some(last) = self.last_below(value) {
            self.shut(last);
            count += 1;
        }
        count
    }

    /// The first of the two children of a node that is split; the second has the number after it.
    pub fn first_child(&self, node: u32) -> Option<u32>
        requires { node < length self.now.nodes }
        ensures { result ≡ first_child_of (node_at self.now.nodes node).state }
    {
        match self.nodes[node as usize].state {
            State::Split(first) => Some(first),
            _ => None,
        }
    }

    /// Narrows a start box that the splits fit to the box of a node.
    pub fn box_of(&self, node: u32, floor: &mut [u64], cap: &mut [u64])
        requires there { node < length self.now.nodes }
        requires ordered { AreOrdered self.now.nodes }
        requires fits { AreFitting self.now.nodes (record { floors = floor.old; caps = cap.old }) }
        ensures floor { floor.new ≡ (box_at self.now.nodes (record { floors = floor.old; caps = cap.old }) node).floors }
        ensures cap { cap.new ≡ (box_at self.now.nodes (record { floors = floor.old; caps = cap.old }) node).caps }
    {
        narrow(self.nodes.as_slice(), node as usize, floor, cap);
    }

    fn push_node(&mut self, born: Option<Born>) -> u32
        requires { 0 < self.old.room }
        ensures number { result ≡ length self.old.nodes }
        ensures made { self.new ≡ with_node born self.old }
    {
        let number = self.nodes.len() as u32;
        let _ = self.nodes.push(Node {
            born,
            state: State::InHand,
            bound: 0,
        });
        number
    }

    // Moves a node in hand to another state than open.
    fn move_to(&mut self, node: u32, state: State)
        requires node { IsInHand self.old node }
        requires state { is_open state ≡ false }
        ensures { self.new ≡ with_state node state self.old }
    {
        set_state(&mut self.nodes, node, state);
    }

    // The last open node, if its bound is at most a value.
    fn last_below(&self, value: i128) -> Option<u32>
        ensures low { result ≡ low_of value (bound_at self.now.nodes) 0 self.now.opened }
        ensures kept { IsFew self.now }
    {
        let last = self.opened.last();
        if last == self.opened.limit() {
            return None;
        }
        if bound_of(&self.nodes, last) > value {
            return None;
        }
        Some(last)
    }

    // Closes an open node.
    fn shut(&mut self, node: u32)
        requires there { In node self.old.opened }
        requires once { IsOnce self.old.opened }
        ensures { self.new ≡ shut node self.old }
    {
        set_state(&mut self.nodes, node, State::Closed);
        self.opened.remove(node);
    }
}

fn bound_of(nodes: &[Node], node: u32) -> i128
    requires { node < length nodes.now }
    ensures { result ≡ bound_at nodes.now node }
{
    nodes[node as usize].bound
}

fn set_state(nodes: &mut Vec<Node>, node: u32, state: State)
    requires { node < length nodes.old.items }
    ensures items { nodes.new.items ≡ set_state nodes.old.items node state }
    ensures capacity { vec_capacity nodes.new ≡ vec_capacity nodes.old }
{
    nodes[node as usize].state = state;
}

fn open(nodes: &mut Vec<Node>, node: u32, bound: i128)
    requires { node < length nodes.old.items }
    ensures items { nodes.new.items ≡ with_bound nodes.old.items node bound }
    ensures capacity { vec_capacity nodes.new ≡ vec_capacity nodes.old }
{
    let node = &mut nodes[node as usize];
    node.state = State::Open;
    node.bound = bound;
}

// The first open node of a lesser bound, or the end. New bounds are often the least: the last one tells.
fn place_for(nodes: &[Node], opened: &Ring, bound: i128) -> u32
    requires opens { AreOpen nodes.now opened.now.numbers }
    requires falling { IsFalling (bound_at nodes.now) opened.now.numbers }
    ensures place { result ≡ place_of (bound_at nodes.now) bound opened.now.limit opened.now.numbers }
    ensures listed { IsListed opened.now }
{
    let end = opened.limit();
    let last = opened.last();
    if last != end && bound_of(nodes, last) >= bound {
        return end;
    }
    walk(nodes, opened, bound)
}

fn walk(nodes: &[Node], opened: &Ring, bound: i128) -> u32
    requires { AreOpen nodes.now opened.now.numbers }
    ensures { result ≡ place_of (bound_at nodes.now) bound opened.now.limit opened.now.numbers }
{
    let end = opened.limit();
    let mut place = opened.first();
    while place != end {
        if bound_of(nodes, place) < bound {
            return place;
        }
        place = opened.next(place);
    }
    end
}
