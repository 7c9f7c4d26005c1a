ghost use Rattle.std.specs.Prelude.{◌≡◌, ◌<◌, ◌+◌, ℤ, ◌∷◌, [], length};
ghost use Rattle.pc_program_bound.specs.declared.program.Program.{Program};
ghost use Rattle.pc_frontier.specs.Frontier.{IsInHand, IsKept};
ghost use Rattle.pc_branch.specs.Grown.{visited_at};
ghost use Rattle.pc_branch.specs.Steps.{budget_of, is_parted, is_above, kept_hand, unless_over, IsSearch, IsAt, IsDivided, considered, settled, pruned_by, with_taken, next_hand, is_better, picked_state, picked_hand, wanted_child, other_child, is_worth, raised, value_found};

use crate::visited::{Known, Visited};
use pc_frontier::Frontier;
use pc_list::Seq;

/// The best allocation that was found so far, and its worth.
#[derive(Debug, Drop)]
pub(crate) struct Found {
    pub counts: Seq<u64>,
    pub value: i128,
}

/// A node in hand that can be split, with the bound of its box.
#[derive(Clone, Copy, Debug, PartialEq, Eq)]
pub(crate) struct Hand {
    pub node: u32,
    pub bound: i128,
}

/// What a search keeps: its frontier, what is known of each node by number, the best allocation so far, and the greatest
/// bound of a leaf whose steps ended in no point.
#[derive(Debug, Drop)]
pub(crate) struct Search {
    pub frontier: Frontier,
    pub visited: Seq<Visited>,
    pub found: Option<Found>,
    pub halted: Option<i128>,
}

impl Search {
    /// Takes the counts of a whole point, which are worth so much, where nothing better was found.
    pub(crate) fn consider(&mut self, counts: Option<Seq<u64>>, value: i128)
        ensures { self.new ≡ considered counts value self.old }
    {
        let Some(counts) = counts else {
            return;
        };
        if is_worth(&self.found, value) {
            return;
        }
        self.found = Some(Found { counts, value });
    }

    /// Lets go of a node in hand: it is open with its bound where it can be split, and closed where it cannot.
    pub(crate) fn settle(&mut self, node: u32)
        requires hand { IsInHand self.old.frontier node }
        requires there { node < length self.old.visited }
        ensures { self.new ≡ settled node self.old }
    {
        let (known, bound) = stance(self.visited.as_slice(), node);
        match known {
            Known::Parted { cell: _, at: _ } => self.frontier.hold(node, bound),
            Known::Stuck => {
                self.frontier.close(node);
                self.halted = raised(self.halted, bound);
            }
            Known::Nothing => self.frontier.close(node),
            Known::Whole => self.frontier.close(node),
        }
    }

    /// Closes the open nodes that lead to nothing better than what was found.
    pub(crate) fn prune(&mut self)
        ensures { self.new ≡ pruned_by self.old }
    {
        let Some(value) = worth_of(&self.found) else {
            return;
        };
        let _ = self.frontier.prune_below(value);
    }

    /// Takes the open node of greatest bound into hand.
    pub(crate) fn take(&mut self) -> Option<Hand>
        ensures hand { result ≡ next_hand self.old.frontier }
        ensures taken { self.new ≡ with_taken self.old }
        ensures kept { IsKept self.old.frontier }
    {
        let bound = self.frontier.best();
        let node = self.frontier.take_best();
        match (node, bound) {
            (Some(node), Some(bound)) => Some(Hand { node, bound }),
            _ => None,
        }
    }

    /// The node in hand as the next one, where it can be split and no open node has a greater bound.
    fn kept(&self, node: u32) -> Option<Hand>
        requires { node < length self.now.visited }
        ensures hand { result ≡ kept_hand node self.now }
        ensures kept { IsKept self.now.frontier }
    {
        let (known, bound) = stance(self.visited.as_slice(), node);
        let best = self.frontier.best();
        if !is_parted(known) || is_above(best, bound) {
            return None;
        }
        Some(Hand { node, bound })
    }

    /// The next node, unless what was found or halted is as much as its bound leaves possible.
    fn unless_over(&self, hand: Hand) -> Option<Hand>
        ensures { result ≡ unless_over self.now hand }
    {
        if is_worth(&self.found, hand.bound) || is_above(self.halted, hand.bound) {
            return None;
        }
        Some(hand)
    }

    /// The node to split next: that in hand, as long as no open node has a greater bound, or the best open one; none where
    /// the search is over.
    pub(crate) fn pick(&mut self, node: u32) -> Option<Hand>
        requires hand { IsInHand self.old.frontier node }
        requires there { node < length self.old.visited }
        ensures state { self.new ≡ picked_state node self.old }
        ensures hand { result ≡ picked_hand node self.old }
        ensures next { (p : Program) (level : ℤ) → IsSearch p self.old (node ∷ []) level → IsAt p self.new result }
        ensures budget { budget_of self.new ≡ budget_of self.old }
        ensures room { self.new.frontier.room ≡ self.old.frontier.room }
    {
        self.prune();
        if let Some(hand) = self.kept(node) {
            return self.unless_over(hand);
        }
        self.settle(node);
        let Some(hand) = self.take() else {
            return None;
        };
        self.unless_over(hand)
    }

    /// The same after a split: the child of the greater bound stays in hand, and of equal ones that of the greater counts.
    pub(crate) fn pick_child(&mut self, first: u32) -> Option<Hand>
        requires few { first < 4_000_000_000 }
        requires less { IsInHand self.old.frontier first }
        requires more { IsInHand self.old.frontier (first + 1) }
        requires there { first + 1 < length self.old.visited }
        ensures state { self.new ≡ picked_state (wanted_child self.old.visited first) (settled (other_child self.old.visited first) self.old) }
        ensures hand { result ≡ picked_hand (wanted_child self.old.visited first) (settled (other_child self.old.visited first) self.old) }
        ensures next { (p : Program) (level : ℤ) → IsDivided p self.old first level → IsAt p self.new result }
        ensures budget { budget_of self.new ≡ budget_of self.old }
        ensures room { self.new.frontier.room ≡ self.old.frontier.room }
    {
        if is_better(self.visited.as_slice(), first) {
            self.settle(first + 1);
            return self.pick(first);
        }
        self.settle(first);
        self.pick(first + 1)
    }
}

/// Whether the first of two children can be split and has the greater bound.
fn is_better(visited: &[Visited], first: u32) -> bool
    requires few { first < 4_000_000_000 }
    requires there { first + 1 < length visited.now }
    ensures { result ≡ is_better visited.now first }
{
    let (less, less_bound) = stance(visited, first);
    let (more, more_bound) = stance(visited, first + 1);
    is_parted(less) && (!is_parted(more) || more_bound < less_bound)
}

fn is_parted(known: Known) -> bool
    ensures { result ≡ is_parted known }
{
    match known {
        Known::Parted { cell: _, at: _ } => true,
        _ => false,
    }
}

/// Whether there is a number, and it is above the bound.
fn is_above(most: Option<i128>, bound: i128) -> bool
    ensures { result ≡ is_above most bound }
{
    match most {
        Some(most) => bound < most,
        None => false,
    }
}

/// What is known of a node, and its bound.
fn stance(visited: &[Visited], node: u32) -> (Known, i128)
    requires { node < length visited.now }
    ensures { result ≡ ((visited_at visited.now node).known, (visited_at visited.now node).bound) }
{
    let visited = &visited[node as usize];
    (visited.known, visited.bound)
}

/// The worth of what was found.
pub(crate) fn worth_of(found: &Option<Found>) -> Option<i128>
    ensures { result ≡ value_found found.now }
{
    match found {
        Some(found) => Some(found.value),
        None => None,
    }
}

/// Whether what was found is worth so much.
pub(crate) fn is_worth(found: &Option<Found>, value: i128) -> bool
    ensures { result ≡ is_worth found.now value }
{
    match found {
        Some(found) => value <= found.value,
        None => false,
    }
}

/// The greater of two bounds, of which the first may be none.
fn raised(bound: Option<i128>, other: i128) -> Option<i128>
    ensures { result ≡ raised bound other }
{
    match bound {
        Some(bound) => Some(bound.max(other)),
        None => Some(other),
    }
}
