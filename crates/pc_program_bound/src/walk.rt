ghost use Rattle.std.specs.Prelude.{◌≡◌, ◌<◌, length, All, IfOk, slice_set};
ghost use Rattle.pc_program_bound.specs.Sums.{nat_at};
ghost use Rattle.pc_program_bound.specs.Allocation.{IsProgram, IsBox};
ghost use Rattle.pc_program_bound.specs.Bound.{IsFit, IsMultiplier};
ghost use Rattle.pc_program_bound.specs.SplitTrees.{IsInPreorder, Proves, tree_of, bound_by, greater};
ghost use Rattle.pc_program_bound.specs.Walk.{HasFitNumbers, at_root, in_less, in_more, with_bound, IsStanding, IsAt, HasLeft, HasPassed};

use crate::{Program, dual_bound};
use pc_list::Seq;
use pc_model::{Mult, Tree, TreeNode};
use pc_num::Memory;
use std::alloc::Global;

/// A split of which the walk is in one part. Behind the lesser part the cap of the cell is put back, and the floor is
/// where the greater part begins; behind the greater part the floor is put back.
#[derive(Clone, Copy, Debug)]
pub(crate) enum OpenSplit {
    Less { cell: u32, cap: u64, floor: u64 },
    More { cell: u32, floor: u64 },
}

/// A walk at a node: the box there, the splits on the way to it, and the greatest bound of the leaves before. The ends
/// of the box change in place, so that a walk takes memory for one box and for the splits on the way.
#[derive(Debug, Drop)]
pub(crate) struct Walk {
    floors: Seq<u64>,
    caps: Seq<u64>,
    splits: Seq<OpenSplit>,
    most: Option<i128>,
}

/// The greatest bound of the leaves of a tree of splits, by a walk over its nodes; none where each leaf is void.
pub fn tree_bound(alloc: Global, p: &Program, tree: &Tree) -> Result<Option<i128>, Memory>
    requires program { IsProgram p.now }
    requires preorder { IsInPreorder tree.now.nodes }
    requires proves { Proves p.now p.now.floor p.now.cap (tree_of tree.now.nodes) }
    requires fits { All HasFitNumbers tree.now.nodes }
    ensures bound { IfOk result (λ bound. bound ≡ bound_by p.now p.now.floor p.now.cap (tree_of tree.now.nodes)) }
{
    let nodes = tree.nodes.as_slice();
    let mut walk = Walk::at_root(alloc, p)?;
    for node in nodes {
        walk = walk.pass(p, node)?;
    }
    Ok(walk.most)
}

impl Walk {
    fn at_root(alloc: Global, p: &Program) -> Result<Walk, Memory>
        ensures { IfOk result (λ walk. walk ≡ at_root p.now) }
    {
        Ok(Walk {
            floors: Seq::from_slice(alloc, p.floor.as_slice())?,
            caps: Seq::from_slice(alloc, p.cap.as_slice())?,
            splits: Seq::new(alloc),
            most: None,
        })
    }

    /// On to the next node: from a split to its lesser part, from a leaf to the next open box.
    fn pass(self, p: &Program, node: &TreeNode) -> Result<Walk, Memory>
        requires program { IsProgram p.now }
        requires stands { IsStanding self }
        requires at { IsAt p.now self node.now }
        ensures { IfOk result (HasPassed p.now self node.now) }
    {
        match node {
            TreeNode::Split { cell, at, .. } => self.enter_less(*cell, *at),
            TreeNode::Bound { mult } => self.with_bound(p, mult).leave(),
            TreeNode::Void { .. } => self.leave(),
        }
    }

    /// Into the lesser part of a split.
    fn enter_less(self, cell: u32, at: u64) -> Result<Walk, Memory>
        requires there { cell < length self.caps }
        requires below { at < nat_at self.caps cell }
        ensures { IfOk result (λ walk. walk ≡ in_less self cell at) }
    {
        let Walk {
            floors,
            caps,
            mut splits,
            most,
        } = self;
        let (caps, cap) = replaced(caps, cell, at);
        let floor = at + 1;
        splits.push(OpenSplit::Less { cell, cap, floor })?;
        Ok(Walk {
            floors,
            caps,
            splits,
            most,
        })
    }

    /// Into the greater part of a split whose lesser part is done.
    fn enter_more(self, cell: u32, cap: u64, floor: u64) -> Result<Walk, Memory>
        requires floors { cell < length self.floors }
        requires caps { cell < length self.caps }
        ensures { IfOk result (λ walk. walk ≡ in_more self cell cap floor) }
    {
        let Walk {
            floors,
            caps,
            mut splits,
            most,
        } = self;
        let (caps, _) = replaced(caps, cell, cap);
        let (floors, floor) = replaced(floors, cell, floor);
        splits.push(OpenSplit::More { cell, floor })?;
        Ok(Walk {
            floors,
            caps,
            splits,
            most,
        })
    }

    /// With the bound of a leaf taken into account.
    fn with_bound(self, p: &Program, mult: &Mult) -> Walk
        requires program { IsProgram p.now }
        requires inside { IsBox p.now self.floors self.caps }
        requires multiplier { IsMultiplier p.now mult.now }
        requires fits { All IsFit mult.now.by }
        ensures { result ≡ with_bound p.now self mult.now }
    {
        let Walk {
            floors,
            caps,
            splits,
            most,
        } = self;
        let bound = dual_bound(p, floors.as_slice(), caps.as_slice(), mult);
        Walk {
            floors,
            caps,
            splits,
            most: greater(most, bound),
        }
    }

    /// Out of the box of a leaf, and of each greater part that ends with it, into the next open box.
    fn leave(self) -> Result<Walk, Memory>
        requires { IsStanding self }
        ensures { IfOk result (HasLeft self) }
    {
        let Walk {
            mut floors,
            caps,
            splits,
            most,
        } = self;
        let mut splits = splits.into_vec();
        while let Some(split) = splits.pop() {
            match split {
                OpenSplit::More { cell, floor } => {
                    floors = replaced(floors, cell, floor).0;
                }
                OpenSplit::Less { cell, cap, floor } => {
                    let splits = Seq::from_vec(splits);
                    let walk = Walk {
                        floors,
                        caps,
                        splits,
                        most,
                    };
                    return walk.enter_more(cell, cap, floor);
                }
            }
        }
        Ok(Walk {
            floors,
            caps,
            splits: Seq::from_vec(splits),
            most,
        })
    }
}

/// The numbers with another one at a place, and the one that stood there.
fn replaced(numbers: Seq<u64>, place: u32, number: u64) -> (Seq<u64>, u64)
    requires { place < length numbers }
    ensures numbers { result.0 ≡ slice_set numbers place number }
    ensures before { result.1 ≡ nat_at numbers place }
{
    let mut numbers = numbers.into_vec();
    let before = numbers[place as usize];
    numbers[place as usize] = number;
    (Seq::from_vec(numbers), before)
}

/// The greater of two bounds, where none is below every number.
fn greater(a: Option<i128>, b: Option<i128>) -> Option<i128>
    ensures { result ≡ greater a b }
{
    let Some(first) = a else {
        return b;
    };
    let Some(second) = b else {
        return a;
    };
    Some(first.max(second))
}
