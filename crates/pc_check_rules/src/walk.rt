ghost use Rattle.std.specs.Prelude.{◌≡◌, ◌+◌, ◌<◌, ◌^◌, length, All, IfOk, slice_set};
ghost use Rattle.pc_program_bound.specs.Sums.{nat_at};
ghost use Rattle.pc_program_bound.specs.Allocation.{IsProgram, IsBox};
ghost use Rattle.pc_program_bound.specs.Bound.{without_gain};
ghost use Rattle.pc_program_bound.specs.SplitTrees.{IsInPreorder, greater};
ghost use Rattle.pc_proof.specs.Form.{IsFormedNode};
ghost use Rattle.pc_check_rules.specs.Walk.{IsTreeFinding, IsStanding, IsStep, HasLeft, at_root, in_less, in_more, with_bound, rule_number};

use crate::halt::Halt;
use crate::rules::{MULTIPLIERS, SPLITS};
use crate::tree_line::{Corner, Finding, judge_line};
use pc_list::Seq;
use pc_model::TreeNode;
use pc_num::Memory;
use pc_program_bound::Program;
use std::alloc::Global;

/// A split of which the walk is in one part. Behind the lesser part the cap of the cell is put back, and the floor is
/// where the greater part begins; behind the greater part the floor is put back.
#[derive(Clone, Copy)]
enum Turn {
    Less { cell: u32, cap: u64, floor: u64 },
    More { cell: u32, floor: u64 },
}

/// A walk before a node: the box there, the splits on the way to it, and the greatest bound of the leaves before. The
/// box changes in place, so that a walk takes memory for one box and for the splits on the way.
#[derive(Drop)]
struct Walk {
    corner: Corner,
    turns: Seq<Turn>,
    most: Option<i128>,
}

/// The bound that a search tree shows, which is the greatest one of its leaves, and none where all of them are void.
/// `line` is the number of its first line.
pub(crate) fn judge_tree(
    alloc: Global,
    program: &Program,
    nodes: &[TreeNode],
    line: u64,
) -> Result<Option<i128>, Halt>
    requires program { IsProgram program.now }
    requires preorder { IsInPreorder nodes.now }
    requires fits { All IsFormedNode nodes.now }
    requires few { line + length nodes.now < 2 ^ 64 }
    ensures { IsTreeFinding line program.now nodes.now result }
{
    let plain = without_gain(alloc, program)?;
    let mut walk = Walk::at_root(alloc, program)?;
    for (place, node) in nodes.iter().enumerate() {
        let Some(further) = walk.step(program, &plain, node)? else {
            return Err(Halt::Broken {
                line: line + place as u64,
                rule: rule_number(node),
            });
        };
        walk = further;
    }
    Ok(walk.most)
}

impl Walk {
    fn at_root(alloc: Global, program: &Program) -> Result<Walk, Memory>
        ensures { IfOk result (λ walk. walk ≡ at_root program.now) }
    {
        let corner = Corner {
            floors: Seq::from_slice(alloc, program.floor.as_slice())?,
            caps: Seq::from_slice(alloc, program.cap.as_slice())?,
        };
        Ok(Walk {
            corner,
            turns: Seq::new(alloc),
            most: None,
        })
    }

    /// Past the line of the node that comes next, or none where the line breaks its rule.
    fn step(
        self,
        program: &Program,
        plain: &Program,
        node: &TreeNode,
    ) -> Result<Option<Walk>, Memory>
        requires program { IsProgram program.now }
        requires plain { plain.now ≡ without_gain program.now }
        requires corner { IsBox program.now self.corner.floors self.corner.caps }
        requires stands { IsStanding self }
        requires formed { IsFormedNode node.now }
        ensures { IfOk result (IsStep program.now self node.now) }
    {
        match judge_line(program, plain, &self.corner, node) {
            Finding::Broken => Ok(None),
            Finding::Sound(bound) => {
                let walk = self.with_bound(bound).leave()?;
                Ok(Some(walk))
            }
            Finding::Splits => match node {
                TreeNode::Split { cell, at, .. } => {
                    let walk = self.enter_less(*cell, *at)?;
                    Ok(Some(walk))
                }
                _ => unreachable!(),
            },
        }
    }

    /// Into the lesser part of a split.
    fn enter_less(self, cell: u32, at: u64) -> Result<Walk, Memory>
        requires there { cell < length self.corner.caps }
        requires below { at < nat_at self.corner.caps cell }
        ensures { IfOk result (λ walk. walk ≡ in_less self cell at) }
    {
        let Walk {
            corner,
            mut turns,
            most,
        } = self;
        let Corner { floors, caps } = corner;
        let (caps, cap) = replaced(caps, cell, at);
        let floor = at + 1;
        turns.push(Turn::Less { cell, cap, floor })?;
        Ok(Walk {
            corner: Corner { floors, caps },
            turns,
            most,
        })
    }

    /// Into the greater part of a split whose lesser part is done.
    fn enter_more(self, cell: u32, cap: u64, floor: u64) -> Result<Walk, Memory>
        requires floors { cell < length self.corner.floors }
        requires caps { cell < length self.corner.caps }
        ensures { IfOk result (λ walk. walk ≡ in_more self cell cap floor) }
    {
        let Walk {
            corner,
            mut turns,
            most,
        } = self;
        let Corner { floors, caps } = corner;
        let (caps, _) = replaced(caps, cell, cap);
        let (floors, floor) = replaced(floors, cell, floor);
        turns.push(Turn::More { cell, floor })?;
        Ok(Walk {
            corner: Corner { floors, caps },
            turns,
            most,
        })
    }

    /// With the bound of a leaf taken into account, which is none where the leaf is void.
    fn with_bound(self, bound: Option<i128>) -> Walk
        ensures { result ≡ with_bound self bound }
    {
        let Walk {
            corner,
            turns,
            most,
        } = self;
        Walk {
            corner,
            turns,
            most: greater(most, bound),
        }
    }

    /// Out of the box of a leaf, and of each greater part that ends with it, into the next open box.
    fn leave(self) -> Result<Walk, Memory>
        requires { IsStanding self }
        ensures { IfOk result (HasLeft self) }
    {
        let Walk {
            corner,
            turns,
            most,
        } = self;
        let Corner { mut floors, caps } = corner;
        let mut turns = turns.into_vec();
        while let Some(turn) = turns.pop() {
            match turn {
                Turn::More { cell, floor } => {
                    floors = replaced(floors, cell, floor).0;
                }
                Turn::Less { cell, cap, floor } => {
                    let walk = Walk {
                        corner: Corner { floors, caps },
                        turns: Seq::from_vec(turns),
                        most,
                    };
                    return walk.enter_more(cell, cap, floor);
                }
            }
        }
        Ok(Walk {
            corner: Corner { floors, caps },
            turns: Seq::from_vec(turns),
            most,
        })
    }
}

/// The numbers with another one at a place, and the one that stood there.
fn replaced(numbers: Seq<u64>, place: u32, number: u64) -> (Seq<u64>, u64)
    requires { place < length numbers }
    ensures numbers { result.0 ≡ slice_set numbers place number }
    ensures before { result.1 ≡ nat_at numbers place }
{
    let mut numbers = numbers.into_vec();
    let before = numbers[place as usize];
    numbers[place as usize] = number;
    (Seq::from_vec(numbers), before)
}

/// The number of the rule that a line is tried by.
fn rule_number(node: &TreeNode) -> u8
    ensures { result ≡ rule_number node.now }
{
    match node {
        TreeNode::Split { .. } => SPLITS,
        TreeNode::Bound { .. } => MULTIPLIERS,
        TreeNode::Void { .. } => MULTIPLIERS,
    }
}

/// The greater of two bounds, where none is below every number.
fn greater(a: Option<i128>, b: Option<i128>) -> Option<i128>
    ensures { result ≡ greater a b }
{
    let Some(first) = a else {
        return b;
    };
    let Some(second) = b else {
        return a;
    };
    Some(first.max(second))
}

/// The program with gains of 0, which shows boxes to be void.
fn without_gain(alloc: Global, p: &Program) -> Result<Program, Memory>
    ensures { IfOk result (λ plain. plain ≡ without_gain p.now) }
{
    let gain = vec![in alloc; 0i128; p.masks.len()]?;
    Ok(Program {
        masks: p.masks.clone()?,
        least: p.least.clone()?,
        most: p.most.clone()?,
        floor: p.floor.clone()?,
        cap: p.cap.clone()?,
        gain: Seq::from_vec(gain),
    })
}
