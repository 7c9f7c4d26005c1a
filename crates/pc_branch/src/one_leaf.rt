ghost use Rattle.std.specs.Prelude.{◌≡◌, ◌≤◌, ◌∷◌, [], IfOk};
ghost use Rattle.pc_program_bound.specs.declared.program.Program.{Program};
ghost use Rattle.pc_program.specs.Solved.{IsSolved, AreFitMultipliers};
ghost use Rattle.pc_branch.specs.Outcome.{IsOutcome, IsDecided};

use crate::outcome::Outcome;
use pc_list::Seq;
use pc_model::{Tree, TreeNode};
use pc_num::Memory;
use pc_program::Solved;
use std::alloc::Global;

/// The outcome for a program that is solved without a search: a tree of one leaf, whatever the number of nodes.
pub(crate) fn in_one_leaf(alloc: Global, solved: Solved, nodes: u32) -> Result<Outcome, Memory>
    requires nodes { 1 ≤ nodes }
    requires fits { AreFitMultipliers solved }
    ensures outcome { (p : Program) → IsSolved p solved → IfOk result (IsOutcome p nodes) }
    ensures decided { IfOk result IsDecided }
{
    match solved {
        Solved::Best {
            counts,
            value,
            mult,
        } => {
            let tree = tree_of_one(alloc, TreeNode::Bound { mult })?;
            Ok(Outcome::Best {
                counts,
                value,
                tree,
            })
        }
        Solved::Nothing { mult } => {
            let tree = tree_of_one(alloc, TreeNode::Void { mult })?;
            Ok(Outcome::Nothing { tree })
        }
    }
}

fn tree_of_one(alloc: Global, leaf: TreeNode) -> Result<Tree, Memory>
    ensures { IfOk result (λ tree. tree.nodes ≡ leaf ∷ []) }
{
    let mut nodes = Seq::new(alloc);
    nodes.push(leaf)?;
    Ok(Tree { nodes })
}
