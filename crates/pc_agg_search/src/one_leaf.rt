ghost use Rattle.std.specs.Prelude.{◌≡◌, IfOk, pos, replicate};
ghost use Rattle.pc_agg_search.specs.Flat.{flat_tree};

use pc_list::Seq;
use pc_model::{Mult, Tree, TreeNode};
use pc_num::Memory;
use std::alloc::Global;

/// The tree of one leaf, whose multipliers are 0. It shows the bound that the gains and caps alone give.
pub fn flat_tree(alloc: Global, constraints: usize) -> Result<Tree, Memory>
    ensures { IfOk result (λ tree. tree ≡ flat_tree constraints) }
{
    let by = no_multipliers(alloc, constraints)?;
    let mut nodes = Seq::new(alloc);
    let mult = Mult { by, den: 1 };
    nodes.push(TreeNode::Bound { mult })?;
    Ok(Tree { nodes })
}

fn no_multipliers(alloc: Global, constraints: usize) -> Result<Seq<i128>, Memory>
    ensures { IfOk result (λ by. by ≡ replicate constraints (pos 0)) }
{
    let by = vec![in alloc; 0; constraints]?;
    Ok(Seq::from_vec(by))
}
