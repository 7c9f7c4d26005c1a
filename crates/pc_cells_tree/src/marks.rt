ghost use Rattle.std.specs.Prelude.{◌≡◌, ℕ, List};
ghost use Rattle.pc_model.specs.declared.tree.CutNode.{CutNode};
ghost use Rattle.pc_model.specs.CutTrees.{CutShape};
ghost use Rattle.pc_cells_tree.specs.Walking.{HasCutsAt, bare};

/// Trees with the cuts of one list of nodes differ in their marks alone.
#[tactic(auto, using(crate::proofs::BareTrees::same_bare))]
pub fn marked_trees_have_the_same_cuts()
    ensures { (nodes : List CutNode) (k : ℕ) (t u : CutShape) → HasCutsAt nodes k t → HasCutsAt nodes k u → bare t ≡ bare u }
{}
