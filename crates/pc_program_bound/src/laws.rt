ghost use Rattle.std.specs.Prelude.{◌≡◌, ℕ, List, ℤ, pos, ◌*ℤ◌, ◌<ℤ◌, ◌≤ℤ◌};
ghost use Rattle.pc_model.specs.declared.tree.Mult.{Mult};
ghost use Rattle.pc_program_bound.specs.declared.program.Program.{Program};
ghost use Rattle.pc_program_bound.specs.Allocation.{worth, IsAllocation, IsRelaxed};
ghost use Rattle.pc_program_bound.specs.Bound.{raw_bound, bound_of, IsVoid};
ghost use Rattle.pc_program_bound.specs.SplitTrees.{SplitTree, nodes_from, tree_of, bound_by, Proves, IsWithin};

/// Each allocation of a box is worth at most the bound that multipliers prove of it.
#[tactic(auto, using(crate::proofs::Duality::laws))]
pub fn bounds_hold()
    ensures { (p : Program) (floors caps counts : List ℕ) (mult : Mult) → IsAllocation p floors caps counts → pos 0 <ℤ mult.den → worth p counts ≤ℤ bound_of p floors caps mult }
{}

/// So is each relaxed one, before the bound is rounded down.
#[tactic(auto, using(crate::proofs::Duality::duality))]
pub fn relaxed_bounds_hold()
    ensures { (p : Program) (floors caps : List ℕ) (den : ℕ) (counts : List ℕ) (mult : Mult) → IsRelaxed p floors caps den counts → (mult.den *ℤ worth p counts) ≤ℤ (pos den *ℤ raw_bound p floors caps mult) }
{}

/// A box that multipliers show to be void has no allocation.
#[tactic(auto, using(crate::proofs::Duality::laws))]
pub fn void_means_none()
    ensures { (p : Program) (floors caps counts : List ℕ) (mult : Mult) → IsVoid p floors caps mult → IsAllocation p floors caps counts → ⊥ }
{}

/// Each allocation of a box is worth at most the bound of a tree of splits of it; where that is nothing, there is none.
#[tactic(auto, using(crate::proofs::TreeBounds::tree_laws))]
pub fn trees_bound_allocations()
    ensures { (p : Program) (floors caps counts : List ℕ) (t : SplitTree) → Proves p floors caps t → IsAllocation p floors caps counts → IsWithin (worth p counts) (bound_by p floors caps t) }
{}

/// The nodes of a tree of splits in preorder are those of no other tree.
#[tactic(auto, using(crate::proofs::TreeNodes::nodes_spell))]
pub fn nodes_spell_their_splits()
    ensures { (t : SplitTree) → tree_of (nodes_from 0 t) ≡ t }
{}
