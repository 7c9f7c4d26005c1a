ghost use Rattle.std.specs.Prelude.{◌*◌, ◌≤◌, ℕ, Bool};
ghost use Rattle.pc_program_bound.specs.declared.program.Program.{Program};
ghost use Rattle.pc_program_bound.specs.Allocation.{cells_of, constraints_of};
ghost use Rattle.pc_program.specs.Settled.{HasOneBits};
ghost use Rattle.pc_nested.specs.Nested.{AreNestedPairs, IsNested};
ghost use Rattle.pc_nested.specs.Few.{AreCovered, DifferOnSides};

/// Constraints that share no cell are nested.
#[tactic(auto, using(crate::proofs::Shared::one_bits))]
pub fn one_bits_are_nested()
    ensures { (p : Program) → HasOneBits p → IsNested p }
{}

/// Nested constraints have at most two cells each, one of a side, where the cells of a side differ.
#[tactic(auto, using(crate::proofs::Few::few))]
pub fn nested_cells_are_few()
    ensures { (p : Program) (side : ℕ → Bool) → AreNestedPairs p → AreCovered p → DifferOnSides p side → cells_of p ≤ 2 * constraints_of p }
{}
