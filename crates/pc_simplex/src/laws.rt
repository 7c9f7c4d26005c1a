ghost use Rattle.std.specs.Prelude.{◌≡◌, ℕ, List, pos, ◌*ℤ◌, ◌≤ℤ◌};
ghost use Rattle.pc_num.specs.declared.Frac.{Frac};
ghost use Rattle.pc_model.specs.declared.tree.Mult.{Mult};
ghost use Rattle.pc_program_bound.specs.declared.program.Program.{Program};
ghost use Rattle.pc_program_bound.specs.Allocation.{worth, IsRelaxed, IsBox, IsProgram};
ghost use Rattle.pc_program_bound.specs.Bound.{IsVoid};
ghost use Rattle.pc_simplex_tableau.specs.Point.{Relaxation, vertex, void, IsRelaxation};
ghost use Rattle.pc_simplex.specs.Vertices.{IsVertex};

/// The point in which the steps of a box end is a relaxed allocation, whose worth is the bound of the multipliers.
pub fn vertices_are_greatest_points()
    ensures { (p : Program) (floors caps : List ℕ) (point : List Frac) (mult : Mult) → IsProgram p → IsBox p floors caps → IsRelaxation p floors caps (vertex point mult) → IsVertex p floors caps point mult }
{}

/// No other relaxed allocation of the box is worth more.
pub fn vertices_are_worth_most()
    ensures { (p : Program) (floors caps : List ℕ) (point : List Frac) (mult : Mult) (v : IsVertex p floors caps point mult) (den : ℕ) (counts : List ℕ) → IsRelaxed p floors caps den counts → (worth p counts *ℤ pos v.den) ≤ℤ (worth p v.counts *ℤ pos den) }
{}

/// Where the steps of a box end in nothing, the multipliers show that it has no allocation, nor a relaxed one.
pub fn voids_show_their_boxes()
    ensures { (p : Program) (floors caps : List ℕ) (mult : Mult) → IsProgram p → IsBox p floors caps → IsRelaxation p floors caps (void mult) → IsVoid p floors caps mult }
{}

/// A box has one relaxation.
pub fn boxes_have_one_relaxation()
    ensures { (p : Program) (floors caps : List ℕ) (r s : Relaxation) → IsProgram p → IsBox p floors caps → IsRelaxation p floors caps r → IsRelaxation p floors caps s → r ≡ s }
{}
