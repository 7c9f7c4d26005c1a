ghost use Rattle.std.specs.Prelude.{◌≡◌, ℕ, ◌<ℤ◌, ◌*ℤ◌, List, ℤ, pos, None};
ghost use Rattle.pc_model.specs.declared.tree.Mult.{Mult};
ghost use Rattle.pc_program_bound.specs.declared.program.Program.{Program};
ghost use Rattle.pc_program_bound.specs.Allocation.{worth, IsRelaxed, IsBox, IsProgram};
ghost use Rattle.pc_program_bound.specs.Bound.{raw_bound, without_gain};
ghost use Rattle.pc_simplex_tableau.specs.declared.step.Step.{Step};
ghost use Rattle.pc_simplex_tableau.specs.Tableau.{Tableau, entering};
ghost use Rattle.pc_simplex_tableau.specs.Relaxation.{phase_two, ending, at_vertex, at_void, multipliers};
ghost use Rattle.pc_simplex_tableau.specs.Standing.{IsStanding, gain_two};

/// The tableau in which the steps of a box end stands, and no column enters it.
pub fn vertices_stand()
    ensures { (p : Program) (floors caps : List ℕ) (steps : List Step) (t : Tableau) → IsProgram p → IsBox p floors caps → ending p floors caps ≡ at_vertex steps t → IsStanding p floors (gain_two p) (phase_two p floors caps) t × (entering (phase_two p floors caps) t ≡ None) }
{}

/// The vertex in which the steps of a box end is a relaxed allocation, whose worth is the bound of the multipliers there.
pub fn vertices_are_greatest()
    ensures { (p : Program) (floors caps : List ℕ) (steps : List Step) (t : Tableau) → IsProgram p → IsBox p floors caps → ending p floors caps ≡ at_vertex steps t → (d : ℕ) × (counts : List ℕ) × IsRelaxed p floors caps d counts × (t.weight *ℤ worth p counts ≡ pos d *ℤ raw_bound p floors caps (multipliers p t t.weight)) }
{}

/// Where the steps of a box end in nothing, the multipliers show that it has no allocation, nor a relaxed one.
pub fn voids_hold_nothing()
    ensures { (p : Program) (floors caps : List ℕ) (steps : List Step) (mult : Mult) → IsProgram p → IsBox p floors caps → ending p floors caps ≡ at_void steps mult → raw_bound (without_gain p) floors caps mult <ℤ pos 0 }
{}
