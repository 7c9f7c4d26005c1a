ghost use Rattle.std.specs.Prelude.{◌≡◌, List, None, false, int_lt, ℕ, ℤ, pos};
ghost use Rattle.pc_program_bound.specs.declared.program.Program.{Program};
ghost use Rattle.pc_program_bound.specs.Allocation.{IsBox, IsProgram, constraints_of};
ghost use Rattle.pc_simplex_tableau.specs.Numbers.{first_below};
ghost use Rattle.pc_simplex_tableau.specs.Tableau.{Tableau, Columns};
ghost use Rattle.pc_simplex_tableau.specs.Relaxation.{phase_one, phase_two, left_of, first_tableau, with_gains, freed, has_helper};
ghost use Rattle.pc_simplex_tableau.specs.Standing.{IsStanding, gain_one, gain_two};
ghost use Rattle.pc_simplex_tableau.specs.Freed.{IsStandingRows};

/// A tableau whose rows stand, with any objective row that is mixed of the constraints, stands once that is freed.
pub fn freed_rows_stand()
    ensures { (p : Program) (floors : List ℕ) (gain : ℕ → ℤ) (f : Columns) (t : Tableau) → IsStandingRows p floors gain f t → IsStanding p floors gain f (freed t) }
{}

/// What stands in the first phase and has no helper left above 0 stands in the second, with the gains as objective row.
pub fn second_phase_stands()
    ensures { (p : Program) (floors caps : List ℕ) (t : Tableau) → IsStanding p floors (gain_one p floors) (phase_one p floors caps) t → has_helper (phase_one p floors caps) t ≡ false → IsStanding p floors (gain_two p) (phase_two p floors caps) (freed (with_gains p t)) }
{}

/// The first tableau stands in the first phase, where the floors alone exceed no constraint.
pub fn first_rows_stand()
    ensures { (p : Program) (floors caps : List ℕ) → IsProgram p → IsBox p floors caps → first_below (constraints_of p) (λ j. int_lt (left_of p floors j) (pos 0)) ≡ None → IsStanding p floors (gain_one p floors) (phase_one p floors caps) (freed (first_tableau p floors caps)) }
{}
