ghost use Rattle.std.specs.Prelude.{◌≡◌, ℕ, ◌<ℤ◌, ◌*ℤ◌, int_lt, true, List, ℤ, pos, Some, None};
ghost use Rattle.pc_program_bound.specs.declared.program.Program.{Program};
ghost use Rattle.pc_program_bound.specs.Allocation.{constraints_of, worth, IsRelaxed, IsBox, IsProgram};
ghost use Rattle.pc_program_bound.specs.Bound.{raw_bound, without_gain};
ghost use Rattle.pc_simplex_tableau.specs.Numbers.{first_below};
ghost use Rattle.pc_simplex_tableau.specs.Tableau.{Tableau, Columns, entering};
ghost use Rattle.pc_simplex_tableau.specs.Relaxation.{left_of, one_at, phase_one, has_helper, multipliers, IsFrame};
ghost use Rattle.pc_simplex_tableau.specs.Standing.{IsStanding, gain_one, gain_two};

/// Where no column enters, the numbers that the columns stand at are a relaxed allocation, and its worth is the bound of the multipliers.
pub fn ends_are_relaxed()
    ensures { (p : Program) (floors caps : List ℕ) (f : Columns) (t : Tableau) → IsProgram p → IsBox p floors caps → IsFrame p floors caps f → f.helper ≡ Some 0 → IsStanding p floors (gain_two p) f t → entering f t ≡ None → (d : ℕ) × (counts : List ℕ) × IsRelaxed p floors caps d counts × (t.weight *ℤ worth p counts ≡ pos d *ℤ raw_bound p floors caps (multipliers p t t.weight)) }
{}

/// Where no column enters in phase one and a helper still holds something, the multipliers show that the box has no allocation.
pub fn helpers_left_mean_void()
    ensures { (p : Program) (floors caps : List ℕ) (t : Tableau) → IsProgram p → IsBox p floors caps → IsStanding p floors (gain_one p floors) (phase_one p floors caps) t → entering (phase_one p floors caps) t ≡ None → has_helper (phase_one p floors caps) t ≡ true → raw_bound (without_gain p) floors caps (multipliers p t (pos 1)) <ℤ pos 0 }
{}

/// A constraint that the floors of its cells exceed shows that the box has no allocation.
pub fn short_constraints_mean_void()
    ensures { (p : Program) (floors caps : List ℕ) (j : ℕ) → IsProgram p → IsBox p floors caps → first_below (constraints_of p) (λ k. int_lt (left_of p floors k) (pos 0)) ≡ Some j → raw_bound (without_gain p) floors caps (one_at p j) <ℤ pos 0 }
{}
