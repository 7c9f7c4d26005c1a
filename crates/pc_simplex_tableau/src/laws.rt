ghost use Rattle.std.specs.Prelude.{◌≡◌, ℕ, ◌<◌, false, ◌<ℤ◌, length, List, ℤ, pos, Some, None};
ghost use Rattle.pc_program_bound.specs.declared.program.Program.{Program};
ghost use Rattle.pc_simplex_tableau.specs.declared.step.Step.{Step};
ghost use Rattle.pc_simplex_tableau.specs.Tableau.{Tableau, Columns, is_helper, range_of, turned, pivoted, entering, deciding, after_step, run, ended};
ghost use Rattle.pc_simplex_tableau.specs.Standing.{entry_at, basic_at, value_at, IsFeasible, HasRoom, IsMeant, IsStanding};

/// A column that is turned, which has an end, leaves the meaning of the rows.
pub fn turns_keep_meaning()
    ensures { (p : Program) (floors : List ℕ) (gain : ℕ → ℤ) (f : Columns) (c u : ℕ) (t : Tableau) → IsMeant p floors gain f t → c < f.count → range_of f c ≡ Some u → IsMeant p floors gain f (turned f c u t) }
{}

/// So does a pivot at a column that is no helper, in a row whose entry there is positive.
pub fn pivots_keep_meaning()
    ensures { (p : Program) (floors : List ℕ) (gain : ℕ → ℤ) (f : Columns) (c r : ℕ) (t : Tableau) → IsMeant p floors gain f t → c < f.count → is_helper f c ≡ false → r < length t.rows → pos 0 <ℤ entry_at t r c → IsMeant p floors gain f (pivoted c r t) }
{}

/// A column that is not basic and has room up to its end leaves each basic column within its range when it is turned.
pub fn turns_keep_standing()
    ensures { (p : Program) (floors : List ℕ) (gain : ℕ → ℤ) (f : Columns) (c u : ℕ) (t : Tableau) → IsStanding p floors gain f t → c < f.count → range_of f c ≡ Some u → ((i : ℕ) → i < length t.rows → basic_at t i ≡ c → ⊥) → HasRoom f c t (pos u) (pos 1) → IsStanding p floors gain f (turned f c u t) }
{}

/// So does a pivot in a row up to whose value, over its entry, the column has room.
pub fn pivots_keep_standing()
    ensures { (p : Program) (floors : List ℕ) (gain : ℕ → ℤ) (f : Columns) (c r : ℕ) (t : Tableau) → IsStanding p floors gain f t → c < length f.ranges → r < length t.rows → HasRoom f c t (value_at f t r) (entry_at t r c) → IsStanding p floors gain f (pivoted c r t) }
{}

/// A column has room up to the least of its limits.
pub fn limits_leave_room()
    ensures { (f : Columns) (c : ℕ) (t : Tableau) → IsFeasible f t → is_helper f c ≡ false → HasRoom f c t (deciding f c t).over (deciding f c t).under }
{}

/// A step keeps all that stands.
pub fn steps_keep_standing()
    ensures { (p : Program) (floors : List ℕ) (gain : ℕ → ℤ) (f : Columns) (c : ℕ) (t : Tableau) → IsStanding p floors gain f t → entering f t ≡ Some c → IsStanding p floors gain f (after_step f c (deciding f c t).column (deciding f c t).way t) }
{}

/// So do all steps of a phase, and where they end no column enters.
pub fn runs_keep_standing()
    ensures { (p : Program) (floors : List ℕ) (gain : ℕ → ℤ) (f : Columns) (left : ℕ) (steps : List Step) (t : Tableau) (rest : ℕ) (taken : List Step) (after : Tableau) → IsStanding p floors gain f t → run f left steps t ≡ ended rest taken after → IsStanding p floors gain f after × (entering f after ≡ None) }
{}
