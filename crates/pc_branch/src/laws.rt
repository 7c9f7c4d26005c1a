ghost use Rattle.std.specs.Prelude.{◌≡◌, ◌≤◌, ◌<◌, ◌*◌, ◌^◌, ℕ, ℤ, pos, neg_ℤ, ◌≤ℤ◌, ◌<ℤ◌, List, Option, Some, None, MatchOption, ⊤};
ghost use Rattle.pc_num.specs.declared.Frac.{Frac};
ghost use Rattle.pc_model.specs.declared.tree.Mult.{Mult};
ghost use Rattle.pc_program_bound.specs.declared.program.Program.{Program};
ghost use Rattle.pc_program_bound.specs.Sums.{nat_at};
ghost use Rattle.pc_program_bound.specs.Allocation.{IsProgram, IsBox, IsAllocation, cells_of, worth};
ghost use Rattle.pc_program_bound.specs.Bound.{IsMultiplier, HasFitWidth, bound_of};
ghost use Rattle.pc_program_bound.specs.SplitTrees.{less_caps, more_floors};
ghost use Rattle.pc_simplex_tableau.specs.Point.{vertex, IsRelaxation};
ghost use Rattle.pc_simplex.specs.Vertices.{IsVertex};
ghost use Rattle.pc_branch.specs.Licence.{Splits, IsWhole, IsSplitOf, IsLicence, HasOpen, no_multipliers, first_bound, choices};
ghost use Rattle.pc_branch.specs.Ends.{HasSmallGains, whole_counts};

/// Where the budget is at least twice the number of the start box's counts, a licence has an open leaf whose steps
/// ended in no point: no search that is given so many nodes is broken off for want of them.
pub fn large_budgets_leave_stuck_leaves()
    ensures { (p : Program) (budget : ℕ) (e : ℤ) (tree : Splits) → IsProgram p → IsLicence p budget e tree → 2 * choices p.cap ≤ budget → HasOpen p ⊥ e (first_bound p) p.floor p.cap tree }
{}

/// The bound of a part of a box is at most what multipliers prove of the whole box: where they are the same, and where
/// the part has its own.
pub fn parts_are_bounded()
    ensures less { (p : Program) (floors caps : List ℕ) (cell at : ℕ) (mult : Mult) → IsMultiplier p mult → nat_at floors cell ≤ at → at < nat_at caps cell → bound_of p floors (less_caps caps cell at) mult ≤ℤ bound_of p floors caps mult }
    ensures more { (p : Program) (floors caps : List ℕ) (cell at : ℕ) (mult : Mult) → IsMultiplier p mult → nat_at floors cell ≤ at → at < nat_at caps cell → bound_of p (more_floors floors cell at) caps mult ≤ℤ bound_of p floors caps mult }
    ensures own_less { (p : Program) (floors caps : List ℕ) (cell at : ℕ) (above mult : Mult) (point : List Frac) → IsProgram p → IsMultiplier p above → IsBox p floors caps → nat_at floors cell ≤ at → at < nat_at caps cell → IsRelaxation p floors (less_caps caps cell at) (vertex point mult) → bound_of p floors (less_caps caps cell at) mult ≤ℤ bound_of p floors caps above }
    ensures own_more { (p : Program) (floors caps : List ℕ) (cell at : ℕ) (above mult : Mult) (point : List Frac) → IsProgram p → IsMultiplier p above → IsBox p floors caps → nat_at floors cell ≤ at → at < nat_at caps cell → IsRelaxation p (more_floors floors cell at) caps (vertex point mult) → bound_of p (more_floors floors cell at) caps mult ≤ℤ bound_of p floors caps above }
{}

/// Where a count of the point is not whole, its box has counts below and above it.
pub fn splits_leave_counts()
    ensures { (p : Program) (floors caps : List ℕ) (point : List Frac) (mult : Mult) (cell at : ℕ) → IsVertex p floors caps point mult → cell < cells_of p → IsSplitOf point cell at → (nat_at floors cell ≤ at) × (at < nat_at caps cell) }
{}

/// A whole point is an allocation, and it is worth the bound of its multipliers.
pub fn whole_points_are_allocations()
    ensures allowed { (p : Program) (floors caps : List ℕ) (point : List Frac) (mult : Mult) → IsVertex p floors caps point mult → IsWhole point → IsAllocation p floors caps (whole_counts point) }
    ensures worth { (p : Program) (floors caps : List ℕ) (point : List Frac) (mult : Mult) → IsVertex p floors caps point mult → IsWhole point → worth p (whole_counts point) ≡ bound_of p floors caps mult }
{}

/// The numbers of a search fit where gains are small.
pub fn small_gains_fit()
    ensures { (p : Program) → IsProgram p → HasSmallGains p → HasFitWidth p (no_multipliers p) }
{}

/// The bound of a licence is small where gains are.
pub fn licences_are_small()
    ensures { (p : Program) (budget : ℕ) (e : ℤ) (tree : Splits) → IsProgram p → HasSmallGains p → IsLicence p budget e tree → (neg_ℤ (pos (10 ^ 37)) ≤ℤ e) × (e ≤ℤ pos (10 ^ 37)) }
{}
