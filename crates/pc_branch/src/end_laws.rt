ghost use Rattle.std.specs.Prelude.{◌≡◌, ℕ, ℤ, ◌<ℤ◌, ◌≤ℤ◌, List, Option, Some, None, MatchOption, ⊤};
ghost use Rattle.pc_program_bound.specs.declared.program.Program.{Program};
ghost use Rattle.pc_program_bound.specs.Allocation.{IsProgram, IsAllocation, worth};
ghost use Rattle.pc_program_bound.specs.Bound.{HasFitWidth};
ghost use Rattle.pc_frontier.specs.Frontier.{Seen};
ghost use Rattle.pc_frontier.specs.Boxes.{IsLeaf};
ghost use Rattle.pc_branch.specs.declared.visited.Visited.{Visited};
ghost use Rattle.pc_branch.specs.Licence.{no_multipliers};
ghost use Rattle.pc_branch.specs.Outcome.{IsBest, IsNothing, IsSpent};
ghost use Rattle.pc_branch.specs.Grown.{visited_at, value_of, proof_of};
ghost use Rattle.pc_branch.specs.Searching.{IsSearching};
ghost use Rattle.pc_branch.specs.Ends.{IsLeft};

/// A search whose level has come down to the worth of what was found has found the best.
pub fn searches_show_the_best()
    ensures { (p : Program) (budget : ℕ) (f : Seen) (visited : List Visited) (counts : List ℕ) (halted : Option ℤ) (hand : List ℕ) (s : IsSearching p budget f visited (Some counts) halted hand (worth p counts)) → IsProgram p → HasFitWidth p (no_multipliers p) → IsBest p budget counts (worth p counts) (proof_of visited s.tree) }
{}

/// A search all of whose leaves are void shows that there is no allocation.
pub fn searches_show_nothing()
    ensures { (p : Program) (budget : ℕ) (f : Seen) (visited : List Visited) (halted : Option ℤ) (hand : List ℕ) (level : ℤ) (s : IsSearching p budget f visited None halted hand level) → IsProgram p → HasFitWidth p (no_multipliers p) → ((n : ℕ) → IsLeaf f.nodes n → value_of (visited_at visited n) ≡ None) → IsNothing p budget (proof_of visited s.tree) }
{}

/// A search with a leaf at its level that could not be split shows what was left open.
pub fn searches_show_what_is_left()
    ensures { (p : Program) (budget : ℕ) (f : Seen) (visited : List Visited) (found : Option (List ℕ)) (halted : Option ℤ) (hand : List ℕ) (e : ℤ) (s : IsSearching p budget f visited found halted hand e) (n : ℕ) → IsProgram p → HasFitWidth p (no_multipliers p) → IsLeft f visited e n → MatchOption found ⊤ (λ counts. worth p counts <ℤ e) → IsSpent p budget e found (proof_of visited s.tree) }
{}

/// Any allocation that is worth as much as what was found may take its place, however it was come by.
pub fn any_allocation_may_be_found()
    ensures { (p : Program) (budget : ℕ) (f : Seen) (visited : List Visited) (found : Option (List ℕ)) (halted : Option ℤ) (hand : List ℕ) (level : ℤ) (counts : List ℕ) → IsSearching p budget f visited found halted hand level → IsProgram p → HasFitWidth p (no_multipliers p) → IsAllocation p p.floor p.cap counts → MatchOption found ⊤ (λ before. worth p before ≤ℤ worth p counts) → IsSearching p budget f visited (Some counts) halted hand level }
{}
