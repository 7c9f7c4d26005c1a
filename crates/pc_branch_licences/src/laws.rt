ghost use Rattle.std.specs.Prelude.{◌≡◌, ℕ, ℤ, ◌+ℤ◌, ◌-ℤ◌, List, length, true, Option, Some, None};
ghost use Rattle.std.specs.List.{AllZip};
ghost use Rattle.pc_model.specs.declared.row.Row.{Row};
ghost use Rattle.pc_model.specs.declared.row.Run.{Run};
ghost use Rattle.pc_model.specs.Aggregate.{Ratio, whole};
ghost use Rattle.pc_model.specs.Cells.{IsRowOf, IsSettledTree};
ghost use Rattle.pc_model.specs.Right.{IsAttained, always_has_value};
ghost use Rattle.pc_model.specs.Runs.{runs_from};
ghost use Rattle.pc_program_bound.specs.declared.program.Program.{Program};
ghost use Rattle.pc_program_bound.specs.Allocation.{IsProgram, worth};
ghost use Rattle.pc_branch.specs.Licence.{Splits, IsLicence, IsSearchTree, HoldsWholePoints};
ghost use Rattle.pc_branch.specs.Outcome.{IsMost};
ghost use Rattle.pc_proof.specs.declared.answer.Answer.{Answer};
ghost use Rattle.pc_proof.specs.Setting.{Setting, area_of, cells};
ghost use Rattle.pc_proof.specs.Table.{high_program, low_program};
ghost use Rattle.pc_proof.specs.Unbroken.{IsSharp, IsWellPosed};
ghost use Rattle.pc_branch_licences.specs.Licensed.{IsLicensed, IsSettledLack, IsSpent};
ghost use Rattle.pc_branch_licences.specs.Pools.{ShownFrom, HoldsNone};
ghost use Rattle.pc_branch_licences.specs.Shown.{counts_of_runs};
ghost use Rattle.pc_branch_licences.specs.Totals.{seen_value};
ghost use Rattle.pc_branch_licences.specs.Wanted.{Wanted, IsShort, LeavesOpen};

/// Where what a search found is not wanted, no whole point at a leaf of its licence is.
pub fn licences_leave_open()
    ensures { (p : Program) (budget : ℕ) (e : ℤ) (found : Option (List ℕ)) (wanted : Wanted) (tree : Splits) → IsProgram p → IsLicence p budget e tree → HoldsWholePoints p found p.floor p.cap tree → IsShort p wanted found → LeavesOpen p budget e wanted }
{}

/// A search tree for a value is one where no value is named.
pub fn search_trees_need_no_value()
    ensures { (p : Program) (budget : ℕ) (e : ℤ) (tree : Splits) → IsSearchTree p budget (Some e) tree → IsSearchTree p budget None tree }
{}

/// The rows of runs that were made of one row of each cell have the counts that the runs were made of.
pub fn runs_have_their_counts()
    ensures { (s : Setting) (picks : List Row) (counts : List ℕ) → AllZip (IsRowOf s.question.schema s.question.constraints (area_of s.question)) (cells s) picks → length counts ≡ length (cells s) → counts_of_runs s (runs_from picks counts) ≡ counts }
{}

/// Where the runs of an answer have counts that were found, and none of those is wanted, none of the runs is.
pub fn found_counts_are_all_that_is_shown()
    ensures { (s : Setting) (budget : ℕ) (answer : Answer) (found : List (List ℕ)) (p : Program) (e : ℤ) (wanted : Wanted) → LeavesOpen p budget e wanted → ShownFrom s found answer → HoldsNone found p wanted → IsSpent s budget answer p e wanted }
{}

/// Runs that attain the end of a count or a sum at the greatest worth of its program are worth as much.
pub fn attained_totals_are_worth_their_bound()
    ensures high { (s : Setting) (v : Ratio) (most : ℤ) (runs : List Run) → IsWellPosed s.question → IsSettledTree s.question.schema s.question.constraints (area_of s.question) s.nodes → always_has_value s.question.query.agg ≡ true → IsMost (high_program s s.question.query.agg v) most → IsAttained s.question (whole (seen_value s.question.query.agg s +ℤ most)) runs → worth (high_program s s.question.query.agg v) (counts_of_runs s runs) ≡ most }
    ensures low { (s : Setting) (v : Ratio) (most : ℤ) (runs : List Run) → IsWellPosed s.question → IsSettledTree s.question.schema s.question.constraints (area_of s.question) s.nodes → always_has_value s.question.query.agg ≡ true → IsMost (low_program s s.question.query.agg v) most → IsAttained s.question (whole (seen_value s.question.query.agg s -ℤ most)) runs → worth (low_program s s.question.query.agg v) (counts_of_runs s runs) ≡ most }
{}

/// An answer that leaves nothing open needs no licence.
pub fn sharp_answers_are_licensed()
    ensures { (s : Setting) (budget : ℕ) (answer : Answer) → IsSharp answer → IsSettledLack answer.lack → IsLicensed s budget answer }
{}
