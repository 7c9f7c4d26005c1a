ghost use Rattle.std.specs.Prelude.{◌≡◌, ◌≤◌, All, List, length};
ghost use Rattle.std.specs.List.{AllZip};
ghost use Rattle.pc_model.specs.declared.constraint.Constraint.{Constraint};
ghost use Rattle.pc_model.specs.declared.row.Run.{Run};
ghost use Rattle.pc_model.specs.declared.schema.Schema.{Schema};
ghost use Rattle.pc_model.specs.Accepted.{constraint_limit, frequency_limit};
ghost use Rattle.pc_model.specs.Possible.{IsPossible};
ghost use Rattle.pc_model.specs.Runs.{AreRuns, rows_of};
ghost use Rattle.pc_model.specs.WellFormed.{IsWellFormed};
ghost use Rattle.pc_proof.specs.declared.document.Document.{Document};
ghost use Rattle.pc_report.specs.Report.{report_text};
ghost use Rattle.pc_report.specs.Shown.{AreShownRuns, IsShown, SaysAlike};

/// Two documents with one report have one block after another alike: the query, the name, the relation, the lack, the
/// ends with their values, the marks and all runs.
#[tactic(auto, using(crate::proofs::BlocksBack::reports_tell_their_blocks))]
pub fn reports_tell_their_blocks()
    ensures { (schema : Schema) (doc other : Document) → IsWellFormed schema → All (IsShown schema) doc.blocks → All (IsShown schema) other.blocks → report_text schema doc ≡ report_text schema other → AllZip SaysAlike doc.blocks other.blocks }
{}

/// The runs of a possible list are read back from their lines, where there are few constraints and each allows few rows.
pub fn possible_runs_are_shown()
    ensures { (schema : Schema) (constraints : List Constraint) (runs : List Run) → IsWellFormed schema → length constraints ≤ constraint_limit → All (λ (c : Constraint). c.most ≤ frequency_limit) constraints → AreRuns runs → IsPossible schema constraints (rows_of runs) → AreShownRuns schema runs }
{}
