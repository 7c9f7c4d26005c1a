ghost use Rattle.std.specs.Prelude.{◌≡◌, ℕ, List};
ghost use Rattle.std.specs.List.{AllZip};
ghost use Rattle.pc_model.specs.WellFormed.{IsWellFormed};
ghost use Rattle.pc_report.specs.Shown.{SaysAlike};
ghost use Rattle.pc_rows.specs.declared.case.Case.{Case};
ghost use Rattle.pc_files.specs.declared.reading.Listing.{Listing};
ghost use Rattle.pc_files.specs.declared.reading.Scripted.{Scripted};
ghost use Rattle.pc_files.specs.Reads.{IsScripted, IsShowable};
ghost use Rattle.pc_run.specs.Inputs.{IsMeasurable};
ghost use Rattle.pc_run.specs.Replies.{SaysConflict, SaysQuantile, SaysReport, SaysSession};
ghost use Rattle.pc_run.specs.Said.{said_by};
ghost use Rattle.pc_run.specs.declared.input.Measured.{Measured};

/// The bytes of a report determine its answers: two runs over the same schema that write the same bytes say the same, block
/// after block, whatever rows, constraints and budgets they had.
pub fn reports_tell_their_answers()
    ensures { (nodes budget : ℕ) (case other : Case) (text : List ℕ) → IsWellFormed case.schema → case.schema ≡ other.schema → (one : SaysReport nodes case text) (two : SaysReport budget other text) → AllZip SaysAlike one.document.blocks two.document.blocks }
{}

/// The bytes of an answer to a quantile determine the question and the answer: two runs over the same schema that write the
/// same bytes asked and found the same.
pub fn quantiles_tell_their_answers()
    ensures { (nodes budget : ℕ) (measured other : Measured) (text : List ℕ) → IsMeasurable measured → IsMeasurable other
        → measured.observed.schema ≡ other.observed.schema → (one : SaysQuantile nodes measured text) (two : SaysQuantile budget other text)
        → (measured.asked ≡ other.asked) × (one.answer ≡ two.answer) }
{}

/// The bytes of a session determine what is said, question after question: two sessions over the same schema that write the
/// same bytes have asked equally many questions, and the blocks of each say the same, whatever was observed, edited and
/// budgeted.
pub fn sessions_tell_their_answers()
    ensures { (nodes budget : ℕ) (scripted other : Scripted) (text : List ℕ) → IsScripted scripted → IsScripted other
        → scripted.observed.schema ≡ other.observed.schema → (one : SaysSession nodes scripted text) (two : SaysSession budget other text)
        → AllZip (AllZip SaysAlike) (said_by one) (said_by two) }
{}

/// The bytes of an answer to which constraints contradict each other determine the answer, over the same schema and
/// constraints.
pub fn conflicts_tell_their_answers()
    ensures { (nodes budget : ℕ) (listing : Listing) (text : List ℕ) → IsShowable listing
        → (one : SaysConflict nodes listing text) (two : SaysConflict budget listing text) → one.answer ≡ two.answer }
{}
