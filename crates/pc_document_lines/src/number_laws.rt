ghost use Rattle.std.specs.Prelude.{◌≡◌, ◌≤◌, ◌<◌, ◌^◌, ℕ, ℤ, List, Some, true, false, unsigned_abs};
ghost use Rattle.pc_num.specs.declared.Frac.{Frac};
ghost use Rattle.pc_num.specs.Put.{scaled_text};
ghost use Rattle.pc_model.specs.declared.schema.Schema.{Schema};
ghost use Rattle.pc_model.specs.declared.query.Query.{Query};
ghost use Rattle.pc_model.specs.Accepted.{IsQuery};
ghost use Rattle.pc_model.specs.WellFormed.{IsWellFormed};
ghost use Rattle.pc_document_format.specs.Formats.{IsLine};
ghost use Rattle.pc_proof.specs.Form.{IsFormedRatio, IsFormedValue};
ghost use Rattle.pc_report.specs.Units.{average_text, in_column};
ghost use Rattle.pc_document_lines.specs.Numbers.{likely_number};
ghost use Rattle.pc_document_lines.specs.NodeLines.{IsBareNode, node_text, read_node};
ghost use Rattle.pc_document_lines.specs.TokenLines.{begins_run};
ghost use Rattle.pc_document_lines.specs.declared.tags.Side.{Side};
ghost use Rattle.pc_document_lines.specs.declared.tags.ProofLine.{ProofLine};
ghost use Rattle.pc_document_lines.specs.declared.tags.EndLine.{EndLine};
ghost use Rattle.pc_document_lines.specs.ValueLines.{IsEndLine, IsProofLine, end_text, in_units, is_ratio, likely_average, outer_text, proof_text, read_end_line, read_outer_line, read_proof_line};

/// The text of a number is read as that number, at whatever scale it is written.
#[tactic(auto, using(crate::proofs::NumbersBack::numbers_again))]
pub(crate) fn numbers_are_read_back()
    ensures { (value : ℤ) (scale : ℕ) → unsigned_abs value < 10 ^ 64 → likely_number (scaled_text value scale) ≡ value }
{}

/// The line of a node of a search tree is read as that node, and nothing else is.
pub(crate) fn node_lines_are_lines()
    ensures { IsLine IsBareNode node_text read_node }
{}

/// An average in the unit of its column, in units of its last place again, is that average.
pub(crate) fn units_are_taken_back()
    ensures { (scale : ℕ) (value : Frac) → IsFormedRatio value → in_units scale (in_column scale value) ≡ value }
{}

/// The text of an average is read as that average.
pub(crate) fn averages_are_read_back()
    ensures { (scale : ℕ) (value : Frac) → scale ≤ 6 → IsFormedRatio value → likely_average scale (average_text scale value) ≡ Some value }
{}

/// What is read as an average is a ratio, if it has the sizes of one.
pub(crate) fn read_averages_are_ratios()
    ensures { (scale : ℕ) (text : List ℕ) (value : Frac) → likely_average scale text ≡ Some value → is_ratio value ≡ true → IsFormedRatio value }
{}

/// The line of an end is read as that end, and nothing else is.
pub(crate) fn end_lines_are_lines()
    ensures { (schema : Schema) (query : Query) → IsWellFormed schema → IsQuery schema query → (side : Side) → IsLine (IsEndLine query) (end_text schema query side) (read_end_line schema query side) }
{}

/// The line of an outer end is read as its value, and nothing else is.
pub(crate) fn outer_lines_are_lines()
    ensures { (schema : Schema) (query : Query) → IsWellFormed schema → IsQuery schema query → (side : Side) → IsLine (IsFormedValue query.agg) (outer_text schema query side) (read_outer_line schema query side) }
{}

/// No line of an end begins as that of a run.
pub(crate) fn end_lines_are_no_runs()
    ensures { (schema : Schema) (query : Query) (side : Side) (e : EndLine) → begins_run (end_text schema query side e) ≡ false }
{}

/// The line of a proof is read as that line, and nothing else is.
pub(crate) fn proof_lines_are_lines()
    ensures { (schema : Schema) (query : Query) → IsWellFormed schema → IsQuery schema query → IsLine IsProofLine (proof_text schema query) (read_proof_line schema query) }
{}

/// No line of a proof begins as that of a run.
pub(crate) fn proof_lines_are_no_runs()
    ensures { (schema : Schema) (query : Query) (line : ProofLine) → begins_run (proof_text schema query line) ≡ false }
{}
