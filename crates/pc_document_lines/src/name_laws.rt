ghost use Rattle.std.specs.Prelude.{◌≡◌, ℕ, true, Some};
ghost use Rattle.pc_model.specs.declared.schema.Schema.{Schema};
ghost use Rattle.pc_model.specs.declared.row.Run.{Run};
ghost use Rattle.pc_model.specs.declared.query.Query.{Query};
ghost use Rattle.pc_model.specs.Accepted.{HasNames, IsColumnWhere, IsQuery};
ghost use Rattle.pc_model.specs.WellFormed.{IsWellFormed};
ghost use Rattle.pc_document_format.specs.Formats.{IsLine};
ghost use Rattle.pc_proof.specs.Form.{IsFormedRun, IsGroupName};
ghost use Rattle.pc_document_lines.specs.TokenLines.{IsBareCut, begins_query, begins_run, cut_node_text, group_text, query_line_text, read_cut_node, read_group, read_query_line, read_run, run_text};

/// The line of a run is read as that run, and nothing else is.
pub(crate) fn run_lines_are_lines()
    ensures { (schema : Schema) → IsWellFormed schema → IsLine (IsFormedRun schema) (run_text schema) (read_run schema) }
{}

/// The line of a run begins as one.
#[tactic(auto, using(crate::proofs::RunsBack::run_begins))]
pub(crate) fn run_lines_begin()
    ensures { (schema : Schema) (run : Run) → begins_run (run_text schema run) ≡ true }
{}

/// The line of a node of a tree of cuts is read as that node, and nothing else is.
pub(crate) fn cut_lines_are_lines()
    ensures { (schema : Schema) → IsWellFormed schema → IsLine (IsBareCut schema) (cut_node_text schema) (read_cut_node schema) }
{}

/// The line of the name of a group is read as that name's place, and nothing else is.
pub(crate) fn group_lines_are_lines()
    ensures { (schema : Schema) (group : ℕ) → IsWellFormed schema → IsColumnWhere HasNames schema group → IsLine (λ place. IsGroupName schema (Some group) (Some place)) (group_text schema group) (read_group schema group) }
{}

/// The line of a query is read as that query, and nothing else is.
pub(crate) fn query_lines_are_lines()
    ensures { (schema : Schema) → IsWellFormed schema → IsLine (IsQuery schema) (query_line_text schema) (read_query_line schema) }
{}

/// The line of a query begins as one.
#[tactic(auto, using(crate::proofs::QueriesBack::query_begins))]
pub(crate) fn query_lines_begin()
    ensures { (schema : Schema) (query : Query) → begins_query (query_line_text schema query) ≡ true }
{}
