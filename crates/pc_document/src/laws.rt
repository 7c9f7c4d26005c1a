ghost use Rattle.std.specs.Prelude.{◌≡◌, ◌+◌, ◌≤◌, ℕ, List, length, Ok};
ghost use Rattle.pc_model.specs.WellFormed.{IsWellFormed};
ghost use Rattle.pc_model.specs.declared.schema.Schema.{Schema};
ghost use Rattle.pc_proof.specs.declared.document.Document.{Document};
ghost use Rattle.pc_proof.specs.Counts.{blocks_count};
ghost use Rattle.pc_proof.specs.Documents.{Premises};
ghost use Rattle.pc_document.specs.Reading.{document_of};
ghost use Rattle.pc_document.specs.Statements.{NamesItsLines};
ghost use Rattle.pc_document.specs.Told.{IsDocumentText, Told};

/// The text of a document in form is read as that document.
pub fn documents_read_back()
    ensures { (schema : Schema) (bytes : List ℕ) (doc : Document) → IsWellFormed schema → IsDocumentText schema bytes doc → document_of schema bytes ≡ Ok doc }
{}

/// What is read is in form, and the bytes are its text; else the line of the first fault is told.
pub fn reading_tells()
    ensures { (schema : Schema) (bytes : List ℕ) → IsWellFormed schema → Told schema bytes (document_of schema bytes) }
{}

/// Bytes are the text of at most one document in form.
pub fn one_document()
    ensures { (schema : Schema) (bytes : List ℕ) (doc other : Document) → IsWellFormed schema → IsDocumentText schema bytes doc → IsDocumentText schema bytes other → doc ≡ other }
{}

/// A document has no more lines than its text has bytes.
pub fn lines_are_bytes()
    ensures { (schema : Schema) (bytes : List ℕ) (doc : Document) → IsDocumentText schema bytes doc → 2 + blocks_count doc.blocks ≤ length bytes }
{}

/// In the text of a document the statement that a demand speaks of begins at the line that the demand names.
pub fn demands_name_their_lines()
    ensures { (case : Premises) (doc : Document) → IsWellFormed case.schema → NamesItsLines case doc }
{}
