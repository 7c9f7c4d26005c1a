ghost use Rattle.pc_model.specs.declared.schema.Schema.{Schema};
ghost use Rattle.pc_model.specs.WellFormed.{IsWellFormed};
ghost use Rattle.pc_document_lines.specs.Kinds.{AreLines};

/// Each kind of line of a document is written and read back as it was.
pub fn kinds_are_lines()
    ensures { (schema : Schema) → IsWellFormed schema → AreLines schema }
{}
