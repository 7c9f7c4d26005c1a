ghost use Rattle.std.specs.Prelude.{◌≡◌, ℕ, List, Ok};
ghost use Rattle.pc_model.specs.declared.schema.Schema.{Schema};
ghost use Rattle.pc_schema.specs.Plain.{IsPlainText, SpellsByLines, SpellsPlainly, plain_text};
ghost use Rattle.pc_schema.specs.SchemaFile.{schema_of};

/// Each well-formed schema is read from its plain fields.
#[tactic(auto, using(crate::proofs::PlainFields::reads_plain_fields))]
pub fn reads_plain_fields()
    ensures { (bytes text : List ℕ) (schema : Schema) → SpellsPlainly bytes text schema → schema_of bytes ≡ Ok schema }
{}

/// Each well-formed schema is read from lines without quotes and lone CR that have its plain fields between their commas.
#[tactic(auto, using(crate::proofs::PlainFields::reads_plain_lines))]
pub fn reads_plain_lines()
    ensures { (bytes text : List ℕ) (schema : Schema)
        → SpellsByLines bytes text schema → schema_of bytes ≡ Ok schema }
{}

/// Each well-formed schema is read from its plain text.
#[tactic(auto, using(crate::proofs::PlainText::reads_plain_text))]
pub fn reads_plain_text()
    ensures { (schema : Schema) → IsPlainText schema → schema_of (plain_text schema.columns) ≡ Ok schema }
{}
