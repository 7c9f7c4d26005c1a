ghost use Rattle.std.specs.Prelude.{◌≡◌, ℕ, List, Ok};
ghost use Rattle.pc_model.specs.declared.row.Row.{Row};
ghost use Rattle.pc_model.specs.declared.schema.Schema.{Schema};
ghost use Rattle.pc_rows.specs.Plain.{IsPlainText, SpellsByLines, SpellsPlainly, plain_text};
ghost use Rattle.pc_rows.specs.RowFile.{rows_of};

/// Each list of rows of the domain, as long as a file may be, is read from its plain fields.
#[tactic(auto, using(crate::proofs::PlainFields::reads_plain_fields))]
pub fn reads_plain_fields()
    ensures { (bytes text : List ℕ) (schema : Schema) (rows : List Row) → SpellsPlainly bytes text schema rows → rows_of schema bytes ≡ Ok rows }
{}

/// Each such list is read from lines without quotes and lone CR that have its plain fields between their commas.
#[tactic(auto, using(crate::proofs::PlainFields::reads_plain_lines))]
pub fn reads_plain_lines()
    ensures { (bytes text : List ℕ) (schema : Schema) (rows : List Row)
        → SpellsByLines bytes text schema rows → rows_of schema bytes ≡ Ok rows }
{}

/// Each such list is read from its plain text.
#[tactic(auto, using(crate::proofs::PlainText::reads_plain_text))]
pub fn reads_plain_text()
    ensures { (schema : Schema) (rows : List Row) → IsPlainText schema rows → rows_of schema (plain_text schema rows) ≡ Ok rows }
{}
