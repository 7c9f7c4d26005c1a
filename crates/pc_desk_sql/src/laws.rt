ghost use Rattle.std.specs.Prelude.{◌≡◌, ◌∷◌, ◌++◌, ℕ, List, All, None, false};
ghost use Rattle.pc_model.specs.declared.constraint.Constraint.{Constraint};
ghost use Rattle.pc_model.specs.declared.schema.Schema.{Schema};
ghost use Rattle.pc_model.specs.Boxes.{IsServable};
ghost use Rattle.pc_model.specs.WellFormed.{IsWellFormed};
ghost use Rattle.pc_desk_sql.specs.Holding.{answers, is_counted, is_foreign, is_told, wanted};
ghost use Rattle.pc_desk_sql.specs.Statement.{statement_of};
ghost use Rattle.pc_desk_sql.specs.Tests.{known, under_of};
ghost use Rattle.pc_desk_sql.specs.Texts.{table_text};
ghost use Rattle.pc_desk_sql.specs.Values.{Fields, cells_in};

/// Of any table the answers are: all rows, and those that are no rows of the schema; then for each constraint how many rows of
/// the schema are under it, and how many of these its values do not have.
#[tactic(auto, using(crate::proofs::Counts::statement_counts_as_try))]
pub fn statement_counts_as_try()
    ensures { (schema : Schema) (constraints : List Constraint) (table : List Fields)
        → IsWellFormed schema → All (IsServable schema) constraints
        → answers (statement_of schema constraints) table ≡ wanted schema constraints table }
{}

/// The first answer tells a row with a field that is no value of its column, and only such a row; and it is under no constraint.
pub fn none_is_dropped()
    ensures told { (schema : Schema) (fields : Fields)
        → is_told schema.columns (known schema.columns) fields ≡ is_foreign schema fields }
    ensures apart { (schema : Schema) (constraints : List Constraint) (fields : Fields) (c : Constraint)
        → IsWellFormed schema → All (IsServable schema) constraints → IsServable schema c → cells_in schema.columns fields ≡ None
        → is_counted schema.columns (under_of schema.columns constraints c.when) fields ≡ false }
{}

/// The parts of the name of a table, between points, are quoted each.
#[tactic(auto, using(crate::proofs::Tables::parts_are_quoted_each))]
pub fn parts_are_quoted_each()
    ensures { (first rest : List ℕ) → table_text (first ++ 46 ∷ rest) ≡ table_text first ++ 46 ∷ table_text rest }
{}
