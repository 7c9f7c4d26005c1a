ghost use Rattle.std.specs.Prelude.{◌≡◌, ◌<◌, ◌↔◌, ℕ, List, Ok, get_or, length, true};
ghost use Rattle.std.specs.List.{AllPass};
ghost use Rattle.pc_model.specs.declared.constraint.Constraint.{Constraint};
ghost use Rattle.pc_model.specs.declared.row.Row.{Row};
ghost use Rattle.pc_model.specs.declared.schema.Schema.{Schema};
ghost use Rattle.pc_model.specs.Cells.{mask_of};
ghost use Rattle.pc_model.specs.Membership.{in_domain, is_under};
ghost use Rattle.pc_model.specs.Places.{has_bit};
ghost use Rattle.pc_model.specs.declared.region.Region.{Region};
ghost use Rattle.pc_model.specs.Possible.{IsPossible};
ghost use Rattle.pc_model.specs.Regions.{is_region_of};
ghost use Rattle.pc_model.specs.WellFormed.{IsWellFormed};
ghost use Rattle.pc_lang.specs.Canonical.{query_text};
ghost use Rattle.pc_lang.specs.Files.{query_from};
ghost use Rattle.pc_desk_table.specs.Reading.{IsReadAs, sheet_rows};
ghost use Rattle.pc_desk_table.specs.Sheets.{sheet_table};
ghost use Rattle.pc_desk_try.specs.declared.opening.Opening.{Opening};
ghost use Rattle.pc_desk_try.specs.declared.tried.Trial.{Trial};
ghost use Rattle.pc_desk_try.specs.Opened.{count_of_box, openings_sheet};
ghost use Rattle.pc_desk_try.specs.Shown.{sheet_of};
ghost use Rattle.pc_desk_try.specs.Trials.{is_kept, million, trial_of};

/// Rows of the domain keep the constraints, and each is under one of them, exactly where they could be the lost rows.
pub fn kept_tables_are_possible()
    ensures { (schema : Schema) (constraints : List Constraint) (rows : List Row) → AllPass (in_domain schema) rows
        → ((is_kept (trial_of million constraints rows) ≡ true) × ((trial_of million constraints rows).under_none ≡ 0)) ↔ IsPossible schema constraints rows }
{}

/// What csv reads in the table of a trial is its titles and then the texts of each row.
#[tactic(auto, using(crate::proofs::Back::trials_are_read_back))]
pub fn trials_are_read_back()
    ensures { (trial : Trial) → IsReadAs (sheet_table (sheet_of trial)) (sheet_rows (sheet_of trial)) }
{}

/// What csv reads in the table of openings is its titles and then the texts of each row.
#[tactic(auto, using(crate::proofs::Members::openings_are_read_back))]
pub fn openings_are_read_back()
    ensures { (schema : Schema) (constraints : List Constraint) (openings : List Opening) → IsReadAs (sheet_table (openings_sheet schema constraints openings)) (sheet_rows (openings_sheet schema constraints openings)) }
{}

/// The text of a query that counts the rows of a box is read as that query.
#[tactic(auto, using(crate::proofs::Members::opening_queries_are_read_back))]
pub fn opening_queries_are_read_back()
    ensures { (schema : Schema) (region : Region) → IsWellFormed schema → is_region_of schema region ≡ true
        → query_from schema (query_text schema (count_of_box region)) ≡ Ok (count_of_box region) }
{}

/// Of the constraints of a row's class those speak of it whose bit is set, and no other.
pub fn masks_tell_constraints()
    ensures { (constraints : List Constraint) (row : Row) (place : ℕ) (c : Constraint) → place < length constraints
        → has_bit (mask_of constraints row) place ≡ is_under constraints (get_or constraints place c) row }
{}
