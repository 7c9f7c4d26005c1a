ghost use Rattle.std.specs.Prelude.{◌≡◌, ◌++◌, cond, List};
ghost use Rattle.pc_model.specs.declared.constraint.Constraint.{Constraint};
ghost use Rattle.pc_model.specs.declared.row.Row.{Row};
ghost use Rattle.pc_model.specs.declared.schema.Schema.{Schema};
ghost use Rattle.pc_model.specs.Accepted.{AreConstraints};
ghost use Rattle.pc_desk_limit.specs.Closing.{AreRegions, closing_boxes, count_of_row, is_opened};

/// Each row that the limits alone would open is in one of the closing boxes, and any other row in none. The boxes are of the schema.
pub fn closing_boxes_hold_what_limits_open()
    ensures rows { (schema : Schema) (constraints limits : List Constraint) → AreConstraints schema (constraints ++ limits)
        → (row : Row) → count_of_row row (closing_boxes constraints limits) ≡ cond (is_opened constraints limits row) 1 0 }
    ensures regions { (schema : Schema) (constraints limits : List Constraint)
        → AreConstraints schema (constraints ++ limits) → AreRegions schema (closing_boxes constraints limits) }
{}
