ghost use Rattle.std.specs.Prelude.{ℕ, ℤ, List};
ghost use Rattle.pc_model.specs.Boxes.{IsAreaOf};
ghost use Rattle.pc_model.specs.WellFormed.{IsWellFormed};
ghost use Rattle.pc_model.specs.declared.area.Area.{Area};
ghost use Rattle.pc_model.specs.declared.schema.Schema.{Schema};
ghost use Rattle.pc_desk_divide.specs.Cells.{AreApart, AreAreasOf, AreOfEqualWidth, Cover, StayWithin, cells_in};
ghost use Rattle.pc_desk_divide.specs.Pieces.{AreDivisions, ranges_of};
ghost use Rattle.pc_desk_divide.specs.declared.division.Division.{Division};

/// No row is in two cells.
pub fn cells_are_apart()
    ensures { (schema : Schema) (chosen : Area) (divisions : List Division) → IsWellFormed schema → IsAreaOf schema chosen → AreDivisions schema divisions → AreApart (cells_in chosen divisions) }
{}

/// Each row of the area is in a cell, and any other row in none.
pub fn cells_cover()
    ensures cover { (schema : Schema) (chosen : Area) (divisions : List Division) → IsWellFormed schema → IsAreaOf schema chosen → AreDivisions schema divisions → Cover chosen (cells_in chosen divisions) }
    ensures within { (schema : Schema) (chosen : Area) (divisions : List Division) → IsWellFormed schema → IsAreaOf schema chosen → AreDivisions schema divisions → StayWithin chosen (cells_in chosen divisions) }
{}

/// Of two ranges of a column one has at most one number more.
pub fn ranges_are_of_equal_width()
    ensures { (parts : ℕ) (low high : ℤ) → AreOfEqualWidth (ranges_of parts low high) }
{}

/// Each cell can be the predicate of a constraint.
pub fn cells_are_areas()
    ensures { (schema : Schema) (chosen : Area) (divisions : List Division) → IsWellFormed schema → IsAreaOf schema chosen → AreDivisions schema divisions → AreAreasOf schema (cells_in chosen divisions) }
{}
