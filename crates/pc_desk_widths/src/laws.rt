ghost use Rattle.std.specs.Prelude.{◌≡◌, ℕ, ℤ, List, int_le, true};
ghost use Rattle.pc_model.specs.declared.constraint.Constraint.{Constraint};
ghost use Rattle.pc_desk_table.specs.Reading.{IsReadAs, sheet_rows};
ghost use Rattle.pc_desk_table.specs.Sheets.{sheet_table};
ghost use Rattle.pc_desk_weigh.specs.declared.weighed.Weighed.{Weighed};
ghost use Rattle.pc_desk_widths.specs.Pieces.{PiecesTell, pieces_of};
ghost use Rattle.pc_desk_widths.specs.Shown.{weigh_sheet};
ghost use Rattle.pc_desk_widths.specs.declared.pieces.Ends.{Ends};

/// What csv reads in the table of changes is its titles and then the texts of each row.
#[tactic(auto, using(crate::proofs::Back::weighed_are_read_back))]
pub fn weighed_tables_are_read_back()
    ensures { (constraints : List Constraint) (places : ℕ) (all : List Weighed) (orders : List (List ℕ))
        → IsReadAs (sheet_table (weigh_sheet constraints places all orders)) (sheet_rows (weigh_sheet constraints places all orders)) }
{}

/// A number is in the range that stands where it lies on a grey or blue piece, and in the other where it lies on a blue or pale one.
pub fn pieces_tell_both_ranges()
    ensures { (standing other : Ends) (number : ℤ) → int_le standing.low standing.high ≡ true → int_le other.low other.high ≡ true
        → PiecesTell standing other (pieces_of standing other) number }
{}
