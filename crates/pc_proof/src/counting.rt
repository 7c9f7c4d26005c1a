ghost use Rattle.std.specs.Prelude.{◌≡◌, ℤ, List, map, All, Contains};
ghost use Rattle.pc_model.specs.declared.schema.Schema.{Schema};
ghost use Rattle.pc_model.specs.declared.row.Row.{Row};
ghost use Rattle.pc_model.specs.declared.area.Area.{Area};
ghost use Rattle.pc_model.specs.declared.constraint.Constraint.{Constraint};
ghost use Rattle.pc_model.specs.declared.tree.CutNode.{CutNode};
ghost use Rattle.pc_model.specs.Aggregate.{int_sum};
ghost use Rattle.pc_model.specs.WellFormed.{IsWellFormed};
ghost use Rattle.pc_model.specs.Possible.{IsPossible};
ghost use Rattle.pc_model.specs.Cells.{Class, class_of, IsSettledTree, classes_of, leaves_in};
ghost use Rattle.pc_program_bound.specs.Allocation.{worth, IsAllocation};
ghost use Rattle.pc_program_bound.specs.CellPrograms.{program_of, counts_of};

/// The rows of a possible list, counted by cell, are an allocation of the cells' program, whatever the cells gain.
pub fn possible_rows_are_an_allocation()
    ensures { (schema : Schema) (constraints : List Constraint) (chosen : Area) (nodes : List CutNode) (gain : Class → ℤ) (rows : List Row) → IsWellFormed schema → IsSettledTree schema constraints chosen nodes → IsPossible schema constraints rows → IsAllocation (program_of constraints (classes_of (leaves_in schema nodes)) gain) (program_of constraints (classes_of (leaves_in schema nodes)) gain).floor (program_of constraints (classes_of (leaves_in schema nodes)) gain).cap (counts_of constraints chosen (classes_of (leaves_in schema nodes)) rows) }
{}

/// No row of a possible list is outside all cells.
#[tactic(auto, using(crate::proofs::PossibleRows::rows_in_cells))]
pub fn possible_rows_are_in_cells()
    ensures { (schema : Schema) (constraints : List Constraint) (chosen : Area) (nodes : List CutNode) (rows : List Row) → IsWellFormed schema → IsSettledTree schema constraints chosen nodes → IsPossible schema constraints rows → All (λ (row : Row). Contains (classes_of (leaves_in schema nodes)) (class_of constraints chosen row)) rows }
{}

/// What the counts are worth is what the rows gain, each by its class.
#[tactic(auto, using(crate::proofs::PossibleRows::rows_are_worth))]
pub fn counts_are_worth_their_rows()
    ensures { (schema : Schema) (constraints : List Constraint) (chosen : Area) (nodes : List CutNode) (gain : Class → ℤ) (rows : List Row) → IsWellFormed schema → IsSettledTree schema constraints chosen nodes → IsPossible schema constraints rows → worth (program_of constraints (classes_of (leaves_in schema nodes)) gain) (counts_of constraints chosen (classes_of (leaves_in schema nodes)) rows) ≡ int_sum (map (λ (row : Row). gain (class_of constraints chosen row)) rows) }
{}
