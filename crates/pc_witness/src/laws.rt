ghost use Rattle.std.specs.Prelude.{◌≡◌, ℕ, ℤ, List, length, map};
ghost use Rattle.std.specs.List.{AllZip};
ghost use Rattle.pc_model.specs.declared.schema.Schema.{Schema};
ghost use Rattle.pc_model.specs.declared.constraint.Constraint.{Constraint};
ghost use Rattle.pc_model.specs.declared.area.Area.{Area};
ghost use Rattle.pc_model.specs.declared.row.Row.{Row};
ghost use Rattle.pc_model.specs.Aggregate.{int_sum};
ghost use Rattle.pc_model.specs.Cells.{Class, class_of, IsRowOf};
ghost use Rattle.pc_model.specs.Possible.{IsPossible};
ghost use Rattle.pc_model.specs.Runs.{AreRuns, rows_of, runs_from};
ghost use Rattle.pc_program_bound.specs.Allocation.{IsAllocation, cells_of, worth};
ghost use Rattle.pc_program_bound.specs.CellPrograms.{program_of};

/// One row of each cell and an allocation of the cells' program give runs that stand for a possible list.
pub fn allocations_are_possible()
    ensures { (schema : Schema) (constraints : List Constraint) (chosen : Area) (classes : List Class) (gain : Class → ℤ) (floors caps : List ℕ) (picks : List Row) (counts : List ℕ) → AllZip (IsRowOf schema constraints chosen) classes picks → IsAllocation (program_of constraints classes gain) floors caps counts → (AreRuns (runs_from picks counts) × IsPossible schema constraints (rows_of (runs_from picks counts))) }
{}

/// With one row of each cell, counts are worth the sum of what the rows of their runs gain.
pub fn allocations_are_worth_their_rows()
    ensures { (schema : Schema) (constraints : List Constraint) (chosen : Area) (classes : List Class) (gain : Class → ℤ) (picks : List Row) (counts : List ℕ) → AllZip (IsRowOf schema constraints chosen) classes picks → length counts ≡ cells_of (program_of constraints classes gain) → worth (program_of constraints classes gain) counts ≡ int_sum (map (λ row. gain (class_of constraints chosen row)) (rows_of (runs_from picks counts))) }
{}
