ghost use Rattle.std.specs.Prelude.{ℕ, ℤ, List};
ghost use Rattle.pc_model.specs.declared.constraint.Constraint.{Constraint};
ghost use Rattle.pc_model.specs.declared.row.Row.{Row};
ghost use Rattle.pc_model.specs.declared.schema.Schema.{Schema};
ghost use Rattle.pc_model.specs.Possible.{IsPossible};
ghost use Rattle.pc_desk_short.specs.declared.clash.Clash.{Clash};
ghost use Rattle.pc_desk_short.specs.Clashes.{IsClash, TellsWhy};
ghost use Rattle.pc_desk_short.specs.Shortage.{IsShort};

/// Constraints of which some need more rows than others have room for allow no lost rows at all.
pub fn short_constraints_are_impossible()
    ensures { (schema : Schema) (constraints : List Constraint) (weights : List ℤ) → IsShort schema constraints weights
        → (rows : List Row) → IsPossible schema constraints rows → ⊥ }
{}

/// Constraints allow no lost rows at all where a clash tells why.
pub fn clashes_are_impossible()
    ensures { (schema : Schema) (constraints : List Constraint) (nodes : ℕ) (clash : Clash) → IsClash schema constraints nodes clash → TellsWhy clash
        → (rows : List Row) → IsPossible schema constraints rows → ⊥ }
{}
