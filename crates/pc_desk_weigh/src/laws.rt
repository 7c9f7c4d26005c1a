ghost use Rattle.std.specs.Prelude.{All, List, Option, ℕ};
ghost use Rattle.pc_model.specs.declared.constraint.Constraint.{Constraint};
ghost use Rattle.pc_model.specs.declared.schema.Schema.{Schema};
ghost use Rattle.pc_model.specs.Accepted.{AreConstraints};
ghost use Rattle.pc_desk_weigh.specs.declared.change.Change.{Change};
ghost use Rattle.pc_desk_weigh.specs.Changes.{changed, changes_of};

/// Constraints after a change of one limit are constraints.
pub fn changed_constraints_are_constraints()
    ensures { (schema : Schema) (constraints : List Constraint) (asked : Option ℕ) → AreConstraints schema constraints → All (λ (change : Change). AreConstraints schema (changed schema constraints change)) (changes_of schema constraints asked) }
{}
