ghost use Rattle.std.specs.Prelude.{◌≡◌, ℕ, List, All, Contains};
ghost use Rattle.pc_model.specs.declared.schema.Schema.{Schema};
ghost use Rattle.pc_model.specs.declared.row.Row.{Row};
ghost use Rattle.pc_model.specs.declared.row.Run.{Run};
ghost use Rattle.pc_model.specs.declared.constraint.Constraint.{Constraint};
ghost use Rattle.pc_model.specs.Membership.{AreNested};
ghost use Rattle.pc_model.specs.Possible.{IsPossible};
ghost use Rattle.pc_model.specs.Accepted.{AreConstraints};
ghost use Rattle.pc_model.specs.WellFormed.{IsWellFormed};
ghost use Rattle.pc_conflict.specs.declared.conflict.Conflict.{Conflict};
ghost use Rattle.pc_conflict.specs.Besides.{spoken_rows};
ghost use Rattle.pc_conflict.specs.Conflicts.{IsConflict};
ghost use Rattle.pc_conflict.specs.Core.{IsCore};
ghost use Rattle.pc_conflict.specs.Deleting.{ArePlaces};
ghost use Rattle.pc_conflict.specs.Deletion.{at_places};
ghost use Rattle.pc_conflict.specs.Texts.{conflict_text};

/// Of a list that is possible for some constraints, the rows that some of them speak of are possible for these alone.
pub fn lists_without_constraints_are_possible()
    ensures { (schema : Schema) (whole rest : List Constraint) (rows : List Row) → All (Contains whole) rest → IsPossible schema whole rows → IsPossible schema rest (spoken_rows whole rest rows) }
{}

/// Whatever lists decide the tests, they keep the same constraints.
pub fn cores_are_determined()
    ensures { (schema : Schema) (constraints : List Constraint) (members others : List ℕ) (without lists : List (List Run)) → IsCore schema constraints members without → IsCore schema constraints others lists → members ≡ others }
{}

/// Any two constraints of a part of the list are nested where any two of the list are.
pub fn parts_are_nested()
    ensures { (schema : Schema) (constraints : List Constraint) (places : List ℕ) → ArePlaces constraints places → AreNested schema constraints → AreNested schema (at_places constraints places) }
{}

/// Answers about the same constraints that have one text are one answer, whatever the budgets were.
#[tactic(auto, using(crate::proofs::TextsBack::texts_tell))]
pub fn texts_tell_their_answers()
    ensures { (schema : Schema) (constraints : List Constraint) (nodes budget : ℕ) (answer other : Conflict) → IsWellFormed schema → AreConstraints schema constraints → IsConflict schema constraints nodes answer → IsConflict schema constraints budget other → conflict_text schema constraints answer ≡ conflict_text schema constraints other → answer ≡ other }
{}
