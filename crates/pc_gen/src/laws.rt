ghost use Rattle.std.specs.Prelude.{◌≡◌, ℕ, ◌*◌, ◌≤◌, length, filter, All, None};
ghost use Rattle.std.specs.List.{AllPass};
ghost use Rattle.pc_model.specs.declared.query.Query.{Query};
ghost use Rattle.pc_model.specs.Accepted.{AreConstraints, IsQuery};
ghost use Rattle.pc_model.specs.Membership.{in_domain};
ghost use Rattle.pc_model.specs.Possible.{IsPossible, is_covered};
ghost use Rattle.pc_model.specs.WellFormed.{IsWellFormed};
ghost use Rattle.pc_gen.specs.Generated.{generated_constraints, generated_queries, generated_schema, hidden_rows, observed_rows};

/// The hidden rows that are in some predicate are rows that may have been lost.
pub fn hidden_rows_are_possible()
    ensures { (seed size : ℕ) → IsPossible generated_schema (generated_constraints seed size) (filter (is_covered (generated_constraints seed size)) (hidden_rows seed size)) }
{}

/// What is asked of a case that is read from files holds of each generated one.
pub fn generated_cases_are_accepted()
    ensures schema { IsWellFormed generated_schema }
    ensures rows { (seed size : ℕ) → AllPass (in_domain generated_schema) (observed_rows seed size) }
    ensures row_count { (seed size : ℕ) → length (observed_rows seed size) ≡ 100 * size }
    ensures constraints { (seed size : ℕ) → size ≤ 1000 → AreConstraints generated_schema (generated_constraints seed size) }
    ensures eight { (seed size : ℕ) → length (generated_constraints seed size) ≡ 8 }
    ensures queries { All (λ (query : Query). IsQuery generated_schema query × (query.group ≡ None)) generated_queries }
{}
