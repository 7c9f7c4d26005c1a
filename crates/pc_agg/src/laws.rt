ghost use Rattle.std.specs.Prelude.{◌≡◌, ℕ, List, Option, is_none};
ghost use Rattle.pc_model.specs.declared.schema.Schema.{Schema};
ghost use Rattle.pc_model.specs.declared.row.Row.{Row};
ghost use Rattle.pc_model.specs.declared.constraint.Constraint.{Constraint};
ghost use Rattle.pc_model.specs.declared.query.Query.{Query};
ghost use Rattle.pc_model.specs.declared.query.Folded.{Folded};
ghost use Rattle.pc_model.specs.declared.tree.CutNode.{CutNode};
ghost use Rattle.pc_model.specs.Accepted.{IsQuery};
ghost use Rattle.pc_model.specs.Folds.{IsFold};
ghost use Rattle.pc_proof.specs.Unbroken.{AllowsName};
ghost use Rattle.pc_agg_search.specs.Asked.{Asking, query_for, setting_for};
ghost use Rattle.pc_agg_search.specs.Settings.{setting_in};

/// A query, of a name where it is grouped, is asked of whatever observed rows come to its fold.
pub fn folds_are_asked_of()
    ensures { (schema : Schema) (constraints : List Constraint) (query : Query) (name : Option ℕ) (observed : List Row) (seen : Folded) (nodes : List CutNode) → IsQuery schema query → is_none name ≡ is_none query.group → AllowsName query.chosen query.group name → IsFold query name observed seen → (asking : Asking schema constraints (query_for query name) seen) × (setting_for schema constraints (query_for query name) seen nodes asking ≡ setting_in schema observed constraints query name nodes) }
{}
