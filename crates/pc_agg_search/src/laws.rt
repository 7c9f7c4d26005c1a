ghost use Rattle.std.specs.Prelude.{List};
ghost use Rattle.pc_model.specs.Accepted.{AreConstraints};
ghost use Rattle.pc_model.specs.Cells.{IsSettledTree};
ghost use Rattle.pc_model.specs.Membership.{AreDisjoint};
ghost use Rattle.pc_model.specs.WellFormed.{IsWellFormed};
ghost use Rattle.pc_model.specs.declared.constraint.Constraint.{Constraint};
ghost use Rattle.pc_model.specs.declared.schema.Schema.{Schema};
ghost use Rattle.pc_proof.specs.declared.answer.Relation.{Relation};
ghost use Rattle.pc_proof.specs.declared.answer.Lack.{Lack};
ghost use Rattle.pc_proof.specs.declared.answer.Answer.{Answer};
ghost use Rattle.pc_proof.specs.Setting.{Setting, area_of};
ghost use Rattle.pc_proof.specs.Unbroken.{HoldsRelation, HoldsLack, HasForm, IsUnbroken};
ghost use Rattle.pc_proof.specs.Form.{IsFormedRelation, IsFormedLack, IsFormedAnswer};
ghost use Rattle.pc_agg_search.specs.Easy.{IsEasy};
ghost use Rattle.pc_agg_search.specs.Fitting.{IsFitRelation, IsFitLack, IsFitAnswer};

/// What breaks no rule over a settled tree, and whose values and multipliers fit, is in form.
pub fn fitting_answers_are_formed()
    ensures relation { (s : Setting) (relation : Relation) → IsWellFormed s.question.schema → AreConstraints s.question.schema s.question.constraints → IsSettledTree s.question.schema s.question.constraints (area_of s.question) s.nodes → HoldsRelation s relation → IsFitRelation s.question.query.agg relation → IsFormedRelation s.question.schema s.question.query.agg relation }
    ensures lack { (s : Setting) (lack : Lack) → IsWellFormed s.question.schema → AreConstraints s.question.schema s.question.constraints → IsSettledTree s.question.schema s.question.constraints (area_of s.question) s.nodes → HoldsLack s lack → IsFitLack s.question.query.agg lack → IsFormedLack s.question.schema s.question.query.agg lack }
    ensures answer { (s : Setting) (answer : Answer) → IsWellFormed s.question.schema → AreConstraints s.question.schema s.question.constraints → IsSettledTree s.question.schema s.question.constraints (area_of s.question) s.nodes → HasForm s answer → IsUnbroken s answer → IsFitAnswer s.question.query.agg answer → IsFormedAnswer s.question.schema s.question.query.agg answer }
{}

/// Constraints of which no two speak of one row leave nothing open.
pub fn disjoint_constraints_are_easy()
    ensures { (schema : Schema) (constraints : List Constraint) → AreDisjoint schema constraints → IsEasy schema constraints }
{}
