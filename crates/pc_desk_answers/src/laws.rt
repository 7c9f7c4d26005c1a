ghost use Rattle.std.specs.Prelude.{ℕ, List, []};
ghost use Rattle.pc_model.specs.declared.row.Row.{Row};
ghost use Rattle.pc_model.specs.declared.schema.Schema.{Schema};
ghost use Rattle.pc_model.specs.Aggregate.{aggregate};
ghost use Rattle.pc_proof.specs.Unbroken.{plain_ends};
ghost use Rattle.pc_group.specs.Answers.{AnswersWanted};
ghost use Rattle.pc_group.specs.Trees.{Told};
ghost use Rattle.pc_group.specs.Wanted.{Wanted};
ghost use Rattle.pc_desk_answers.specs.Left.{AreValue};

/// What answers where nothing is lost is the aggregate of the rows that are left, at both ends, and has no ends where they have
/// no value.
pub fn left_is_the_aggregate()
    ensures { (nodes : ℕ) (schema : Schema) (rows : List Row) (w : Wanted) (t : Told) → AnswersWanted nodes schema rows [] w t → AreValue (aggregate w.query w.name rows []) (plain_ends t.block.answer.ends) }
{}
