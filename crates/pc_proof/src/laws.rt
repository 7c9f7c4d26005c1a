ghost use Rattle.std.specs.Prelude.{List, Option, IsSome};
ghost use Rattle.pc_model.specs.declared.row.Row.{Row};
ghost use Rattle.pc_model.specs.declared.tree.CutNode.{CutNode};
ghost use Rattle.pc_model.specs.declared.query.Folded.{Folded};
ghost use Rattle.pc_model.specs.Folds.{IsFold};
ghost use Rattle.pc_model.specs.Right.{IsRight, IsPossibleFor, Question, value_for};
ghost use Rattle.pc_proof.specs.declared.answer.Answer.{Answer};
ghost use Rattle.pc_proof.specs.declared.answer.Bounded.{Bounded};
ghost use Rattle.pc_proof.specs.declared.document.Block.{Block};
ghost use Rattle.pc_model.specs.Cells.{IsSettledTree};
ghost use Rattle.pc_proof.specs.Observed.{ComesTo};
ghost use Rattle.pc_proof.specs.Setting.{Setting, area_of};
ghost use Rattle.pc_proof.specs.Table.{EndsCross};
ghost use Rattle.pc_proof.specs.Unbroken.{HasForm, IsUnbroken, IsWellPosed, plain_answer};
ghost use Rattle.pc_proof.specs.Documents.{Premises, ArePosed, HaveForm, AreUnbroken, AreRight};

/// An answer that has its form and breaks no rule is right, whatever its aggregate, grouped or not.
pub fn unbroken_is_right()
    ensures { (s : Setting) (answer : Answer) → IsWellPosed s.question → HasForm s answer → IsUnbroken s answer → IsRight s.question (plain_answer answer) }
{}

/// Where some possible list gives a value, ends with their proofs do not cross.
pub fn given_ends_do_not_cross()
    ensures { (s : Setting) (lost : List Row) (low high : Bounded) → IsWellPosed s.question → IsSettledTree s.question.schema s.question.constraints (area_of s.question) s.nodes → IsPossibleFor s.question lost → IsSome (value_for s.question lost) → EndsCross s low high → ⊥ }
{}

/// The blocks of a document that breaks no rule are right, each with the tree that it means.
pub fn unbroken_are_right()
    ensures { (case : Premises) (before : Option (List CutNode)) (blocks : List Block) → ArePosed case blocks → HaveForm case before blocks → AreUnbroken case before blocks → AreRight case blocks }
{}

/// The observed rows of a question come to whatever their fold has.
pub fn folds_are_observed()
    ensures { (q : Question) (seen : Folded) → IsFold q.query q.name q.observed seen → ComesTo q seen }
{}
