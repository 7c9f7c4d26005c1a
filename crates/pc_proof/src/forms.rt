ghost use Rattle.std.specs.Prelude.{◌≡◌, List, Option, All, IfSome, is_none};
ghost use Rattle.pc_model.specs.declared.schema.Schema.{Schema};
ghost use Rattle.pc_model.specs.declared.tree.CutNode.{CutNode};
ghost use Rattle.pc_model.specs.CutTrees.{IsInPreorder};
ghost use Rattle.pc_proof.specs.declared.answer.Answer.{Answer};
ghost use Rattle.pc_proof.specs.declared.document.Block.{Block};
ghost use Rattle.pc_proof.specs.Setting.{Setting};
ghost use Rattle.pc_proof.specs.Unbroken.{HasForm};
ghost use Rattle.pc_proof.specs.Documents.{Premises, HaveForm};
ghost use Rattle.pc_proof.specs.Form.{IsFormedAnswer, IsFormedBlock};

/// An answer in form has what the law of right answers asks of its parts.
pub fn formed_answers_have_form()
    ensures { (schema : Schema) (s : Setting) (answer : Answer) → is_none s.question.name ≡ is_none s.question.query.group → IsInPreorder s.nodes → IsFormedAnswer schema s.question.query.agg answer → HasForm s answer }
{}

/// So have the blocks of a document in form.
pub fn formed_documents_have_form()
    ensures { (case : Premises) (before : Option (List CutNode)) (blocks : List Block) → IfSome before IsInPreorder → All (IsFormedBlock case.schema) blocks → HaveForm case before blocks }
{}
