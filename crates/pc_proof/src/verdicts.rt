ghost use Rattle.std.specs.Prelude.{◌≡◌, ◌↔◌, ℕ, List, Option, All};
ghost use Rattle.pc_model.specs.declared.tree.CutNode.{CutNode};
ghost use Rattle.pc_proof.specs.declared.answer.Answer.{Answer};
ghost use Rattle.pc_proof.specs.declared.document.Block.{Block};
ghost use Rattle.pc_proof.specs.Setting.{Setting};
ghost use Rattle.pc_proof.specs.Unbroken.{IsUnbroken};
ghost use Rattle.pc_proof.specs.Demands.{Holds, IsFirstBroken, Placed, TreeLines, block_demands};
ghost use Rattle.pc_proof.specs.Documents.{Premises, AreUnbroken, IsFirstBrokenIn};

/// The demands of a block hold exactly where the answer breaks no rule.
pub fn demands_are_the_rules()
    ensures { (kind : TreeLines) (s : Setting) (line : ℕ) (answer : Answer) → (All (Holds s) (block_demands kind s line answer) ↔ IsUnbroken s answer) }
{}

/// At most one line and rule are those of the first demand that is broken.
pub fn one_verdict()
    ensures { (s : Setting) (first rule other kind : ℕ) (demands : List Placed) → IsFirstBroken s first rule demands → IsFirstBroken s other kind demands → (first ≡ other) × (rule ≡ kind) }
{}

/// A document with a broken rule is not one that breaks none.
pub fn broken_or_unbroken()
    ensures { (case : Premises) (before : Option (List CutNode)) (at line rule : ℕ) (blocks : List Block) → IsFirstBrokenIn case before at line rule blocks → AreUnbroken case before blocks → ⊥ }
{}

/// At most one line and rule are those of the first demand of a document that is broken.
pub fn one_first_broken()
    ensures { (case : Premises) (before : Option (List CutNode)) (at first rule other kind : ℕ) (blocks : List Block) → IsFirstBrokenIn case before at first rule blocks → IsFirstBrokenIn case before at other kind blocks → (first ≡ other) × (rule ≡ kind) }
{}
