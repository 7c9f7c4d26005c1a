ghost use Rattle.std.specs.Prelude.{◌≡◌, List, [], ◌∷◌, ◌++◌, All};
ghost use Rattle.pc_model.specs.declared.schema.Schema.{Schema};
ghost use Rattle.pc_session.specs.declared.line.Edit.{Edit};
ghost use Rattle.pc_session.specs.declared.line.Line.{Line};
ghost use Rattle.pc_session.specs.Edited.{CanEdit, CanFollow, CanFollowAll, Held, after_line, case_at, cases_of, edited, held_after};
ghost use Rattle.pc_session.specs.HeldWell.{IsAskedWell, IsHeldWell};

/// What is held after lines and one more, that these can be followed, and the cases that they ask about.
#[tactic(auto, using(crate::proofs::Followed::held_after_push, crate::proofs::Followed::follow_one_more, crate::proofs::Followed::cases_of_push))]
pub fn lines_follow_one_another()
    ensures held { (held : Held) (lines : List Line) (line : Line) → held_after held (lines ++ line ∷ []) ≡ after_line (held_after held lines) line }
    ensures followed { (schema : Schema) (held : Held) (lines : List Line) (line : Line) → CanFollowAll schema held lines → CanFollow schema (held_after held lines) line → CanFollowAll schema held (lines ++ line ∷ []) }
    ensures cases { (schema : Schema) (held : Held) (lines : List Line) (line : Line) → cases_of schema held (lines ++ line ∷ []) ≡ cases_of schema held lines ++ case_at schema (held_after held lines) line }
{}

/// What is held stays well-formed by an edit that is allowed.
#[tactic(auto, using(crate::proofs::Remains::edit_keeps))]
pub fn edits_keep_what_is_held()
    ensures { (schema : Schema) (held : Held) (edit : Edit) → IsHeldWell schema held → CanEdit schema held edit → IsHeldWell schema (edited held edit) }
{}

/// So it does by lines that can be followed, and what they ask about is well-formed.
#[tactic(auto, using(crate::proofs::Remains::lines_keep, crate::proofs::Remains::cases_well))]
pub fn lines_keep_what_is_held()
    ensures held { (schema : Schema) (held : Held) (lines : List Line) → IsHeldWell schema held → CanFollowAll schema held lines → IsHeldWell schema (held_after held lines) }
    ensures asked { (schema : Schema) (held : Held) (lines : List Line) → IsHeldWell schema held → CanFollowAll schema held lines → All (IsAskedWell schema) (cases_of schema held lines) }
{}
