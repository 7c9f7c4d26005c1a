ghost use Rattle.pc_model.specs.Right.{Answer, IsRight, Question};
ghost use Rattle.pc_proof.specs.Agreement.{AnswersAgree};

/// What a right answer says is possible, and its exact ends, are of the case alone: every other right answer to the
/// question agrees with them.
pub fn right_answers_agree()
    ensures { (q : Question) (own other : Answer) → IsRight q own → IsRight q other → AnswersAgree own other }
{}
