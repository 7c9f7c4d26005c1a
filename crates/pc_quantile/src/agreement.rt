ghost use Rattle.pc_model.specs.Right.{Answer, Question};
ghost use Rattle.pc_proof.specs.Agreement.{AnswersAgree};
ghost use Rattle.pc_lang.specs.declared.quantile.Quantile.{Quantile};
ghost use Rattle.pc_quantile.specs.Right.{IsRight};

/// What a right answer to a quantile says is possible, and its exact ends, are of the case alone: every other right
/// answer to it agrees with them.
pub fn right_quantiles_agree()
    ensures { (q : Question) (asked : Quantile) (own other : Answer) → IsRight q asked own → IsRight q asked other → AnswersAgree own other }
{}
