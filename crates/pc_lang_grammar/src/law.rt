ghost use Rattle.std.specs.Prelude.{◌≡◌, ◌≢◌, List, Ok, Err};
ghost use Rattle.pc_model.specs.declared.fault.Reason.{Reason};
ghost use Rattle.pc_model.specs.declared.fault.Reason.TheVariants.{Unexpected};
ghost use Rattle.pc_lang_tokens.specs.declared.token.Token.{Token};
ghost use Rattle.pc_lang_grammar.specs.declared.syntax.Line.{Line};
ghost use Rattle.pc_lang_grammar.specs.declared.syntax.Question.{Question};
ghost use Rattle.pc_lang_grammar.specs.declared.syntax.QuantileQuestion.{QuantileQuestion};
ghost use Rattle.pc_lang_grammar.specs.declared.want.LineWant.TheVariants as lines;
ghost use Rattle.pc_lang_grammar.specs.declared.want.QueryWant.TheVariants as queries;
ghost use Rattle.pc_lang_grammar.specs.declared.want.QuantileWant.TheVariants as quantiles;
ghost use Rattle.pc_lang_grammar.specs.declared.want.Want.TheVariants as wants;
ghost use Rattle.pc_lang_grammar.specs.Grammar.{line_tokens, quantile_tokens, question_tokens};
ghost use Rattle.pc_lang_grammar.specs.Halts.{IsPlaceIn, asked_tokens, halt_of, rule_tokens};
ghost use Rattle.pc_lang_grammar.specs.Parsing.{line_of, quantile_of, question_of};

/// The reader of lines takes what the grammar spells and nothing else.
#[tactic(auto, using(crate::proofs::Laws::line_laws))]
pub fn lines_follow_the_grammar()
    ensures spelled { (list : List Token) (line : Line) → line_of list ≡ Ok line → line_tokens line ≡ list }
    ensures read { (line : Line) → line_of (line_tokens line) ≡ Ok line }
    ensures refused { (list : List Token) (reason : Reason) → line_of list ≡ Err reason → (reason ≡ Unexpected) × ((line : Line) → line_tokens line ≢ list) }
{}

/// The reader of queries takes what the grammar spells and nothing else.
#[tactic(auto, using(crate::proofs::Laws::question_laws))]
pub fn questions_follow_the_grammar()
    ensures spelled { (list : List Token) (question : Question) → question_of list ≡ Ok question → question_tokens question ≡ list }
    ensures read { (question : Question) → question_of (question_tokens question) ≡ Ok question }
    ensures refused { (list : List Token) (reason : Reason) → question_of list ≡ Err reason → (reason ≡ Unexpected) × ((question : Question) → question_tokens question ≢ list) }
{}

/// The reader of queries of quantiles takes what the grammar spells and nothing else.
#[tactic(auto, using(crate::proofs::Laws::quantile_laws))]
pub fn quantiles_follow_the_grammar()
    ensures spelled { (list : List Token) (question : QuantileQuestion) → quantile_of list ≡ Ok question → quantile_tokens question ≡ list }
    ensures read { (question : QuantileQuestion) → quantile_of (quantile_tokens question) ≡ Ok question }
    ensures refused { (list : List Token) (reason : Reason) → quantile_of list ≡ Err reason → (reason ≡ Unexpected) × ((question : QuantileQuestion) → quantile_tokens question ≢ list) }
{}

/// Where reading stops is where the tokens leave the language: some text begins with those before the place, none with those up
/// to and with the one at it, and what may stand there is what some text goes on with.
#[tactic(auto, using(crate::proofs::Telling::laws))]
pub fn places_are_where_texts_end()
    ensures lines { (list : List Token) → IsPlaceIn line_tokens list (halt_of (wants.Line lines.Head) list) }
    ensures rules { (list : List Token) → IsPlaceIn rule_tokens list (halt_of (wants.Line lines.Rule) list) }
    ensures questions { (list : List Token) → IsPlaceIn question_tokens list (halt_of (wants.Query queries.Measure) list) }
    ensures quantiles { (list : List Token) → IsPlaceIn quantile_tokens list (halt_of (wants.Quantile quantiles.Word) list) }
    ensures asked { (list : List Token) → IsPlaceIn asked_tokens list (halt_of wants.Asked list) }
{}
