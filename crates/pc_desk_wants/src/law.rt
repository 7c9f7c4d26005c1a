ghost use Rattle.std.specs.Prelude.{◌≡◌, ◌<◌, ◌+◌, ◌++◌, ◌↔◌, ℕ, IsTrue, List, length, get_or, take};
ghost use Rattle.std.specs.List.{Contains};
ghost use Rattle.pc_lang_tokens.specs.declared.token.Token.{Token};
ghost use Rattle.pc_lang_tokens.specs.declared.tokens.Tokens.{Tokens};
ghost use Rattle.pc_lang_tokens.specs.Places.{AreTokens, BeginsAt};
ghost use Rattle.pc_lang_tokens.specs.Texts.{token_text};
ghost use Rattle.pc_lang_grammar.specs.declared.want.Want.{Want};
ghost use Rattle.pc_lang_grammar.specs.declared.want.Kind.{Kind};
ghost use Rattle.pc_lang_grammar.specs.Halts.{halt_of};
ghost use Rattle.pc_desk_wants.specs.Kinds.{may_come, told_kinds};
ghost use Rattle.pc_desk_wants.specs.Shown.{chars_in};
ghost use Rattle.pc_desk_wants.specs.Told.{at_text, halt_text, words_text};
ghost use Rattle.pc_desk_wants.specs.Wanted.{wanted_text};

/// Told of a place are the kinds of tokens that may stand there, and no others.
#[tactic(auto, using(crate::proofs::Laws::kind_laws))]
pub fn all_that_may_stand_is_told()
    ensures { (want : Want) (kind : Kind) → Contains (told_kinds want) kind ↔ IsTrue (may_come want kind) }
{}

/// Where reading stops at a token, the column that is told is one more than the characters before it in its line, and what is
/// told to stand there is that token.
#[tactic(auto, using(crate::proofs::Laws::column_laws))]
pub fn columns_are_of_the_halt()
    ensures { (front text : List ℕ) (start : Want) (tokens : Tokens) (token : Token) → AreTokens text tokens → ((halt_of start tokens.list).place < length tokens.list) → (token ≡ get_or tokens.list (halt_of start tokens.list).place token) → (place : ℕ) × BeginsAt text token place × (halt_text front text tokens (halt_of start tokens.list) ≡ at_text (chars_in (front ++ take place text) + 1) (token_text token) (words_text (wanted_text (halt_of start tokens.list).want))) }
{}
