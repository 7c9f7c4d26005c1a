ghost use Rattle.std.specs.Prelude.{◌≡◌, ◌++◌, ◌∷◌, [], true, false, ℕ, ℤ, List, Ok};
ghost use Rattle.pc_num.specs.Put.{scaled_text};
ghost use Rattle.pc_model.specs.Texts.{is_name};
ghost use Rattle.pc_lang_tokens.specs.declared.token.Token.{Token};
ghost use Rattle.pc_lang_tokens.specs.declared.token.Token.TheVariants as tokens;
ghost use Rattle.pc_lang_tokens.specs.Lexing.{goes_on_name, tokens_from, tokens_of};
ghost use Rattle.pc_lang_tokens.specs.Spelling.{name_text};
ghost use Rattle.pc_lang_tokens.specs.Texts.{are_spelled, is_number, tokens_text};

/// What `put_name` appends for a name is read back as that name, after any tokens and before all that no name goes
/// on with.
#[tactic(auto, using(crate::proofs::ReadingBack::names_read_back))]
pub fn names_read_back()
    ensures { (before : List Token) (name rest : List ℕ) → is_name name ≡ true → goes_on_name rest ≡ false → tokens_from before 0 (name_text name ++ rest) ≡ tokens_from (before ++ tokens.Name name ∷ []) 0 rest }
{}

/// What `put_scaled` of `pc_num` appends for a number is one number of the language.
#[tactic(auto, using(crate::proofs::ScaledTexts::numbers_are_spelled))]
pub fn numbers_are_spelled()
    ensures { (value : ℤ) (scale : ℕ) → is_number (scaled_text value scale) ≡ true }
{}

/// The numbers and names of the tokens that `read_tokens` gives are numbers and names.
#[tactic(auto, using(crate::proofs::Spelled::tokens_are_spelled))]
pub fn tokens_are_spelled()
    ensures { (text : List ℕ) (list : List Token) → tokens_of text ≡ Ok list → are_spelled list ≡ true }
{}

/// What `put_tokens` appends for tokens is read back as those tokens.
#[tactic(auto, using(crate::proofs::TokensBack::tokens_read_back))]
pub fn tokens_read_back()
    ensures { (list : List Token) → are_spelled list ≡ true → tokens_of (tokens_text list) ≡ Ok list }
{}
