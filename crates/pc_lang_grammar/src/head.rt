ghost use Rattle.std.specs.Prelude.{◌≡◌};
ghost use Rattle.pc_model.specs.Refusals.{Answers};
ghost use Rattle.pc_lang_grammar.specs.Parsing.{head_of};

use crate::syntax::Head;
use crate::ways::ways_of;
use pc_lang_tokens::{Symbol, Token, Word};
use pc_model::{ReadStop, Reason};
use std::alloc::Global;

/// The head that all of the tokens spell: a name and its parts, or `outside`.
#[tactic(auto, unfolding(crate::specs::Parsing::head_of))]
pub(crate) fn head_of(alloc: Global, tokens: &[Token]) -> Result<Head, ReadStop>
    ensures { Answers result (head_of tokens.now) }
{
    match tokens {
        [Token::Name(name), Token::Symbol(Symbol::Colon), rest @ ..] => {
            let when = ways_of(alloc, rest)?;
            Ok(Head::Named {
                name: name.clone()?,
                when,
            })
        }
        [Token::Reserved(Word::Outside)] => Ok(Head::Outside),
        _ => Err(ReadStop::Reason(Reason::Unexpected)),
    }
}
