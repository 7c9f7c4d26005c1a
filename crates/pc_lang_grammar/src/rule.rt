ghost use Rattle.pc_model.specs.Refusals.{Answers};
ghost use Rattle.pc_lang_grammar.specs.declared.want.LineWant.TheVariants as lines;
ghost use Rattle.pc_lang_grammar.specs.declared.want.Want.TheVariants as wants;
ghost use Rattle.pc_lang_grammar.specs.Halts.{Reads, halt_of};
ghost use Rattle.pc_lang_grammar.specs.Parsing.{rule_of};

use crate::halt::{Unread, stopped_at};
use crate::want::{LineWant, Want};
use pc_lang_tokens::{Token, Word};
use pc_list::Text;
use pc_model::{ReadStop, Reason};
use std::alloc::Global;

/// Reads what a constraint is called by: its name, or `outside`, for which the name is empty. It takes all of the tokens.
#[tactic(auto, using(crate::proofs::Laws::only_unexpected))]
pub fn read_rule(alloc: Global, tokens: &[Token]) -> Result<Text, Unread>
    ensures reads { Reads result (rule_of tokens.now) (halt_of (wants.Line lines.Rule) tokens.now) }
{
    match rule_of(alloc, tokens) {
        Ok(name) => Ok(name),
        Err(stop) => Err(stopped_at(stop, Want::Line(LineWant::Rule), tokens)),
    }
}

#[tactic(auto, unfolding(crate::specs::Parsing::rule_of))]
fn rule_of(alloc: Global, tokens: &[Token]) -> Result<Text, ReadStop>
    ensures { Answers result (rule_of tokens.now) }
{
    match tokens {
        [Token::Name(name)] => Ok(name.clone()?),
        [Token::Reserved(Word::Outside)] => Ok(Text::from_text(alloc, "")?),
        _ => Err(ReadStop::Reason(Reason::Unexpected)),
    }
}
