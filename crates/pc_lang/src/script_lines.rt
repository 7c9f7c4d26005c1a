ghost use Rattle.std.specs.Prelude.{◌∷◌, ◌++◌, [], IfOk};
ghost use Rattle.pc_model.specs.declared.fault.FileKind.TheVariants as files;
ghost use Rattle.pc_model.specs.Accepted.{AreConstraints};
ghost use Rattle.pc_model.specs.Refusals.{Answers, Gives, placed};
ghost use Rattle.pc_model.specs.WellFormed.{IsWellFormed};
ghost use Rattle.pc_lang.specs.Files.{constraint_from, rule_from};

use crate::files::constraint_from;
use pc_lang_grammar::read_rule as rule_of;
use pc_lang_tokens::read_tokens;
use pc_list::Text;
use pc_model::{Constraint, FileKind, ReadStop, Refusal, Schema};
use std::alloc::Global;

/// Reads a constraint that a script adds to those held. The place of a fault is the given one.
pub fn read_constraint(
    alloc: Global,
    schema: &Schema,
    held: &[Constraint],
    text: &str,
    place: u64,
) -> Result<Constraint, Refusal>
    requires well_formed { IsWellFormed schema.now }
    requires accepted { AreConstraints schema.now held.now }
    ensures gives { Gives result (placed files.Script place (constraint_from schema.now held.now text.now)) }
    ensures accepted { IfOk result (λ c. AreConstraints schema.now (held.now ++ c ∷ [])) }
{
    match constraint_from(alloc, schema, held, text.as_bytes()) {
        Ok(constraint) => Ok(constraint),
        Err(stop) => Err(stop.at(FileKind::Script, place)),
    }
}

/// Reads the name of a constraint that a script drops, which is empty for `outside`. The place of a fault is the given one.
pub fn read_rule(alloc: Global, text: &str, place: u64) -> Result<Text, Refusal>
    ensures gives { Gives result (placed files.Script place (rule_from text.now)) }
{
    match rule_from(alloc, text.as_bytes()) {
        Ok(name) => Ok(name),
        Err(stop) => Err(stop.at(FileKind::Script, place)),
    }
}

/// Reads the name of a constraint that all of a text spells, which is empty for `outside`.
#[tactic(auto, unfolding(crate::specs::Files::rule_from))]
pub fn rule_from(alloc: Global, text: &[u8]) -> Result<Text, ReadStop>
    ensures answers { Answers result (rule_from text.now) }
{
    let tokens = read_tokens(alloc, text)?;
    Ok(rule_of(alloc, tokens.list.as_slice())?)
}
