ghost use Rattle.std.specs.Prelude.{◌≡◌, ◌<◌, ◌≤◌, length, bytes_eq, position, IfOk, IfSome};
ghost use Rattle.pc_model.specs.declared.constraint.Constraint.{Constraint};
ghost use Rattle.pc_script.specs.Script.{place_among, place_in, place_of, rule_place};

use crate::words::{are_blanks, are_digits, first_word};
use pc_model::{Constraint, Reason, read_number};

/// The place, from 0 and among so many, that one word of digits spells from 1.
#[tactic(auto, unfolding(crate::specs::Script::place_of))]
pub(crate) fn place_of(count: u64, text: &[u8]) -> Result<u64, Reason>
    ensures place { result ≡ place_of count text.now }
    ensures there { IfOk result (λ at. at < count) }
{
    let (word, rest) = first_word(text);
    if !are_digits(word) || !are_blanks(rest) {
        return Err(Reason::BadNumber);
    }
    place_in(count, read_number(word, 0))
}

fn place_in(count: u64, number: Result<i64, Reason>) -> Result<u64, Reason>
    ensures place { result ≡ place_in count number }
    ensures there { IfOk result (λ at. at < count) }
{
    match number {
        Ok(number) => place_among(count, number.unsigned_abs()),
        Err(Reason::PastLimit) => Err(Reason::OutsideDomain),
        Err(reason) => Err(reason),
    }
}

fn place_among(count: u64, number: u64) -> Result<u64, Reason>
    ensures place { result ≡ place_among count number }
    ensures there { IfOk result (λ at. at < count) }
{
    if number == 0 || count < number {
        return Err(Reason::OutsideDomain);
    }
    Ok(number - 1)
}

/// The place of the constraint of a name, which is empty for the one on the rows outside.
#[tactic(auto, unfolding(crate::specs::Script::rule_place))]
pub(crate) fn rule_place(constraints: &[Constraint], name: &[u8]) -> Result<u32, Reason>
    requires few { length constraints.now ≤ 20 }
    ensures place { result ≡ rule_place constraints.now name.now }
    ensures there { IfOk result (λ at. at < length constraints.now) }
{
    match position_of(constraints, name) {
        Some(place) => Ok(place as u32),
        None => Err(Reason::UnknownName),
    }
}

fn position_of(constraints: &[Constraint], name: &[u8]) -> Option<usize>
    ensures place { result ≡ position (λ (c : Constraint). bytes_eq c.name name.now) constraints.now }
    ensures there { IfSome result (λ place. place < length constraints.now) }
{
    constraints
        .iter()
        .position(|constraint| constraint.name.as_bytes() == name)
}
