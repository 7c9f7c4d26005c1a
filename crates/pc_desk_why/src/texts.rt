//! The texts of the cells of a part.
ghost use Rattle.std.specs.Prelude.{◌≡◌, ◌≤◌, ◌++◌, codes, decimal, flat_map, IfOk, OnOk};
ghost use Rattle.std.specs.List.{concat};
ghost use Rattle.pc_desk_why.specs.Texts.{hold_text, holds_after, holds_text, least_at, limit_text, most_at, names_after, names_text, next_hold, next_name, number_text, stand_word, word_text};

use pc_desk_parts::{Hold, Stand};
use pc_desk_short::put_name_in;
use pc_desk_table::shown;
use pc_list::Text;
use pc_model::Constraint;
use pc_num::{Memory, put_scaled};
use std::alloc::Global;

/// A number in units of the last of so many places.
pub(crate) fn number_text(alloc: Global, number: i128, places: u8) -> Result<Text, Memory>
    requires { places ≤ 6 }
    ensures { IfOk result (λ text. text ≡ number_text number places) }
{
    let mut bytes = Vec::new(alloc);
    put_scaled(alloc, &mut bytes, number, places)?;
    shown(alloc, bytes.as_slice())
}

/// Where rows stand to the end of a quantile.
pub(crate) fn stand_word(stand: Stand) -> &'static str
    ensures { result.now ≡ stand_word stand }
{
    match stand {
        Stand::Below => "below",
        Stand::At => "at",
        Stand::Above => "above",
    }
}

/// The names of the constraints at places, as the language writes them.
pub(crate) fn names_text(
    alloc: Global,
    constraints: &[Constraint],
    places: &[usize],
) -> Result<Text, Memory>
    ensures { IfOk result (λ text. text ≡ names_text constraints.now places.now) }
{
    match places {
        [] => Ok(Text::from_text(alloc, "")?),
        [first, rest @ ..] => {
            let mut bytes = Vec::new(alloc);
            put_name_in(alloc, &mut bytes, constraints, *first)?;
            let mut after = names_after(alloc, constraints, rest)?;
            bytes.append(&mut after)?;
            shown(alloc, bytes.as_slice())
        }
    }
}

#[tactic(auto, using(std::proofs::lemmas::List::flat_map_more), unfolding(crate::specs::Texts::names_after))]
fn names_after(
    alloc: Global,
    constraints: &[Constraint],
    places: &[usize],
) -> Result<Vec<u8>, Memory>
    ensures { IfOk result (λ text. text.items ≡ names_after constraints.now places.now) }
{
    let mut bytes = Vec::new(alloc);
    for place in places {
        put_next_name(alloc, &mut bytes, constraints, *place)?;
    }
    Ok(bytes)
}

#[tactic(auto, unfolding(crate::specs::Texts::next_name))]
fn put_next_name(
    alloc: Global,
    out: &mut Vec<u8>,
    constraints: &[Constraint],
    place: usize,
) -> Result<(), Memory>
    ensures { OnOk result (out.new.items ≡ out.old.items ++ next_name constraints.now place) }
{
    out.extend_from_slice(b" ")?;
    put_name_in(alloc, out, constraints, place)
}

/// What holds rows: limits, values and predicates of constraints by their names, and the schema.
pub(crate) fn holds_text(
    alloc: Global,
    constraints: &[Constraint],
    holds: &[Hold],
) -> Result<Text, Memory>
    ensures { IfOk result (λ text. text ≡ holds_text constraints.now holds.now) }
{
    match holds {
        [] => Ok(Text::from_text(alloc, "")?),
        [first, rest @ ..] => {
            let mut bytes = Vec::new(alloc);
            put_hold(alloc, &mut bytes, constraints, *first)?;
            let mut after = holds_after(alloc, constraints, rest)?;
            bytes.append(&mut after)?;
            shown(alloc, bytes.as_slice())
        }
    }
}

#[tactic(auto, using(std::proofs::lemmas::List::flat_map_more), unfolding(crate::specs::Texts::holds_after))]
fn holds_after(alloc: Global, constraints: &[Constraint], holds: &[Hold]) -> Result<Vec<u8>, Memory>
    ensures { IfOk result (λ text. text.items ≡ holds_after constraints.now holds.now) }
{
    let mut bytes = Vec::new(alloc);
    for hold in holds {
        put_next_hold(alloc, &mut bytes, constraints, *hold)?;
    }
    Ok(bytes)
}

#[tactic(auto, unfolding(crate::specs::Texts::next_hold))]
fn put_next_hold(
    alloc: Global,
    out: &mut Vec<u8>,
    constraints: &[Constraint],
    hold: Hold,
) -> Result<(), Memory>
    ensures { OnOk result (out.new.items ≡ out.old.items ++ next_hold constraints.now hold) }
{
    out.extend_from_slice(b"; ")?;
    put_hold(alloc, out, constraints, hold)
}

#[tactic(auto, unfolding(crate::specs::Texts::hold_text))]
fn put_hold(
    alloc: Global,
    out: &mut Vec<u8>,
    constraints: &[Constraint],
    hold: Hold,
) -> Result<(), Memory>
    ensures { OnOk result (out.new.items ≡ out.old.items ++ hold_text constraints.now hold) }
{
    match hold {
        Hold::Most(place) => {
            let most = most_at(constraints, place);
            put_limit(alloc, out, constraints, place, "most", most)
        }
        Hold::Least(place) => {
            let least = least_at(constraints, place);
            put_limit(alloc, out, constraints, place, "least", least)
        }
        Hold::Values(place) => put_word(alloc, out, constraints, place, " values"),
        Hold::When(place) => put_word(alloc, out, constraints, place, " when"),
        Hold::Schema => {
            out.extend_from_slice(b"schema")?;
            Ok(())
        }
    }
}

#[tactic(auto, unfolding(crate::specs::Texts::limit_text))]
fn put_limit(
    alloc: Global,
    out: &mut Vec<u8>,
    constraints: &[Constraint],
    place: usize,
    word: &str,
    limit: u64,
) -> Result<(), Memory>
    ensures { OnOk result (out.new.items ≡ out.old.items ++ limit_text constraints.now place word.now limit) }
{
    put_name_in(alloc, out, constraints, place)?;
    let text = format!(in alloc; " {word} {limit}")?;
    out.extend_from_slice(text.as_bytes())?;
    Ok(())
}

#[tactic(auto, unfolding(crate::specs::Texts::word_text))]
fn put_word(
    alloc: Global,
    out: &mut Vec<u8>,
    constraints: &[Constraint],
    place: usize,
    word: &str,
) -> Result<(), Memory>
    ensures { OnOk result (out.new.items ≡ out.old.items ++ word_text constraints.now place word.now) }
{
    put_name_in(alloc, out, constraints, place)?;
    out.extend_from_slice(word.as_bytes())?;
    Ok(())
}

fn most_at(constraints: &[Constraint], place: usize) -> u64
    ensures { result ≡ most_at constraints.now place }
{
    match constraints.get(place) {
        Some(constraint) => constraint.most,
        None => 0,
    }
}

fn least_at(constraints: &[Constraint], place: usize) -> u64
    ensures { result ≡ least_at constraints.now place }
{
    match constraints.get(place) {
        Some(constraint) => constraint.least,
        None => 0,
    }
}
