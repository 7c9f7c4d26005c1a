ghost use Rattle.std.specs.Prelude.{◌≡◌, ◌≤◌, ◌<◌, ◌++◌, length, map, IfOk, OnOk};
ghost use Rattle.pc_model.specs.WellFormed.{IsKind};
ghost use Rattle.pc_desk_sql.specs.Claims.{claim_text, names_claim, span_claim};
ghost use Rattle.pc_desk_sql.specs.Readings.{domain_test};
ghost use Rattle.pc_desk_sql.specs.Tests.{chosen_names, name_if, test_of};
ghost use Rattle.pc_desk_sql.specs.Texts.{string_text};

use crate::texts::{STRING, listed, quoted, surrounded};
use pc_list::{Seq, Text};
use pc_model::{Kind, Side, has_bit};
use pc_num::{Memory, put_scaled};
use std::alloc::Global;

/// What a side asks of a value.
pub(crate) fn side_claim(alloc: Global, kind: &Kind, side: Side) -> Result<Seq<u8>, Memory>
    requires { IsKind kind.now }
    ensures { IfOk result (λ text. text ≡ claim_text (test_of kind.now side)) }
{
    match (kind, side) {
        (Kind::Int { .. }, Side::Span { low, high }) => span_claim(alloc, low, high),
        (Kind::Dec { .. }, Side::Span { low, high }) => span_claim(alloc, low, high),
        (Kind::Cat { names }, Side::Names { bits }) => {
            let chosen = chosen_names(alloc, bits, names.as_slice())?;
            names_claim(alloc, chosen.as_slice())
        }
        _ => Ok(Seq::from_slice(alloc, b" IS NULL")?),
    }
}

/// What is asked of a value of the column.
pub(crate) fn domain_claim(alloc: Global, kind: &Kind) -> Result<Seq<u8>, Memory>
    ensures { IfOk result (λ text. text ≡ claim_text (domain_test kind.now)) }
{
    match kind {
        Kind::Int { low, high } => span_claim(alloc, *low, *high),
        Kind::Dec { low, high, .. } => span_claim(alloc, *low, *high),
        Kind::Cat { names } => names_claim(alloc, names.as_slice()),
    }
}

#[tactic(auto, unfolding(crate::specs::Claims::span_claim))]
fn span_claim(alloc: Global, low: i64, high: i64) -> Result<Seq<u8>, Memory>
    ensures { IfOk result (λ text. text ≡ span_claim low high) }
{
    let mut text = Vec::new(alloc);
    text.extend_from_slice(b" BETWEEN ")?;
    put_scaled(alloc, &mut text, i128::from(low), 0)?;
    text.extend_from_slice(b" AND ")?;
    put_scaled(alloc, &mut text, i128::from(high), 0)?;
    Ok(Seq::from_vec(text))
}

#[tactic(auto, unfolding(crate::specs::Claims::names_claim))]
fn names_claim(alloc: Global, names: &[Text]) -> Result<Seq<u8>, Memory>
    ensures { IfOk result (λ text. text ≡ names_claim names.now) }
{
    let texts = strings_of(alloc, names)?;
    let all = listed(alloc, "", ", ", texts.as_slice())?;
    surrounded(alloc, " IN (", all.as_slice(), b")")
}

#[tactic(auto, using(std::proofs::lemmas::List::map_more))]
fn strings_of(alloc: Global, names: &[Text]) -> Result<Seq<Seq<u8>>, Memory>
    ensures { IfOk result (λ texts. texts ≡ map string_text names.now) }
{
    let mut texts = Seq::new(alloc);
    for name in names {
        texts.push(quoted(alloc, STRING, name.as_str().as_bytes())?)?;
    }
    Ok(texts)
}

// The names whose places are in the set.
#[tactic(auto, using(crate::proofs::Listing::names_steps))]
fn chosen_names(alloc: Global, bits: u128, names: &[Text]) -> Result<Seq<Text>, Memory>
    requires { length names.now ≤ 128 }
    ensures { IfOk result (λ chosen. chosen ≡ chosen_names bits 0 names.now) }
{
    let mut chosen = Seq::new(alloc);
    for (place, name) in names.iter().enumerate() {
        push_name(&mut chosen, bits, place, name)?;
    }
    Ok(chosen)
}

fn push_name(chosen: &mut Seq<Text>, bits: u128, place: usize, name: &Text) -> Result<(), Memory>
    requires { place < 128 }
    ensures { OnOk result (chosen.new ≡ chosen.old ++ name_if bits place name.now) }
{
    if has_bit(bits, place) {
        chosen.push(name.clone()?)?;
    }
    Ok(())
}
