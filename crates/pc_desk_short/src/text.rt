ghost use Rattle.std.specs.Prelude.{◌≡◌, ◌++◌, codes, decimal, slice_get, IfOk, OnOk};
ghost use Rattle.pc_desk_short.specs.ShortTexts.{claim_text, claims_text, limit_word, name_in, needs_text, next_claims_text, rooms_text, side_text, times_text};

use crate::claim::{Claim, Limit};
use crate::shortage::Shortage;
use pc_desk_table::shown;
use pc_desk_try::put_written_name;
use pc_list::Text;
use pc_model::Constraint;
use pc_num::Memory;
use std::alloc::Global;

/// What constraints need: the rows together, and each constraint with its least.
pub fn needs_text(
    alloc: Global,
    constraints: &[Constraint],
    shortage: &Shortage,
) -> Result<Text, Memory>
    ensures needs { IfOk result (λ text. text ≡ needs_text constraints.now shortage.now) }
{
    let needs = shortage.needs.as_slice();
    let text = side_text(
        alloc,
        "needs ",
        shortage.needed,
        Limit::Least,
        constraints,
        needs,
    )?;
    shown(alloc, text.as_slice())
}

/// What constraints have room for: the rows together, and each constraint with its most.
pub fn rooms_text(
    alloc: Global,
    constraints: &[Constraint],
    shortage: &Shortage,
) -> Result<Text, Memory>
    ensures rooms { IfOk result (λ text. text ≡ rooms_text constraints.now shortage.now) }
{
    let rooms = shortage.rooms.as_slice();
    let text = side_text(
        alloc,
        "room ",
        shortage.room,
        Limit::Most,
        constraints,
        rooms,
    )?;
    shown(alloc, text.as_slice())
}

#[tactic(auto, unfolding(crate::specs::ShortTexts::side_text))]
fn side_text(
    alloc: Global,
    title: &str,
    rows: u128,
    limit: Limit,
    constraints: &[Constraint],
    claims: &[Claim],
) -> Result<Vec<u8>, Memory>
    ensures { IfOk result (λ text. text.items ≡ side_text title.now rows limit constraints.now claims.now) }
{
    let mut text = Vec::new(alloc);
    text.extend_from_slice(title.as_bytes())?;
    put_number(alloc, &mut text, rows)?;
    text.extend_from_slice(b": ")?;
    put_claims(alloc, &mut text, limit, constraints, claims)?;
    Ok(text)
}

fn put_number(alloc: Global, out: &mut Vec<u8>, number: u128) -> Result<(), Memory>
    ensures { OnOk result (out.new.items ≡ out.old.items ++ decimal number) }
{
    let digits = number.to_string(alloc)?;
    out.extend_from_slice(digits.as_bytes())?;
    Ok(())
}

// Appends the claims with a comma and a space between two.
fn put_claims(
    alloc: Global,
    out: &mut Vec<u8>,
    limit: Limit,
    constraints: &[Constraint],
    claims: &[Claim],
) -> Result<(), Memory>
    ensures { OnOk result (out.new.items ≡ out.old.items ++ claims_text limit constraints.now claims.now) }
{
    match claims {
        [claim, claims @ ..] => {
            put_claim(alloc, out, limit, constraints, claim)?;
            put_next_claims(alloc, out, limit, constraints, claims)
        }
        [] => {
            out.extend_from_slice(b"no constraint")?;
            Ok(())
        }
    }
}

#[tactic(auto, using(std::proofs::lemmas::List::flat_map_more), unfolding(crate::specs::ShortTexts::next_claims_text))]
fn put_next_claims(
    alloc: Global,
    out: &mut Vec<u8>,
    limit: Limit,
    constraints: &[Constraint],
    claims: &[Claim],
) -> Result<(), Memory>
    ensures { OnOk result (out.new.items ≡ out.old.items ++ next_claims_text limit constraints.now claims.now) }
{
    for claim in claims {
        put_next_claim(alloc, out, limit, constraints, claim)?;
    }
    Ok(())
}

fn put_next_claim(
    alloc: Global,
    out: &mut Vec<u8>,
    limit: Limit,
    constraints: &[Constraint],
    claim: &Claim,
) -> Result<(), Memory>
    ensures { OnOk result (out.new.items ≡ out.old.items ++ (codes ", " ++ claim_text limit constraints.now claim.now)) }
{
    out.extend_from_slice(b", ")?;
    put_claim(alloc, out, limit, constraints, claim)
}

#[tactic(auto, unfolding(crate::specs::ShortTexts::claim_text))]
fn put_claim(
    alloc: Global,
    out: &mut Vec<u8>,
    limit: Limit,
    constraints: &[Constraint],
    claim: &Claim,
) -> Result<(), Memory>
    ensures { OnOk result (out.new.items ≡ out.old.items ++ claim_text limit constraints.now claim.now) }
{
    put_name_in(alloc, out, constraints, claim.place)?;
    put_limit_word(out, limit)?;
    put_number(alloc, out, u128::from(claim.limit))?;
    put_times(alloc, out, claim.times)
}

/// Appends the name of the constraint at a place, as the language writes it, and nothing where there is none.
pub fn put_name_in(
    alloc: Global,
    out: &mut Vec<u8>,
    constraints: &[Constraint],
    place: usize,
) -> Result<(), Memory>
    ensures { OnOk result (out.new.items ≡ out.old.items ++ name_in (slice_get constraints.now place)) }
{
    match constraints.get(place) {
        Some(constraint) => put_written_name(alloc, out, constraint),
        None => Ok(()),
    }
}

fn put_limit_word(out: &mut Vec<u8>, limit: Limit) -> Result<(), Memory>
    ensures { OnOk result (out.new.items ≡ out.old.items ++ limit_word limit) }
{
    match limit {
        Limit::Least => out.extend_from_slice(b" least ")?,
        Limit::Most => out.extend_from_slice(b" most ")?,
    }
    Ok(())
}

// Appends how many times, where it is not once.
#[tactic(auto, unfolding(crate::specs::ShortTexts::times_text))]
fn put_times(alloc: Global, out: &mut Vec<u8>, times: u128) -> Result<(), Memory>
    ensures { OnOk result (out.new.items ≡ out.old.items ++ times_text times) }
{
    if times == 1 {
        return Ok(());
    }
    out.extend_from_slice(b" (")?;
    put_number(alloc, out, times)?;
    out.extend_from_slice(b" times)")?;
    Ok(())
}
