ghost use Rattle.std.specs.Prelude.{◌≡◌, ◌≤◌, ◌<◌, ◌++◌, [], All, IfOk, OnOk, length};
ghost use Rattle.pc_num.specs.Put.{scaled_text};
ghost use Rattle.pc_model.specs.Regions.{whole_side};
ghost use Rattle.pc_model.specs.WellFormed.{IsColumn, IsKind, IsWellFormed};
ghost use Rattle.pc_lang.specs.Canonical.{atoms_for, name_if, names_claim, names_from, part_for, same_side, side_atoms, side_claim, span_claim};

use crate::whole::same_side;
use pc_lang_grammar::{Atom, Claim, Part};
use pc_list::{Seq, Text};
use pc_model::{Column, Kind, Region, Schema, Side, has_bit};
use pc_num::{Memory, put_scaled};
use std::alloc::Global;

/// The canonical part of a region: an atom for each column of which it does not hold all.
pub(crate) fn part_for(alloc: Global, schema: &Schema, region: &Region) -> Result<Part, Memory>
    requires { IsWellFormed schema.now }
    ensures { IfOk result (λ part. part ≡ part_for schema.now region.now) }
{
    let atoms = atoms_for(alloc, schema.columns.as_slice(), region.sides.as_slice())?;
    Ok(Part { atoms })
}

#[tactic(auto, using(crate::proofs::Atoms::steps))]
fn atoms_for(alloc: Global, columns: &[Column], sides: &[Side]) -> Result<Seq<Atom>, Memory>
    requires { All IsColumn columns.now }
    ensures { IfOk result (λ atoms. atoms ≡ atoms_for columns.now sides.now) }
{
    let mut atoms = Seq::new(alloc);
    for (place, column) in columns.iter().enumerate() {
        if sides.len() <= place {
            return Ok(atoms);
        }
        push_atom(alloc, &mut atoms, column, sides[place])?;
    }
    Ok(atoms)
}

// Adds an atom for a side that is not all of its column.
#[tactic(auto, unfolding(crate::specs::Canonical::side_atoms))]
fn push_atom(
    alloc: Global,
    atoms: &mut Seq<Atom>,
    column: &Column,
    side: Side,
) -> Result<(), Memory>
    requires { IsColumn column.now }
    ensures { OnOk result (atoms.new ≡ atoms.old ++ side_atoms column.now side) }
{
    if is_whole_side(&column.kind, side) {
        return Ok(());
    }
    let claim = side_claim(alloc, &column.kind, side)?;
    atoms.push(Atom {
        column: column.name.clone()?,
        claim,
    })?;
    Ok(())
}

fn is_whole_side(kind: &Kind, side: Side) -> bool
    requires { IsKind kind.now }
    ensures { result ≡ same_side side (whole_side kind.now) }
{
    same_side(side, kind.whole_side())
}

// What a side says of its column.
#[tactic(auto, unfolding(crate::specs::Canonical::side_claim))]
fn side_claim(alloc: Global, kind: &Kind, side: Side) -> Result<Claim, Memory>
    requires { IsKind kind.now }
    ensures { IfOk result (λ claim. claim ≡ side_claim kind.now side) }
{
    match (kind, side) {
        (Kind::Int { .. }, Side::Span { low, high }) => span_claim(alloc, 0, low, high),
        (Kind::Dec { scale, .. }, Side::Span { low, high }) => {
            span_claim(alloc, *scale, low, high)
        }
        (Kind::Cat { names }, Side::Names { bits }) => { set_claim(alloc, bits, names.as_slice()) }
        _ => Ok(Claim::Name(no_text(alloc))),
    }
}

// One number, or all from one to another.
#[tactic(auto, unfolding(crate::specs::Canonical::span_claim))]
fn span_claim(alloc: Global, scale: u8, low: i64, high: i64) -> Result<Claim, Memory>
    requires { scale ≤ 6 }
    ensures { IfOk result (λ claim. claim ≡ span_claim scale low high) }
{
    let from = number_text(alloc, i128::from(low), scale)?;
    if low == high {
        return Ok(Claim::Number(from));
    }
    let upto = number_text(alloc, i128::from(high), scale)?;
    Ok(Claim::Within {
        low: from,
        high: upto,
    })
}

/// A number of units of its last place, as text.
pub(crate) fn number_text(alloc: Global, value: i128, scale: u8) -> Result<Seq<u8>, Memory>
    requires { scale ≤ 6 }
    ensures { IfOk result (λ text. text ≡ scaled_text value scale) }
{
    let mut text = Vec::new(alloc);
    put_scaled(alloc, &mut text, value, scale)?;
    Ok(Seq::from_vec(text))
}

fn set_claim(alloc: Global, bits: u128, names: &[Text]) -> Result<Claim, Memory>
    requires { length names.now ≤ 128 }
    ensures { IfOk result (λ claim. claim ≡ names_claim (names_from bits 0 names.now)) }
{
    let stated = names_of(alloc, bits, names)?;
    Ok(names_claim(alloc, stated))
}

// One name, or more.
#[tactic(auto, using(crate::proofs::Stated::steps))]
fn names_claim(alloc: Global, names: Seq<Text>) -> Claim
    ensures { result ≡ names_claim names }
{
    let mut others = names.into_vec();
    if others.is_empty() {
        return Claim::Name(no_text(alloc));
    }
    let first = others.remove(0);
    if others.is_empty() {
        return Claim::Name(first);
    }
    Claim::Among {
        first,
        others: Seq::from_vec(others),
    }
}

/// The empty text, which takes no memory.
pub(crate) fn no_text(alloc: Global) -> Text
    ensures { result ≡ [] }
{
    Text::from_string(String::new(alloc))
}

// The names whose places are in the set.
#[tactic(auto, using(crate::proofs::Stated::names_steps))]
fn names_of(alloc: Global, bits: u128, names: &[Text]) -> Result<Seq<Text>, Memory>
    requires { length names.now ≤ 128 }
    ensures { IfOk result (λ stated. stated ≡ names_from bits 0 names.now) }
{
    let mut stated = Seq::new(alloc);
    for (place, name) in names.iter().enumerate() {
        push_name(&mut stated, bits, place, name)?;
    }
    Ok(stated)
}

fn push_name(stated: &mut Seq<Text>, bits: u128, place: usize, name: &Text) -> Result<(), Memory>
    requires { place < 128 }
    ensures { OnOk result (stated.new ≡ stated.old ++ name_if bits place name.now) }
{
    if has_bit(bits, place) {
        stated.push(name.clone()?)?;
    }
    Ok(())
}
