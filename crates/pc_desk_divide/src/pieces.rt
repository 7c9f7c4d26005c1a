//! The pieces into which a division cuts a column.
ghost use Rattle.std.specs.Prelude.{◌≡◌, ◌<◌, ◌∷◌, ◌++◌, [], IfOk};
ghost use Rattle.pc_desk_divide.specs.Pieces.{name_in, names_of, pieces_of, pieces_of_side};

use crate::division::{Division, Pieces};
use crate::hull::hull_of;
use crate::ranges::ranges_of;
use pc_list::Seq;
use pc_model::{Region, Side, has_bit};
use pc_num::Memory;
use std::alloc::Global;

/// The pieces into which a division cuts what boxes have in its column.
pub(crate) fn pieces_of(
    alloc: Global,
    boxes: &[Region],
    division: &Division,
) -> Result<Seq<Side>, Memory>
    ensures { IfOk result (λ pieces. pieces ≡ pieces_of boxes.now division.now) }
{
    match hull_of(division.column, boxes) {
        Some(side) => pieces_of_side(alloc, division.pieces, side),
        None => Ok(Seq::new(alloc)),
    }
}

#[tactic(auto, unfolding(crate::specs::Pieces::pieces_of_side))]
fn pieces_of_side(alloc: Global, pieces: Pieces, side: Side) -> Result<Seq<Side>, Memory>
    ensures { IfOk result (λ found. found ≡ pieces_of_side pieces side) }
{
    match (pieces, side) {
        (Pieces::Names, Side::Names { bits }) => names_of(alloc, bits),
        (Pieces::Ranges(parts), Side::Span { low, high }) => ranges_of(alloc, parts, low, high),
        _ => one_piece(alloc, side),
    }
}

fn one_piece(alloc: Global, side: Side) -> Result<Seq<Side>, Memory>
    ensures { IfOk result (λ pieces. pieces ≡ side ∷ []) }
{
    let mut pieces = Seq::new(alloc);
    pieces.push(side)?;
    Ok(pieces)
}

#[tactic(auto, using(crate::proofs::Steps::name_steps), unfolding(crate::specs::Pieces::names_of))]
fn names_of(alloc: Global, bits: u128) -> Result<Seq<Side>, Memory>
    ensures { IfOk result (λ names. names ≡ names_of bits) }
{
    let mut names = Seq::new(alloc);
    for place in 0..128 {
        names = with_name(names, bits, place)?;
    }
    Ok(names)
}

fn with_name(names: Seq<Side>, bits: u128, place: usize) -> Result<Seq<Side>, Memory>
    requires { place < 128 }
    ensures { IfOk result (λ more. more ≡ names ++ name_in bits place) }
{
    if !has_bit(bits, place) {
        return Ok(names);
    }
    let mut names = names;
    names.push(Side::Names {
        bits: 1 << place as u32,
    })?;
    Ok(names)
}
