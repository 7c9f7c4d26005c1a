ghost use Rattle.std.specs.Prelude.{◌≡◌, ◌<◌, ◌&&◌, ◌↔◌, not, true, IfOk, IsTrue, length};
ghost use Rattle.pc_model.specs.Membership.{has};
ghost use Rattle.pc_model.specs.declared.row.Row.{Row};
ghost use Rattle.pc_box.specs.Boxes.{AreAlike, IsBox};
ghost use Rattle.pc_model.specs.CutTrees.{column_of, first_side, second_side, with_side, first_part, second_part};
ghost use Rattle.pc_box.specs.Cuts.{is_first, divides_side, Divides};

use crate::sides::places_outside;
use pc_list::Seq;
use pc_model::{Cut, Region, Side};
use pc_num::Memory;
use std::alloc::Global;

/// The two parts of a box that was cut.
#[derive(Debug, PartialEq, Eq, Drop)]
pub struct Halves {
    pub first: Region,
    pub second: Region,
}

/// Whether a cut is of one of the box's columns and of its kind, and leaves rows in both parts.
pub fn divides(a: &Region, at: &Cut) -> bool
    ensures { IsTrue result ↔ Divides a.now at.now }
{
    match a.sides.as_slice().get(column_of(at)) {
        Some(side) => divides_side(at, side),
        None => false,
    }
}

/// The rows that the cut puts into the first part, and those that it puts into the second.
pub fn cut(alloc: Global, a: &Region, at: &Cut) -> Result<Halves, Memory>
    requires filled { IsBox a.now }
    requires divided { Divides a.now at.now }
    ensures first_is { IfOk result (λ halves. halves.first ≡ first_part a.now at.now) }
    ensures second_is { IfOk result (λ halves. halves.second ≡ second_part a.now at.now) }
    ensures first { IfOk result (λ halves. (row : Row) → has halves.first row ≡ (has a.now row && is_first at.now row)) }
    ensures second { IfOk result (λ halves. (row : Row) → has halves.second row ≡ (has a.now row && not (is_first at.now row))) }
    ensures first_alike { IfOk result (λ halves. AreAlike a.now halves.first) }
    ensures second_alike { IfOk result (λ halves. AreAlike a.now halves.second) }
{
    parts(alloc, a, at)
}

#[tactic(auto, using(crate::proofs::CutRows::inside))]
fn parts(alloc: Global, a: &Region, at: &Cut) -> Result<Halves, Memory>
    requires divided { Divides a.now at.now }
    ensures first { IfOk result (λ halves. halves.first ≡ first_part a.now at.now) }
    ensures second { IfOk result (λ halves. halves.second ≡ second_part a.now at.now) }
{
    let column = column_of(at);
    let side = a.sides.as_slice()[column];
    let first = with_side(alloc, a, column, first_side(at, &side))?;
    let second = with_side(alloc, a, column, second_side(at, &side))?;
    Ok(Halves { first, second })
}

fn column_of(at: &Cut) -> usize
    ensures { result ≡ column_of at.now }
{
    match at {
        Cut::At { column, .. } => *column as usize,
        Cut::Among { column, .. } => *column as usize,
    }
}

#[tactic(auto, unfolding(crate::specs::Cuts::divides_side))]
fn divides_side(at: &Cut, side: &Side) -> bool
    ensures { result ≡ divides_side at.now side.now }
{
    match (*at, *side) {
        (Cut::At { at, .. }, Side::Span { low, high }) => low <= at && at < high,
        (Cut::Among { bits, .. }, Side::Names { bits: held }) => {
            held & bits > 0 && places_outside(held, bits) > 0
        }
        _ => false,
    }
}

#[tactic(auto, unfolding(pc_model::specs::CutTrees::first_side))]
fn first_side(at: &Cut, side: &Side) -> Side
    ensures { result ≡ first_side at.now side.now }
{
    match (*at, *side) {
        (Cut::At { at, .. }, Side::Span { low, high }) => Side::Span {
            low,
            high: high.min(at),
        },
        (Cut::Among { bits, .. }, Side::Names { bits: held }) => Side::Names { bits: held & bits },
        (_, side) => side,
    }
}

#[tactic(auto, unfolding(pc_model::specs::CutTrees::second_side, crate::specs::Cuts::divides_side))]
fn second_side(at: &Cut, side: &Side) -> Side
    requires { divides_side at.now side.now ≡ true }
    ensures { result ≡ second_side at.now side.now }
{
    match (*at, *side) {
        (Cut::At { at, .. }, Side::Span { low, high }) => Side::Span {
            low: low.max(at + 1),
            high,
        },
        (Cut::Among { bits, .. }, Side::Names { bits: held }) => Side::Names {
            bits: places_outside(held, bits),
        },
        (_, side) => side,
    }
}

fn with_side(alloc: Global, a: &Region, column: usize, side: Side) -> Result<Region, Memory>
    requires { column < length a.now.sides }
    ensures { IfOk result (λ region. region ≡ with_side a.now column side) }
{
    let mut sides = Vec::from_slice(alloc, a.sides.as_slice())?;
    sides[column] = side;
    Ok(Region {
        sides: Seq::from_vec(sides),
    })
}
