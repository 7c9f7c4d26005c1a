ghost use Rattle.std.specs.Prelude.{◌≡◌, ◌<◌, ◌^◌, ◌++◌, ◌∷◌, [], ℕ, length, IfOk, IfSome};
ghost use Rattle.pc_model.specs.declared.tree.Cut.TheVariants.{Among};
ghost use Rattle.pc_model.specs.CutTrees.{first_part, first_side, side_at, with_side};
ghost use Rattle.pc_proof.specs.Setting.{allows_name, boxes_for, narrowed, some_allows};

use pc_list::Seq;
use pc_model::{Area, Region, Side};
use pc_num::Memory;
use std::alloc::Global;

/// Whether some box of an area allows the name at a place of a column.
pub fn some_allows(column: u8, place: u32, area: &Area) -> bool
    ensures { result ≡ some_allows column place area.now }
{
    area.boxes
        .as_slice()
        .iter()
        .any(|region| allows_name(column, place, region))
}

/// Whether a box allows the name at a place of a column.
pub fn allows_name(column: u8, place: u32, region: &Region) -> bool
    ensures { result ≡ allows_name column place region.now }
{
    side_at(region, column).holds(i64::from(place))
}

/// No name where the box has no side for the column.
fn side_at(region: &Region, column: u8) -> Side
    ensures { result ≡ side_at region.now column }
{
    match region.sides.as_slice().get(column as usize) {
        Some(side) => *side,
        None => Side::Names { bits: 0 },
    }
}

/// The part of an area that a name of its group column keeps, and all of it without a name.
pub fn narrowed(
    alloc: Global,
    chosen: &Area,
    group: Option<u8>,
    name: Option<u32>,
) -> Result<Area, Memory>
    requires { IfSome name (λ place. place < 128) }
    ensures { IfOk result (λ area. area ≡ narrowed chosen.now group name) }
{
    let Some(column) = group else {
        return Ok(chosen.clone()?);
    };
    let Some(place) = name else {
        return Ok(chosen.clone()?);
    };
    let boxes = boxes_for(alloc, column, place, chosen.boxes.as_slice())?;
    Ok(Area { boxes })
}

/// Of each box that allows the name, the part that the name keeps.
#[tactic(auto, using(crate::proofs::NameParts::steps))]
fn boxes_for(alloc: Global, column: u8, place: u32, boxes: &[Region]) -> Result<Seq<Region>, Memory>
    requires { place < 128 }
    ensures { IfOk result (λ parts. parts ≡ boxes_for column place boxes.now) }
{
    let mut parts = Seq::new(alloc);
    for region in boxes {
        parts = with_part(alloc, column, place, region, parts)?;
    }
    Ok(parts)
}

fn with_part(
    alloc: Global,
    column: u8,
    place: u32,
    region: &Region,
    parts: Seq<Region>,
) -> Result<Seq<Region>, Memory>
    requires { place < 128 }
    ensures { IfOk result (λ more. more ≡ parts ++ boxes_for column place (region.now ∷ [])) }
{
    let mut more = parts;
    if allows_name(column, place, region) {
        more.push(part_of_name(alloc, region, column, place)?)?;
    }
    Ok(more)
}

/// A box without a side for the column is its own part.
#[tactic(auto, using(crate::proofs::NameParts::no_side))]
fn part_of_name(alloc: Global, chosen: &Region, column: u8, place: u32) -> Result<Region, Memory>
    requires { place < 128 }
    ensures { IfOk result (λ region. region ≡ first_part chosen.now (Among column (2 ^ place))) }
{
    let sides = chosen.sides.as_slice();
    let Some(side) = sides.get(column as usize) else {
        return Ok(chosen.clone()?);
    };
    let part = side_of_name(*side, place);
    with_side(alloc, chosen, column as usize, part)
}

#[tactic(auto, unfolding(pc_model::specs::CutTrees::first_side))]
fn side_of_name(side: Side, place: u32) -> Side
    requires { place < 128 }
    ensures { (column : ℕ) → result ≡ first_side (Among column (2 ^ place)) side }
{
    match side {
        Side::Names { bits } => Side::Names {
            bits: bits & (1 << place),
        },
        Side::Span { low, high } => Side::Span { low, high },
    }
}

fn with_side(alloc: Global, chosen: &Region, column: usize, side: Side) -> Result<Region, Memory>
    requires { column < length chosen.now.sides }
    ensures { IfOk result (λ region. region ≡ with_side chosen.now column side) }
{
    let mut sides = Vec::from_slice(alloc, chosen.sides.as_slice())?;
    sides[column] = side;
    Ok(Region {
        sides: Seq::from_vec(sides),
    })
}
