ghost use Rattle.std.specs.Prelude.{◌≡◌, IfOk, [], ◌∷◌};
ghost use Rattle.pc_model.specs.Boxes.{IsAreaOf};
ghost use Rattle.pc_model.specs.Refusals.{Answers};
ghost use Rattle.pc_model.specs.WellFormed.{IsWellFormed};
ghost use Rattle.pc_lang.specs.Areas.{area_of, regions_from};

use crate::part::region_of;
use pc_lang_grammar::{Part, Ways};
use pc_list::Seq;
use pc_model::{Area, ReadStop, Reason, Region, Schema};
use pc_num::Memory;
use std::alloc::Global;

const MOST_BOXES: usize = 4;

/// The area that parts stand for: the region of each.
#[tactic(auto, using(crate::proofs::AreasOfParts::ways_are_area))]
pub(crate) fn area_of(alloc: Global, schema: &Schema, ways: &Ways) -> Result<Area, ReadStop>
    requires well_formed { IsWellFormed schema.now }
    ensures answers { Answers result (area_of schema.now ways.now) }
    ensures of_schema { IfOk result (IsAreaOf schema.now) }
{
    checked_area(alloc, schema, ways)
}

#[tactic(auto, unfolding(crate::specs::Areas::area_of))]
fn checked_area(alloc: Global, schema: &Schema, ways: &Ways) -> Result<Area, ReadStop>
    requires { IsWellFormed schema.now }
    ensures { Answers result (area_of schema.now ways.now) }
{
    if MOST_BOXES <= ways.others.len() {
        return Err(ReadStop::Reason(Reason::TooMany));
    }
    let boxes = regions_of(alloc, schema, ways)?;
    Ok(Area { boxes })
}

// The regions of the first part and of the others.
#[tactic(auto, unfolding(crate::specs::Areas::regions_from))]
fn regions_of(alloc: Global, schema: &Schema, ways: &Ways) -> Result<Seq<Region>, ReadStop>
    requires { IsWellFormed schema.now }
    ensures { Answers result (regions_from schema.now [] (ways.now.first ∷ ways.now.others)) }
{
    let mut boxes = Seq::new(alloc);
    boxes.push(region_of(alloc, schema, &ways.first)?)?;
    regions_from(alloc, schema, boxes, ways.others.as_slice())
}

// The regions of parts, after those before.
#[tactic(auto, using(crate::proofs::AreaPieces::steps))]
fn regions_from(
    alloc: Global,
    schema: &Schema,
    before: Seq<Region>,
    parts: &[Part],
) -> Result<Seq<Region>, ReadStop>
    requires { IsWellFormed schema.now }
    ensures { Answers result (regions_from schema.now before parts.now) }
{
    let mut boxes = before;
    for part in parts {
        boxes.push(region_of(alloc, schema, part)?)?;
    }
    Ok(boxes)
}
