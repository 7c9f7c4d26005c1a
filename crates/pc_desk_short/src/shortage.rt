ghost use Rattle.std.specs.Prelude.{◌≡◌, ◌<◌, ◌^◌, IfOk, IfSome, IsNone, length};
ghost use Rattle.pc_model.specs.Accepted.{AreConstraints};
ghost use Rattle.pc_model.specs.WellFormed.{IsWellFormed};
ghost use Rattle.pc_desk_short.specs.Shortage.{IsShort, ShowNone, needed, room, short_by, shortage_of};

use crate::claim::{Claim, Limit, claims_of, total_of};
use crate::weight::{are_served, are_sized};
use pc_desk_try::openings;
use pc_list::Seq;
use pc_model::{Constraint, Schema};
use pc_num::Memory;
use std::alloc::Global;

/// So many rows are needed, and there is room for fewer, though each row that serves a need takes room as often.
#[derive(Debug, Drop)]
pub struct Shortage {
    pub needed: u128,
    pub room: u128,
    pub needs: Seq<Claim>,
    pub rooms: Seq<Claim>,
}

/// The shortage that weights show, one for each constraint: one below 0 for so many times its least, one above 0 for so many
/// times its most. Nothing is known of them; where they show none, or are another number of weights than there are constraints,
/// or one of them is beyond 2 ^ 60, there is none.
pub fn shortage_by(
    alloc: Global,
    schema: &Schema,
    constraints: &[Constraint],
    weights: &[i128],
) -> Result<Option<Shortage>, Memory>
    requires well_formed { IsWellFormed schema.now }
    requires accepted { AreConstraints schema.now constraints.now }
    ensures short { IfOk result (λ found. IfSome found (λ _. IsShort schema.now constraints.now weights.now)) }
    ensures parts { IfOk result (λ found. IfSome found (λ s. s ≡ shortage_of constraints.now weights.now)) }
    ensures told { IfOk result (λ found. IsNone found → ShowNone schema.now constraints.now weights.now) }
{
    if !are_sized(constraints, weights) {
        return Ok(None);
    }
    let openings = openings(alloc, schema, constraints)?;
    if !are_served(openings.as_slice(), weights) {
        return Ok(None);
    }
    short_by(alloc, constraints, weights)
}

fn short_by(
    alloc: Global,
    constraints: &[Constraint],
    weights: &[i128],
) -> Result<Option<Shortage>, Memory>
    requires long { length weights.now ≡ length constraints.now }
    requires needed { needed constraints.now weights.now < 2 ^ 128 }
    requires room { room constraints.now weights.now < 2 ^ 128 }
    ensures { IfOk result (λ found. found ≡ short_by constraints.now weights.now) }
{
    let shortage = shortage_of(alloc, constraints, weights)?;
    if shortage.room < shortage.needed {
        return Ok(Some(shortage));
    }
    Ok(None)
}

fn shortage_of(
    alloc: Global,
    constraints: &[Constraint],
    weights: &[i128],
) -> Result<Shortage, Memory>
    requires long { length weights.now ≡ length constraints.now }
    requires needed { needed constraints.now weights.now < 2 ^ 128 }
    requires room { room constraints.now weights.now < 2 ^ 128 }
    ensures { IfOk result (λ shortage. shortage ≡ shortage_of constraints.now weights.now) }
{
    let needs = claims_of(alloc, Limit::Least, constraints, weights)?;
    let rooms = claims_of(alloc, Limit::Most, constraints, weights)?;
    Ok(Shortage {
        needed: total_of(needs.as_slice()),
        room: total_of(rooms.as_slice()),
        needs,
        rooms,
    })
}
