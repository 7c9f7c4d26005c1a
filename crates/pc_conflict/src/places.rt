//! Lists of places, each below the next.
ghost use Rattle.std.specs.Prelude.{◌≡◌, suc, ◌-◌, ◌<◌, ◌≤◌, ◌++◌, IfOk};
ghost use Rattle.std.specs.List.{range_with_len};
ghost use Rattle.pc_conflict.specs.Core.{other_than};
ghost use Rattle.pc_conflict.specs.Deleting.{lower_than};

use pc_list::Seq;
use pc_num::Memory;
use std::alloc::Global;

/// All places of a list.
pub(crate) fn all_places(alloc: Global, count: u32) -> Result<Seq<u32>, Memory>
    ensures { IfOk result (λ places. places ≡ range_with_len 0 (count - 0)) }
{
    with_places_from(Seq::new(alloc), 0, count)
}

/// Of the members those before a place, and all places after it.
pub(crate) fn tested_at(
    alloc: Global,
    members: &[u32],
    place: u32,
    count: u32,
) -> Result<Seq<u32>, Memory>
    requires { place < count }
    ensures { IfOk result (λ places. places ≡ lower_than place members.now ++ range_with_len (suc place) (count - suc place)) }
{
    let lower = lower_than(alloc, members, place)?;
    with_places_from(lower, place + 1, count)
}

fn lower_than(alloc: Global, members: &[u32], place: u32) -> Result<Seq<u32>, Memory>
    ensures { IfOk result (λ places. places ≡ lower_than place members.now) }
{
    let mut lower = Seq::new(alloc);
    for member in members {
        if *member < place {
            lower.push(*member)?;
        }
    }
    Ok(lower)
}

fn with_places_from(places: Seq<u32>, place: u32, count: u32) -> Result<Seq<u32>, Memory>
    requires { place ≤ count }
    ensures { IfOk result (λ more. more ≡ places ++ range_with_len place (count - place)) }
{
    let mut more = places;
    for later in place..count {
        more.push(later)?;
    }
    Ok(more)
}

/// All members but one.
pub(crate) fn others(alloc: Global, members: &[u32], member: u32) -> Result<Seq<u32>, Memory>
    ensures { IfOk result (λ places. places ≡ other_than member members.now) }
{
    let mut others = Seq::new(alloc);
    for other in members {
        if *other != member {
            others.push(*other)?;
        }
    }
    Ok(others)
}
