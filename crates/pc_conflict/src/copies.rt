//! Copies of constraints.
ghost use Rattle.std.specs.Prelude.{◌≡◌, ◌<◌, length, All, IfOk};
ghost use Rattle.pc_conflict.specs.Deletion.{at_places};

use pc_list::Seq;
use pc_model::Constraint;
use pc_num::Memory;
use std::alloc::Global;

/// Copies of the constraints at these places.
pub(crate) fn constraints_at(
    alloc: Global,
    constraints: &[Constraint],
    places: &[u32],
) -> Result<Seq<Constraint>, Memory>
    requires { All (λ place. place < length constraints.now) places.now }
    ensures { IfOk result (λ copies. copies ≡ at_places constraints.now places.now) }
{
    let mut copies = Seq::new(alloc);
    for place in places {
        let copy = constraints[*place as usize].clone()?;
        copies.push(copy)?;
    }
    Ok(copies)
}
