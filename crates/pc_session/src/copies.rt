//! Copies of constraints.
ghost use Rattle.std.specs.Prelude.{◌≡◌, IfOk};

use pc_list::Seq;
use pc_model::Constraint;
use pc_num::Memory;
use std::alloc::Global;

/// Copies of constraints, in their order.
pub fn copies_of(alloc: Global, constraints: &[Constraint]) -> Result<Seq<Constraint>, Memory>
    ensures { IfOk result (λ copies. copies ≡ constraints.now) }
{
    let mut copies = Seq::new(alloc);
    for constraint in constraints {
        let copy = constraint.clone()?;
        copies.push(copy)?;
    }
    Ok(copies)
}
