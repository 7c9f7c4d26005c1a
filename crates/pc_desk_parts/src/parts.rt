ghost use Rattle.std.specs.Prelude.{IfOk};
ghost use Rattle.pc_desk_parts.specs.Parts.{ArePartsOf, IsReached};

use crate::asked::{Asked, Reached};
use crate::lost::{counts_of, lost_parts};
use crate::observed::observed_parts;
use crate::order::ordered;
use crate::part::Part;
use pc_list::Seq;
use pc_num::Memory;
use std::alloc::Global;

/// The parts that make up an end: those of the observed rows, and then those of the lost ones, of which those that add more come
/// first. Each lost part bears what keeps it from giving more.
#[tactic(auto, using(crate::proofs::Rooms::steps))]
pub fn parts_of(alloc: Global, ask: &Asked, reached: &Reached) -> Result<Seq<Part>, Memory>
    requires { IsReached ask.now reached.now }
    ensures parts { IfOk result (ArePartsOf ask.now reached.now) }
{
    let counts = counts_of(alloc, ask.constraints, reached.runs)?;
    let lost = lost_parts(alloc, ask, reached, counts.as_slice())?;
    let mut lost = ordered(lost)?;
    let mut parts = observed_parts(alloc, ask, reached)?;
    parts.append(&mut lost)?;
    Ok(Seq::from_vec(parts))
}
