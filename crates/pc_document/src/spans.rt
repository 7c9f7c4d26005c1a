ghost use Rattle.std.specs.Prelude.{◌≡◌, ◌<◌, ◌+◌, drop, length, IfOk};
ghost use Rattle.pc_document.specs.Spans.{ArePast, Trees, span};

use pc_num::Memory;
use std::alloc::Global;

/// Of the nodes of one tree in preorder, by which of them have two parts, the place after the tree that begins at each.
#[tactic(auto, using(crate::proofs::Reaches::past_steps))]
pub(crate) fn past_of(alloc: Global, flags: &[bool]) -> Result<Vec<usize>, Memory>
    requires { Trees 1 flags.now }
    ensures { IfOk result (λ past. ArePast flags.now past.items 0) }
{
    let count = flags.len();
    let mut past = vec![in alloc; 0; count]?;
    for place in (0..count).rev() {
        let after = past_at(flags, past.as_slice(), place);
        past[place] = after;
    }
    Ok(past)
}

/// The place after the tree that begins at a place, where those of later ones are known.
#[tactic(auto, using(crate::proofs::Reaches::past_steps))]
fn past_at(flags: &[bool], past: &[usize], place: usize) -> usize
    requires trees { Trees 1 flags.now }
    requires there { place < length flags.now }
    requires later { ArePast flags.now past.now (place + 1) }
    ensures { result ≡ place + span 1 (drop place flags.now) }
{
    if !flags[place] {
        return place + 1;
    }
    match past.get(past[place + 1]) {
        Some(end) => *end,
        None => unreachable!(),
    }
}
