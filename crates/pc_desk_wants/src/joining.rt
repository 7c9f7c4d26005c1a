ghost use Rattle.std.specs.Prelude.{◌≡◌, ◌++◌, IfOk};
ghost use Rattle.pc_desk_wants.specs.Joined.{joined, joint};

use pc_list::Seq;
use pc_num::Memory;
use std::alloc::Global;

/// The texts with commas between them, and this one between the last two.
#[tactic(auto, using(crate::proofs::TextsLeft::steps))]
pub fn joined(alloc: Global, last: &[u8], texts: &[Seq<u8>]) -> Result<Vec<u8>, Memory>
    ensures { IfOk result (λ out. out.items ≡ joined last.now texts.now) }
{
    let mut out = Vec::new(alloc);
    for (place, text) in texts.iter().enumerate() {
        out.extend_from_slice(text.as_slice())?;
        out.extend_from_slice(joint(last, texts.len() - place - 1))?;
    }
    Ok(out)
}

// What stands between a text and so many after it.
fn joint<'x>(last: &'x [u8], left: usize) -> &'x [u8]
    ensures { result.now ≡ joint last.now left }
{
    match left {
        0 => b"".as_slice(),
        1 => last,
        _ => b", ".as_slice(),
    }
}
