ghost use Rattle.std.specs.Prelude.{◌≤◌, ◌+◌};
ghost use Rattle.pc_files.specs.Writing.{Writes, writing_of};

use pc_base::{Put, Sink};

/// Writes a text by one put.
pub fn put_text<K: Sink>(out: &mut K, text: &[u8]) -> Put
    ensures writes { Writes (writing_of K.told out.old out.new) text.now result }
    ensures puts { (K.told out.new).calls ≤ (K.told out.old).calls + 1 }
{
    out.put(text)
}
