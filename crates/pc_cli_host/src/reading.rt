ghost use Rattle.std.specs.Prelude.{◌≡◌, ◌≢◌, ◌<◌, ◌≤◌, ◌^◌, ◌+◌, length, IfSome};
ghost use Rattle.pc_base.specs.Loads.{Copies};

use pc_base::Loaded;
use std::io;
use std::io::Read;

/// Reads all that the source holds, or one byte more than the limit, in the place of what `into` held. What memory
/// could not be had for is `Memory`, also where the system says so of its own.
#[tactic(auto, using(crate::proofs::Taken::short_is_whole, crate::proofs::Taken::short_fits, crate::proofs::Taken::long_passes,))]
pub(crate) fn read_up_to<R: Read>(source: &mut R, into: &mut Vec<u8>, limit: usize) -> Loaded
    requires { limit < 2 ^ 40 }
    ensures bytes { result ≢ Loaded.Failed → IfSome (R.remaining source.old) (λ bytes. Copies bytes limit result into.new.items) }
    ensures whole { result ≡ Loaded.Whole → length into.new.items ≤ limit }
    ensures long { result ≡ Loaded.Long → length into.new.items ≡ limit + 1 }
{
    into.clear();
    if let Err(error) = source.take(limit as u64 + 1).read_to_end(into) {
        return if error.kind() == io::ErrorKind::OutOfMemory {
            Loaded::Memory
        } else {
            Loaded::Failed
        };
    }
    // Of a reader that nothing is known of, the kit does not say that it kept to its limit.
    into.truncate(limit + 1);
    if into.len() <= limit {
        Loaded::Whole
    } else {
        Loaded::Long
    }
}
