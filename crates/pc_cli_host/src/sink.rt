ghost use Rattle.std.specs.Prelude.{◌≡◌, ◌≢◌, is_some};
ghost use Rattle.std.proofs.Common.{refl};
ghost use Rattle.pc_base.specs.Puts.{Leaves};

use crate::writing::write_whole;
use pc_base::{Put, Sink};
use std::io::{Printer, Stderr, Write};

/// A writer that tells what it took always or never.
pub trait Steady: Write {
    ghost steady: { (a b : Self) → is_some (Self.contents a) ≡ is_some (Self.contents b) };
}

impl Steady for Vec<u8> {
    ghost steady = { λ a b. refl };
}

impl<P: Print> Steady for Printer<'_, P> {
    ghost steady = { λ a b. refl };
}

impl Steady for Stderr {
    ghost steady = { λ a b. refl };
}

/// What is put goes to the writer. It does not count its puts.
#[derive(Drop)]
pub struct HostSink<W> {
    to: W,
    faults: u64,
}

impl<W> HostSink<W> {
    pub fn new(to: W) -> Self
        ensures to { result.to ≡ to }
        ensures faults { result.faults ≡ 0 }
    {
        HostSink { to, faults: 0 }
    }
}

impl<W: Steady> Sink for HostSink<W> {
    ghost told = { λ sink. record { kept = W.contents sink.to; faults = sink.faults; calls = 0 } };

    fn put(&mut self, piece: &[u8]) -> Put {
        let put = write_out(&mut self.to, piece);
        if put == Put::Failed {
            self.faults = self.faults.saturating_add(1);
        }
        put
    }
}

/// Writes the whole piece, or fails with a front of it written.
fn write_out<W: Steady>(to: &mut W, piece: &[u8]) -> Put
    ensures leaves { Leaves (W.contents to.old) (W.contents to.new) piece.now result }
    ensures no_memory_asked { result ≢ Put.Memory }
{
    if write_whole(to, piece) {
        Put::All
    } else {
        Put::Failed
    }
}
