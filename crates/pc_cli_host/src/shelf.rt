ghost use Rattle.std.specs.Prelude.{◌≡◌, Some, Option, IfSome, IsSomeAnd, IfOk};
ghost use Rattle.pc_base.specs.Files.{Files, file_of};
ghost use Rattle.pc_base.specs.Loads.{CountsFault};

use crate::reading::read_up_to;
use pc_base::{Loaded, Shelf};
use std::alloc::Global;
use std::io;
use std::io::Read;

/// What opens files by their names.
pub trait Opens {
    type File: Read + Drop;

    /// The files that it opens, where they are known.
    ghost files: { Self → Option Files };

    /// Opens the file of that name at its first byte.
    fn open(&self, name: &str) -> io::Result<Self::File>
        ensures bytes { IfSome (files self.now) (λ files. IfOk result (λ file.
            IsSomeAnd (file_of files name.now) (λ bytes. Self.File.remaining file ≡ Some bytes))) };
}

/// The files that are opened so. It does not count its loads.
#[derive(Drop)]
pub struct HostShelf<O> {
    opens: O,
    faults: u64,
}

impl<O> HostShelf<O> {
    pub fn new(opens: O) -> Self
        ensures opens { result.opens ≡ opens }
        ensures faults { result.faults ≡ 0 }
    {
        HostShelf { opens, faults: 0 }
    }
}

impl<O: Opens> Shelf for HostShelf<O> {
    ghost told = { λ shelf. record { files = O.files shelf.opens; faults = shelf.faults; calls = 0 } };

    ghost leads = { λ old name loaded new. CountsFault old.faults loaded new.faults };

    fn load(&mut self, _alloc: Global, name: &str, into: &mut Vec<u8>, limit: usize) -> Loaded {
        let loaded = match self.opens.open(name) {
            Ok(mut file) => read_up_to(&mut file, into, limit),
            Err(_) => Loaded::Failed,
        };
        if loaded == Loaded::Failed {
            self.faults = self.faults.saturating_add(1);
        }
        loaded
    }
}
