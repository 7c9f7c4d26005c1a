ghost use Rattle.std.specs.Prelude.{◌<◌, ◌^◌, ℕ, List};
ghost use Rattle.pc_base.specs.Shelves.{IsLoad, IsPut, ShelfState, SinkState};
ghost use Rattle.pc_base.specs.declared.outside.Loaded.{Loaded};

use std::alloc::Global;

/// What a load did.
#[derive(Clone, Copy, Debug, PartialEq, Eq)]
pub enum Loaded {
    /// All bytes of the file are there.
    Whole,
    /// The file is longer than the limit, and its first bytes are there, one more than the limit.
    Long,
    /// The shelf has no such file, or could not read it.
    Failed,
    /// There was no memory for the bytes.
    Memory,
}

/// What a put did.
#[derive(Clone, Copy, Debug, PartialEq, Eq)]
pub enum Put {
    /// The whole piece is appended.
    All,
    /// A front of the piece is appended, which may be empty or all of it.
    Failed,
    /// There was no memory, and nothing is appended.
    Memory,
}

/// Files by their names.
pub trait Shelf {
    /// What the shelf tells of itself.
    ghost told: { Self → ShelfState };
    /// A load of this name that did this may lead from the first shelf to the second.
    ghost leads: { Self → List ℕ → Loaded → Self → Type 0 };

    /// Puts the bytes of the file into `into`, or one more than `limit` of a longer one. What `into` held before is
    /// dropped; after `Failed` and `Memory` it may hold any bytes.
    fn load(&mut self, alloc: Global, name: &str, into: &mut Vec<u8>, limit: usize) -> Loaded
        requires { limit < 2 ^ 40 }
        ensures loads { IsLoad (told self.old) name.now limit result into.new.items (told self.new) }
        ensures leads { leads self.old name.now result self.new };
}

/// Where text goes.
pub trait Sink {
    /// What the sink tells of itself.
    ghost told: { Self → SinkState };

    /// Appends the piece.
    fn put(&mut self, piece: &[u8]) -> Put
        ensures puts { IsPut (told self.old) piece.now result (told self.new) };
}
