ghost use Rattle.std.specs.Prelude.{◌≡◌, ◌≢◌, ◌∷◌, ◌++◌, [], take, Contains, OnOk, OnErr};
ghost use Rattle.pc_base.specs.Counts.{next_count};
ghost use Rattle.pc_base.specs.MemoryPuts.{told_of};
ghost use Rattle.pc_base.specs.Shelves.{IsPut};
ghost use Rattle.pc_base.specs.declared.outside.Put.{Put};

use crate::outside::{Put, Sink};
use pc_list::Seq;
use pc_num::Memory;
use std::alloc::Global;

/// A sink in memory, some of whose puts can be made to fail.
#[derive(Debug, Drop)]
pub struct MemSink {
    /// The bytes written so far.
    pub kept: Seq<u8>,
    /// The puts that fail, counted from 0.
    pub fails: Seq<u64>,
    /// How many bytes of its piece a put that fails still writes, if the piece has as many.
    pub short: u64,
    /// How many puts there were.
    pub calls: u64,
    /// How many of them stand in `fails`.
    pub faults: u64,
}

impl MemSink {
    /// An empty sink, no put of which is made to fail. It takes no memory.
    pub fn new(alloc: Global, short: u64) -> MemSink
        ensures kept { result.kept ≡ [] }
        ensures fails { result.fails ≡ [] }
        ensures short { result.short ≡ short }
        ensures calls { result.calls ≡ 0 }
        ensures faults { result.faults ≡ 0 }
    {
        MemSink {
            kept: Seq::new(alloc),
            fails: Seq::new(alloc),
            short,
            calls: 0,
            faults: 0,
        }
    }

    /// Makes the put of this number fail, counted from 0.
    pub fn fail(&mut self, call: u64) -> Result<(), Memory>
        ensures ok { OnOk result (self.new.fails ≡ self.old.fails ++ call ∷ []) }
        ensures err { OnErr result (self.new.fails ≡ self.old.fails) }
        ensures kept_stays { self.new.kept ≡ self.old.kept }
        ensures short_stays { self.new.short ≡ self.old.short }
        ensures calls_stay { self.new.calls ≡ self.old.calls }
        ensures faults_stay { self.new.faults ≡ self.old.faults }
    {
        self.fails.push(call)?;
        Ok(())
    }
}

impl Sink for MemSink {
    ghost told = { λ s. told_of s };

    /// A put that is to fail and finds no memory counts its fault, appends nothing and answers `Memory`.
    fn put(&mut self, piece: &[u8]) -> Put
        ensures puts { IsPut (told_of self.old) piece.now result (told_of self.new) }

        // A put that is to fail fails with its front, and is counted; no other is.
        ensures fails_at { Contains self.old.fails self.old.calls → result ≢ Put.All }
        ensures short_at { result ≡ Put.Failed → self.new.kept ≡ self.old.kept ++ take self.old.short piece.now }
        ensures fault_counted { Contains self.old.fails self.old.calls → self.new.faults ≡ next_count self.old.faults }
        ensures else_stays { ¬ Contains self.old.fails self.old.calls → self.new.faults ≡ self.old.faults }
        ensures else_all { ¬ Contains self.old.fails self.old.calls → result ≢ Put.Failed }

        ensures fails_stay { self.new.fails ≡ self.old.fails }
        ensures short_stays { self.new.short ≡ self.old.short }
        ensures call_counted { self.new.calls ≡ next_count self.old.calls }
    {
        let call = self.calls;
        self.calls = call.saturating_add(1);
        if !self.fails.as_slice().contains(&call) {
            if self.kept.extend_from_slice(piece).is_err() {
                return Put::Memory;
            }
            return Put::All;
        }
        self.faults = self.faults.saturating_add(1);
        if self
            .kept
            .extend_from_slice(front_of(piece, self.short))
            .is_err()
        {
            return Put::Memory;
        }
        Put::Failed
    }
}

// The first bytes of the piece, or all of a piece that is shorter.
fn front_of(piece: &[u8], short: u64) -> &[u8]
    ensures { result.now ≡ take short piece.now }
{
    if short < piece.len() as u64 {
        return &piece[..short as usize];
    }
    piece
}
