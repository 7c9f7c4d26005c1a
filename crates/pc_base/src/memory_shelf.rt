ghost use Rattle.std.specs.Prelude.{◌≡◌, ◌≢◌, ◌∷◌, ◌++◌, ℕ, List, [], Some, None, Contains, MatchOption, OnOk, OnErr};
ghost use Rattle.pc_base.specs.Files.{file_of};
ghost use Rattle.pc_base.specs.Loads.{Copies};
ghost use Rattle.pc_base.specs.Shelves.{IsLoad};

use crate::outside::{Loaded, Shelf};
use pc_list::{Seq, Text};
use pc_num::Memory;
use std::alloc::Global;

/// A shelf of files in memory, some of whose loads can be made to fail.
#[derive(Debug, Drop)]
pub struct MemShelf {
    /// Each name with its bytes; of two entries of a name the first counts.
    pub files: Seq<(Text, Seq<u8>)>,
    /// The loads that fail, counted from 0.
    pub fails: Seq<u64>,
    /// How many loads there were.
    pub calls: u64,
    /// How many of them failed because they stand in `fails`.
    pub faults: u64,
}

impl MemShelf {
    /// An empty shelf, no load of which is made to fail. It takes no memory.
    pub fn new(alloc: Global) -> Self
        ensures files { result.files ≡ [] }
        ensures fails { result.fails ≡ [] }
        ensures calls { result.calls ≡ 0 }
        ensures faults { result.faults ≡ 0 }
    {
        MemShelf {
            files: Seq::new(alloc),
            fails: Seq::new(alloc),
            calls: 0,
            faults: 0,
        }
    }

    /// Adds a file, or replaces the one of that name.
    pub fn add(&mut self, name: &str, bytes: &[u8]) -> Result<(), Memory>
        ensures held { OnOk result (file_of self.new.files name.now ≡ Some bytes.now) }
        ensures others_stay { (other : List ℕ) → other ≢ name.now → file_of self.new.files other ≡ file_of self.old.files other }
        ensures err { OnErr result (self.new.files ≡ self.old.files) }
        ensures fails_stay { self.new.fails ≡ self.old.fails }
        ensures calls_stay { self.new.calls ≡ self.old.calls }
        ensures faults_stay { self.new.faults ≡ self.old.faults }
    {
        let alloc = self.files.allocator();
        let name = Text::from_text(alloc, name)?;
        let bytes = Seq::from_slice(alloc, bytes)?;
        // In front it hides an older entry of the name.
        self.files.push_front((name, bytes))?;
        Ok(())
    }

    /// Makes the load of this number fail, counted from 0.
    pub fn fail(&mut self, call: u64) -> Result<(), Memory>
        ensures ok { OnOk result (self.new.fails ≡ self.old.fails ++ call ∷ []) }
        ensures err { OnErr result (self.new.fails ≡ self.old.fails) }
        ensures files_stay { self.new.files ≡ self.old.files }
        ensures calls_stay { self.new.calls ≡ self.old.calls }
        ensures faults_stay { self.new.faults ≡ self.old.faults }
    {
        self.fails.push(call)?;
        Ok(())
    }
}

impl Shelf for MemShelf {
    ghost use Rattle.pc_base.specs.MemoryLoads.{IsMemoryLoad, told_of};

    ghost told = { λ s. told_of s };

    ghost leads = { λ old name loaded new. IsMemoryLoad old name loaded new };

    fn load(&mut self, _alloc: Global, name: &str, into: &mut Vec<u8>, limit: usize) -> Loaded
        ensures loads { IsLoad (told_of self.old) name.now limit result into.new.items (told_of self.new) }
        ensures leads { IsMemoryLoad self.old name.now result self.new }
    {
        let call = self.calls;
        self.calls = call.saturating_add(1);
        if self.fails.as_slice().contains(&call) {
            self.faults = self.faults.saturating_add(1);
            return Loaded::Failed;
        }
        match bytes_of(self.files.as_slice(), name) {
            None => Loaded::Failed,
            Some(bytes) => copy_up_to(bytes, into, limit),
        }
    }
}

// The bytes under the name.
#[tactic(auto, using(crate::proofs::Lookup::rest_decides))]
fn bytes_of<'a>(files: &'a [(Text, Seq<u8>)], name: &str) -> Option<&'a [u8]>
    ensures { MatchOption result (file_of files.now name.now ≡ None) (λ bytes. file_of files.now name.now ≡ Some bytes.now) }
{
    for entry in files {
        if entry.0.as_str() == name {
            return Some(entry.1.as_slice());
        }
    }
    None
}

// Replaces what `into` holds by the bytes, or by one more than `limit` of them where there are more.
fn copy_up_to(bytes: &[u8], into: &mut Vec<u8>, limit: usize) -> Loaded
    ensures { Copies bytes.now limit result into.new.items }
{
    into.clear();
    let is_long = limit < bytes.len();
    let front = if is_long { &bytes[..limit + 1] } else { bytes };
    if into.extend_from_slice(front).is_err() {
        return Loaded::Memory;
    }
    if is_long { Loaded::Long } else { Loaded::Whole }
}
