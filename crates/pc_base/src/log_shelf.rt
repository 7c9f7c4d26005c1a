ghost use Rattle.std.specs.Prelude.{◌≡◌, ◌∷◌, ◌++◌, List, [], OnOk, OnErr};
ghost use Rattle.pc_base.specs.Loads.{Load, Chain};
ghost use Rattle.pc_base.specs.Logs.{IsLogged, HadMemory};

use crate::outside::{Loaded, Shelf};
use pc_list::{Seq, Text};
use pc_num::Memory;
use std::alloc::Global;

/// A shelf that keeps a log of its loads. A name that is kept needs memory: where there is none, the load answers
/// `Memory`, and nothing is said of the log.
#[derive(Debug, Drop)]
pub struct LogShelf<S> {
    /// Whose files they are.
    pub shelf: S,
    /// The name of each load with what it did, the first load first.
    pub log: Seq<(Text, Loaded)>,
}

impl<S> LogShelf<S> {
    /// The shelf with an empty log. It takes no memory.
    pub fn new(alloc: Global, shelf: S) -> Self
        ensures shelf { result.shelf ≡ shelf }
        ensures log { result.log ≡ [] }
    {
        LogShelf {
            shelf,
            log: Seq::new(alloc),
        }
    }
}

impl<S: Shelf> Shelf for LogShelf<S> {
    ghost told = { λ s. S.told s.shelf };

    ghost leads = { λ old name loaded new. IsLogged old.log name loaded new.log };

    fn load(&mut self, alloc: Global, name: &str, into: &mut Vec<u8>, limit: usize) -> Loaded {
        let loaded = self.shelf.load(alloc, name, into, limit);
        match keep(&mut self.log, name, loaded) {
            Ok(()) => loaded,
            Err(Memory) => Loaded::Memory,
        }
    }
}

/// Keeps a load at the end of the log.
fn keep(log: &mut Seq<(Text, Loaded)>, name: &str, loaded: Loaded) -> Result<(), Memory>
    ensures ok { OnOk result (log.new ≡ log.old ++ (name.now, loaded) ∷ []) }
    ensures err { OnErr result (log.new ≡ log.old) }
{
    let name = Text::from_text(log.allocator(), name)?;
    log.push((name, loaded))?;
    Ok(())
}

/// Loads that had their memory are what the log has got, in their order, and nothing else is.
pub fn loads_are_logged<S: Shelf>()
    ensures logged { (old new : LogShelf S) → (loads : List Load)
        → Chain (λ before name loaded after. IsLogged before.log name loaded after.log) old new loads
        → HadMemory loads → new.log ≡ old.log ++ loads }
{}
