ghost use Rattle.std.specs.Prelude.{◌≡◌, ◌<◌, ◌≤◌, ◌+◌, ◌^◌, pos, [], ◌++◌, length, slice_index_or, if◌then◌else◌, OnOk, OnErr, IfOk};
ghost use Rattle.std.specs.List.{remove_range};

use pc_num::Memory;
use std::alloc::Global;
use std::marker::Model;

/// A list of numbers. Those up to the first that does not fit four bytes may stand in four bytes each.
#[derive(Debug, Drop)]
pub(crate) struct Numbers {
    starts_narrow: bool,
    narrow: Vec<i32>,
    wide: Vec<i64>,
}

impl Model for Numbers {
    ghost use Rattle.std.specs.Prelude.{ℤ, List, ◌++◌};

    ghost Value = { List ℤ };

    ghost view = { λ s. s.narrow.items ++ s.wide.items };
}

impl Numbers {
    /// The empty list, whose numbers take eight bytes each.
    pub(crate) fn wide(alloc: Global) -> Self
        ensures { result ≡ [] }
    {
        Numbers {
            starts_narrow: false,
            narrow: Vec::new(alloc),
            wide: Vec::new(alloc),
        }
    }

    /// The empty list, whose numbers take four bytes each as long as they fit.
    pub(crate) fn narrow(alloc: Global) -> Self
        ensures { result ≡ [] }
    {
        Numbers {
            starts_narrow: true,
            narrow: Vec::new(alloc),
            wide: Vec::new(alloc),
        }
    }

    /// Adds these numbers at the end; where there is no memory for them, the list stays.
    #[tactic(auto, using(crate::proofs::Storing::short_together))]
    pub(crate) fn extend(&mut self, cells: &[i64]) -> Result<(), Memory>
        ensures ok { OnOk result (self.new ≡ self.old ++ cells.now) }
        ensures err { OnErr result (self.new ≡ self.old) }
        ensures short { length self.new < 2 ^ 64 }
    {
        if self.starts_narrow && self.wide.is_empty() {
            if extend_narrow(&mut self.narrow, cells)? {
                return Ok(());
            }
        }
        self.wide.extend_from_slice(cells)?;
        Ok(())
    }

    pub(crate) fn get(&self, place: usize) -> i64
        requires { place < length self.now }
        ensures { result ≡ slice_index_or self.now place (pos 0) }
    {
        let narrow = self.narrow.len();
        if place < narrow {
            return i64::from(self.narrow[place]);
        }
        self.wide[place - narrow]
    }

    /// Takes so many numbers from a place on out of the list.
    #[tactic(auto, using(crate::proofs::Storing::short_together, crate::proofs::Removing::ranges))]
    pub(crate) fn remove(&mut self, from: usize, count: usize)
        requires there { from + count ≤ length self.old }
        ensures removed { self.new ≡ remove_range self.old from (from + count) }
    {
        let narrow = self.narrow.len();
        let end = from + count;
        if end <= narrow {
            self.narrow.drain(from..end);
            return;
        }
        if narrow <= from {
            self.wide.drain(from - narrow..end - narrow);
            return;
        }
        self.narrow.truncate(from);
        self.wide.drain(0..end - narrow);
    }
}

// Adds the numbers at the end and answers that they are there, if all of them fit.
fn extend_narrow(narrow: &mut Vec<i32>, cells: &[i64]) -> Result<bool, Memory>
    ensures ok { OnOk result (IfOk result (λ added. narrow.new.items ≡ (if added then narrow.old.items ++ cells.now else narrow.old.items))) }
    ensures err { OnErr result (narrow.new.items ≡ narrow.old.items) }
{
    narrow.reserve(cells.len())?;
    let before = narrow.len();
    for cell in cells {
        let Ok(number) = i32::try_from(*cell) else {
            narrow.truncate(before);
            return Ok(false);
        };
        if narrow.push(number).is_err() {
            narrow.truncate(before);
            return Err(Memory);
        }
    }
    Ok(true)
}
