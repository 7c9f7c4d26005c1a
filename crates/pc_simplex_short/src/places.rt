ghost use Rattle.std.specs.Prelude.{◌≡◌, ◌<◌, [], ◌∷◌, ◌++◌, length, slice_index_or, OnOk, OnErr};

use pc_num::Memory;
use std::alloc::Global;
use std::marker::Model;

/// Where a list stands in the one that has all of them.
#[derive(Clone, Copy, Drop)]
pub struct Span {
    from: usize,
    count: usize,
}

/// Lists of places. They stand one after the other, so that however many there are, they take two pieces of memory.
#[derive(Drop)]
pub struct Places {
    spans: Vec<Span>,
    all: Vec<usize>,
}

impl Model for Places {
    ghost use Rattle.std.specs.Prelude.{ℕ, List, map, length, All};
    ghost use Rattle.pc_simplex_short.specs.Spans.{part, IsSpan};

    ghost Value = { List (List ℕ) };

    ghost view = { λ p. map (part p.all.items) p.spans.items };

    ghost invariant = { λ p. All (IsSpan (length p.all.items)) p.spans.items };
}

impl Places {
    /// No lists, which take no memory.
    pub fn new(alloc: Global) -> Self
        ensures { result ≡ [] }
    {
        Places {
            spans: Vec::new(alloc),
            all: Vec::new(alloc),
        }
    }

    /// Adds a list at the end; where there is no memory for it, the lists stay as they are.
    pub fn push(&mut self, list: &[usize]) -> Result<(), Memory>
        ensures ok { OnOk result (self.new ≡ self.old ++ list.now ∷ []) }
        ensures err { OnErr result (self.new ≡ self.old) }
    {
        let from = self.all.len();
        self.all.extend_from_slice(list)?;
        let count = list.len();
        self.spans.push(Span { from, count })?;
        Ok(())
    }

    /// The list of a column.
    pub(crate) fn at(&self, column: usize) -> &[usize]
        requires { column < length self.now }
        ensures { result.now ≡ slice_index_or self.now column [] }
    {
        let span = self.spans[column];
        let all = self.all.as_slice();
        &all[span.from..span.from + span.count]
    }
}
