ghost use Rattle.std.specs.Prelude.{◌≡◌, ◌<◌, [], IfOk};
ghost use Rattle.pc_frontier.specs.Rings.{Listed, In, IsPlace, IsListed, first_of, last_of, next_of, placed_before, without};

use pc_num::Memory;
use std::alloc::Global;
use std::marker::Model;

/// A list of different numbers below a limit, linked both ways by number. The limit itself is the place before the
/// first and after the last number, so that no call has a case for an end.
#[derive(Debug, Drop)]
pub(crate) struct Ring {
    after: Vec<u32>,
    before: Vec<u32>,
    limit: u32,
}

impl Model for Ring {
    ghost use Rattle.pc_frontier.specs.Rings.{Listed, IsOrder, order_of};

    ghost Value = { Listed };

    ghost view = { λ r. record { limit = r.limit; numbers = order_of r.after.items r.limit } };

    ghost invariant = { λ r. IsOrder r.after.items r.before.items r.limit (order_of r.after.items r.limit) };
}

impl Ring {
    /// An empty list for numbers below the limit, with memory for all of them.
    pub(crate) fn new(alloc: Global, limit: u32) -> Result<Ring, Memory>
        ensures { IfOk result (λ r. r ≡ record { limit = limit; numbers = [] }) }
    {
        let places = limit as usize + 1;
        let after = vec![in alloc; limit; places]?;
        let before = vec![in alloc; limit; places]?;
        Ok(Ring {
            after,
            before,
            limit,
        })
    }

    pub(crate) fn limit(&self) -> u32
        ensures limit { result ≡ self.now.limit }
        ensures listed { IsListed self.now }
    {
        self.limit
    }

    /// The first number, or the limit.
    pub(crate) fn first(&self) -> u32
        ensures { result ≡ first_of self.now.numbers self.now.limit }
    {
        self.after[self.limit as usize]
    }

    /// The last number, or the limit.
    pub(crate) fn last(&self) -> u32
        ensures { result ≡ last_of self.now.limit self.now.numbers }
    {
        self.before[self.limit as usize]
    }

    /// The number after one, or the limit.
    pub(crate) fn next(&self, number: u32) -> u32
        requires { In number self.now.numbers }
        ensures { result ≡ next_of self.now.numbers self.now.limit number }
    {
        self.after[number as usize]
    }

    /// Puts a number before another one, or at the end where that is the limit.
    pub(crate) fn put_before(&mut self, next: u32, number: u32)
        requires place { IsPlace self.old next }
        requires below { number < self.old.limit }
        requires other { In number self.old.numbers → ⊥ }
        ensures { self.new ≡ record { limit = self.old.limit; numbers = placed_before next number self.old.numbers } }
    {
        let previous = self.before[next as usize];
        self.after[previous as usize] = number;
        self.after[number as usize] = next;
        self.before[number as usize] = previous;
        self.before[next as usize] = number;
    }

    pub(crate) fn remove(&mut self, number: u32)
        requires { In number self.old.numbers }
        ensures { self.new ≡ record { limit = self.old.limit; numbers = without number self.old.numbers } }
    {
        let previous = self.before[number as usize];
        let next = self.after[number as usize];
        self.after[previous as usize] = next;
        self.before[next as usize] = previous;
    }
}
