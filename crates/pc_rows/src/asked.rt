ghost use Rattle.std.specs.Prelude.{◌≡◌, ◌<◌, ◌≤◌, ◌++◌, [], ◌∷◌, cond, length, map, None, IfOk};
ghost use Rattle.pc_model.specs.Aggregate.{asked, kept};
ghost use Rattle.pc_model.specs.Membership.{is_in};
ghost use Rattle.pc_rows.specs.Stored.{row_at, row_limit};

use crate::rows::Rows;
use pc_list::Seq;
use pc_model::Query;
use pc_num::Memory;
use std::alloc::Global;

impl Rows {
    /// The numbers that the rows in the query's area have in its column, in the order of the rows. Where the query has no
    /// column, they are 0.
    pub fn numbers(&self, alloc: Global, query: &Query) -> Result<Seq<i64>, Memory>
        ensures numbers { IfOk result (λ numbers. numbers ≡ map (asked query.now) (kept query.now None self.now)) }
        ensures few { IfOk result (λ numbers. length numbers ≤ row_limit) }
    {
        let mut numbers = Seq::new(alloc);
        for place in 0..self.count() as usize {
            numbers = self.with_asked(numbers, query, place)?;
        }
        Ok(numbers)
    }

    // The numbers with that of the row at a place, if the query keeps it.
    fn with_asked(&self, numbers: Seq<i64>, query: &Query, place: usize) -> Result<Seq<i64>, Memory>
        requires { place < length self.now }
        ensures { IfOk result (λ more. more ≡ cond (is_in query.now.chosen (row_at self.now place)) (numbers ++ asked query.now (row_at self.now place) ∷ []) numbers) }
    {
        if !self.has_row(&query.chosen, place) {
            return Ok(numbers);
        }
        let mut more = numbers;
        more.push(self.asked(query, place))?;
        Ok(more)
    }

    // The number of the row at a place in the query's column.
    fn asked(&self, query: &Query, place: usize) -> i64
        requires { place < length self.now }
        ensures { result ≡ asked query.now (row_at self.now place) }
    {
        match query.column {
            None => 0,
            Some(column) => self.number(place, column as usize),
        }
    }
}
