ghost use Rattle.std.specs.Prelude.{◌≡◌};
ghost use Rattle.pc_simplex_tableau.specs.Tableau.{range_of, end_of};

use pc_list::Seq;
use std::marker::Model;

/// The columns of a phase: the ranges of those that are no helpers, the number of all, and the range of a helper, if it has
/// an end.
#[derive(Drop)]
pub struct Columns {
    pub ranges: Seq<u64>,
    pub count: usize,
    pub helper: Option<u64>,
}

impl Model for Columns {
    ghost use Rattle.pc_simplex_tableau.specs.Tableau.{Columns};

    ghost Value = { Columns };

    ghost view = { λ f. record { ranges = f.ranges; count = f.count; helper = f.helper } };
}

impl Columns {
    /// The range of a column, or none if it has no end.
    pub fn range(&self, column: usize) -> Option<u64>
        ensures { result ≡ range_of self.now column }
    {
        if column >= self.ranges.len() {
            return self.helper;
        }
        let ranges = self.ranges.as_slice();
        Some(ranges[column])
    }

    /// The range of a column that is turned, which has an end.
    pub fn end(&self, column: usize) -> u64
        ensures { result ≡ end_of self.now column }
    {
        match self.range(column) {
            Some(range) => range,
            None => 0,
        }
    }
}
