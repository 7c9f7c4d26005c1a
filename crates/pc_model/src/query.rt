ghost use Rattle.std.specs.Prelude.{◌≡◌};
ghost use Rattle.std.specs.Int.{int_max, int_min};
ghost use Rattle.pc_model.specs.Folds.{better};

use crate::area::Area;

/// An aggregate.
#[derive(Clone, Copy, Debug, PartialEq, Eq)]
pub enum Agg {
    Count,
    Sum,
    Min,
    Max,
    Avg,
}

/// An aggregate of the rows in `chosen`: of a number column, but for a count, and for each name of a
/// column of names where it is grouped. Columns are places in the schema, from 0.
#[derive(Clone, Debug, PartialEq, Eq, Drop)]
pub struct Query {
    pub agg: Agg,
    pub column: Option<u8>,
    pub chosen: Area,
    pub group: Option<u8>,
}

/// What the observed rows of a query come to. The last two are absent where there is no row or no column.
#[derive(Clone, Copy, Debug, PartialEq, Eq)]
pub struct Folded {
    pub count: u64,
    pub sum: i128,
    pub least: Option<i64>,
    pub greatest: Option<i64>,
}

/// The lesser of a number and of the least of those before it, where there is one.
pub fn least_of(before: Option<i64>, number: i64) -> i64
    ensures { result ≡ better int_min before number }
{
    before.map_or(number, |least| least.min(number))
}

/// The greater of a number and of the greatest of those before it, where there is one.
pub fn greatest_of(before: Option<i64>, number: i64) -> i64
    ensures { result ≡ better int_max before number }
{
    before.map_or(number, |greatest| greatest.max(number))
}
