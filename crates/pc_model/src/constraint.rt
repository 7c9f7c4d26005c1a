ghost use Rattle.std.specs.Prelude.{◌≡◌};
ghost use Rattle.pc_model.specs.Membership.{is_named, is_named_by_some, is_under};

use crate::area::Area;
use crate::region::Region;
use crate::row::Row;
use pc_list::Text;

/// The rows that a constraint speaks of: those of an area, or those of no area of the list that it
/// stands in.
#[derive(Clone, Debug, PartialEq, Eq, Drop)]
pub enum When {
    Boxes(Area),
    Outside,
}

/// Each lost row in `when` is in `values`, and there are from `least` to `most` lost rows in `when`.
/// A constraint of the rows outside has no name: its text is empty.
#[derive(Clone, Debug, PartialEq, Eq, Drop)]
pub struct Constraint {
    pub name: Text,
    pub when: When,
    pub values: Region,
    pub least: u64,
    pub most: u64,
}

impl Constraint {
    /// Whether the constraint speaks of a row, as one of these.
    pub fn speaks_of(&self, constraints: &[Constraint], row: &Row) -> bool
        ensures { result ≡ is_under constraints.now self.now row.now }
    {
        match &self.when {
            When::Boxes(area) => area.has(row),
            When::Outside => !is_named_by_some(constraints, row),
        }
    }

    fn names(&self, row: &Row) -> bool
        ensures { result ≡ is_named self.now.when row.now }
    {
        match &self.when {
            When::Boxes(area) => area.has(row),
            When::Outside => false,
        }
    }
}

fn is_named_by_some(constraints: &[Constraint], row: &Row) -> bool
    ensures { result ≡ is_named_by_some constraints.now row.now }
{
    constraints.iter().any(|constraint| constraint.names(row))
}
