use pc_cells::Cells;
use pc_model::{Constraint, Query, Schema};

/// What a query is asked over: its schema and constraints, the cells of its region, and how many nodes a search may have.
#[derive(Clone, Copy, Debug)]
pub struct Problem<'a> {
    pub schema: &'a Schema,
    pub constraints: &'a [Constraint],
    pub query: &'a Query,
    pub cells: &'a Cells,
    pub nodes: u32,
}
