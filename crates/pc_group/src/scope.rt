use pc_cells::Shared;
use pc_model::{Constraint, Schema};

/// What the queries of a call are asked over: the schema and the constraints, the tree that is divided for all of them, and
/// how many nodes each search may have.
#[derive(Clone, Copy, Debug)]
pub(crate) struct Scope<'a> {
    pub schema: &'a Schema,
    pub constraints: &'a [Constraint],
    pub shared: &'a Shared,
    pub nodes: u32,
}
