use crate::rows::Rows;
use pc_list::Seq;
use pc_model::{Constraint, Query, Schema};

/// What is asked, and of what: the schema, the observed rows, the constraints on the missing ones, and the queries.
#[derive(Debug, Drop)]
pub struct Case {
    pub schema: Schema,
    pub rows: Rows,
    pub constraints: Seq<Constraint>,
    pub queries: Seq<Query>,
}
