use pc_model::{Constraint, Schema};
use pc_rows::Rows;

/// What the blocks of a document are judged by.
#[derive(Clone, Copy, Debug)]
pub(crate) struct Premises<'a> {
    pub schema: &'a Schema,
    pub rows: &'a Rows,
    pub constraints: &'a [Constraint],
}
