use pc_model::{Constraint, Query, Row};

/// A change of what is held: a row or a constraint more, at the end, or one less. Places are counted from 0.
#[derive(Debug, Drop)]
pub enum Edit {
    AddRow(Row),
    DropRow(u64),
    AddRule(Constraint),
    DropRule(u32),
}

/// A line of a script.
#[derive(Debug, Drop)]
pub enum Line {
    Edits(Edit),
    Asks(Query),
}
